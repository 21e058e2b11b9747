//! The program `supd` once more, over a second stored run: a node that goes on from an image of version 1.
#![tactic(auto)]

use std::env;
use std::process::ExitCode;
use sup_about::{SystemBeside, SystemRoom};
use sup_supd::{Supd, SystemImages, run_supd};

fn main(rt: HostRuntime) -> ExitCode {
    let exit = run_supd(
        rt.alloc(),
        Supd {
            images: SystemImages { rt: &rt },
        },
        env::args(&rt),
        SystemRoom { alloc: rt.alloc() },
        SystemBeside { rt: &rt },
        rt.stdin(),
        rt.stdout(),
        &mut rt.stderr(),
    );
    exit.code
}
