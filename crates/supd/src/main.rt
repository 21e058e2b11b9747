//! The program `supd`: one node of a supervisor cluster, which answers the lines of its host and keeps its image in a file.
#![tactic(auto)]

use std::env;
use std::process::ExitCode;
use sup_about::{SystemBeside, SystemRoom};
use sup_supd::{Supd, SystemImages, run_supd};

fn main(rt: HostRuntime) -> ExitCode {
    let exit = run_supd(
        rt.alloc(),
        Supd {
            images: SystemImages { rt: &rt },
        },
        env::args(&rt),
        SystemRoom { alloc: rt.alloc() },
        SystemBeside { rt: &rt },
        rt.stdin(),
        rt.stdout(),
        &mut rt.stderr(),
    );
    exit.code
}
