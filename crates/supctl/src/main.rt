//! The program `supctl`: scripts over a cluster of supervisor nodes, runs of it by threads, placement, and stored images.
#![tactic(auto)]

mod supctl;

use std::env;
use std::process::ExitCode;
use sup_about::{SystemBeside, SystemRoom, run_asking};
use supctl::Supctl;

fn main(rt: HostRuntime) -> ExitCode {
    let exit = run_asking(
        rt.alloc(),
        Supctl { rt: &rt },
        env::args(&rt),
        SystemRoom { alloc: rt.alloc() },
        SystemBeside { rt: &rt },
        rt.stdin(),
        rt.stdout(),
        &mut rt.stderr(),
    );
    exit.code
}
