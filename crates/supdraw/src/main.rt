//! The program `supdraw`: the picture of a script on standard input, as SVG.
#![tactic(auto)]

mod supdraw;

use std::env;
use std::process::ExitCode;
use sup_about::{SystemBeside, SystemRoom, run_asking};
use supdraw::Supdraw;

fn main(rt: HostRuntime) -> ExitCode {
    let exit = run_asking(
        rt.alloc(),
        Supdraw,
        env::args(&rt),
        SystemRoom { alloc: rt.alloc() },
        SystemBeside { rt: &rt },
        rt.stdin(),
        rt.stdout(),
        &mut rt.stderr(),
    );
    exit.code
}
