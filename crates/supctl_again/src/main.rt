//! The program `supctl` once more, over a second stored run: a script with a bad line, which ends with status 1.
#![tactic(auto)]

use std::env;
use std::process::ExitCode;
use sup_supctl::run_started;

fn main(rt: HostRuntime) -> ExitCode {
    let (code, _told) = run_started(
        &rt,
        rt.alloc(),
        env::args(&rt),
        &mut rt.stdin(),
        &mut rt.stdout(),
        &mut rt.stderr(),
    );
    code
}
