//! Lines of no form.
use std::alloc::Global;
use std::process::Abort;
use std::test::Fail;
use sup_lines::{ScriptFault, read_script};

const OF_NO_FORM: &[&str] = &[
    " ",
    "jump a",
    "Join a",
    "nodes b",
    "Inspect a",
    "images a",
    "messages a 1",
    "Drain a b",
    "link a b pass",
    "show \u{e9}",
    "show a\r",
    "show\ta",
    "show  a",
    " show a",
    "show a ",
];

const COMMANDS: &[&str] = &[
    "join",
    "join A",
    "join a b",
    "join a label",
    "join a label=x label=y",
    "leave a",
    "leave a B",
    "leave a b c",
    "drain a",
    "drain a B",
    "drain a b c",
    "start a",
    "start a x y",
    "start a x kind=",
    "start a x kind=k kind=z",
    "start a x arg=1 kind=k",
    "start a x restart=never",
    "start a x shutdown=",
    "start a x shutdown=05",
    "start a x shutdown=4294967296",
    "start a x @5 kind=k",
    "replace a",
    "replace a x arg=1 arg=2",
    "delete a",
    "delete a x y",
    "register a www",
    "register a www x y",
    "unregister a",
    "unregister a www x",
];

const EVENTS: &[&str] = &[
    "exit a x 1.1",
    "exit a x 1 crash",
    "exit a x 1. crash",
    "exit a x .1 crash",
    "exit a x 1.1.1 crash",
    "exit a x 01.1 crash",
    "exit a x 1.01 crash",
    "exit a x 9007199254740992.1 crash",
    "exit a x 1.9007199254740992 crash",
    "exit a x 1.1 shutdown:",
    "exit a x 1.1 Crash",
    "exit a x 1.1 crash now",
    "ship a",
    "ship a B",
    "ship a b c",
    "push a",
    "push a b c",
    "deliver a",
    "deliver a x",
    "deliver a 01",
    "deliver a 9007199254740992",
    "deliver a 1 at",
    "deliver a 1 at B",
    "deliver a 1 at b at b",
    "deliver a 1 drop",
    "deliver a 1 drop 01",
    "deliver a 1 drop 2 at b",
    "deliver a 1 at b drop",
    "deliver a 1 @5 at b",
    "stop",
    "stop a b",
    "restart",
    "restart a b",
];

const ENDINGS: &[&str] = &[
    "join a @",
    "join a @05",
    "join a @-1",
    "join a @9007199254740992",
    "join a @5 @6",
    "join a !fail @5",
    "join a !fail !fail",
    "join a !failed",
    "stop a @5 !fail now",
    "raw a",
    "raw a ",
    "raw A x",
    "raw a x y",
    "raw a x @5",
    "raw a x !fail",
    "settle a",
    "settle ",
    "settle @5",
    "settle !fail",
    "show",
    "show a b",
    "show a @5",
    "show a !fail",
    "where a",
    "where a www x",
    "where a www @5",
    "where a www !fail",
    "inspect",
    "inspect A",
    "inspect a b",
    "inspect a @5",
    "inspect a !fail",
    "image",
    "image A",
    "image a b",
    "image a @5",
    "image a !fail",
    "message a",
    "message A 1",
    "message a x",
    "message a 01",
    "message a 9007199254740992",
    "message a 1 b",
    "message a 1 @5",
    "message a 1 !fail",
];

fn check_bad(rt: &impl Abort, alloc: Global, lines: &[&str]) -> Result<(), Fail> {
    for line in lines {
        let text = format!(in alloc; "nodes a b\n{line}\nshow a\n")?;
        let fault = read_script(alloc, text.as_bytes()).err();
        assert!(rt; fault == Some(ScriptFault::BadLine(2)), "{line}");
    }
    Ok(())
}

#[test]
fn lines_of_no_form_are_bad(rt: HostRuntime) -> Result<(), Fail> {
    check_bad(&rt, rt.alloc(), OF_NO_FORM)?;
    check_bad(&rt, rt.alloc(), COMMANDS)?;
    check_bad(&rt, rt.alloc(), EVENTS)
}

#[test]
fn endings_out_of_their_place_or_range_are_bad(rt: HostRuntime) -> Result<(), Fail> {
    check_bad(&rt, rt.alloc(), ENDINGS)
}
