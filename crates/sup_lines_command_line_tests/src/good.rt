//! Lines of each form, and what they ask for.
use crate::told::told;
use std::alloc::Global;
use std::process::Abort;
use std::test::Fail;
use sup_lines::read_script;

const COMMANDS: &[(&str, &str)] = &[
    ("join a", "a: join [], at 0, saves"),
    ("join a label=", "a: join [], at 0, saves"),
    ("join a label=left @7", "a: join [left], at 7, saves"),
    ("join a label=@5 !fail", "a: join [@5], at 0, fails"),
    ("leave a b", "a: leave b, at 0, saves"),
    ("leave a b @0 !fail", "a: leave b, at 0, fails"),
    ("drain a b", "a: drain b, at 0, saves"),
    ("drain b b @3 !fail", "b: drain b, at 3, fails"),
    ("start a x", "a: start x worker [] always 5000, at 0, saves"),
    (
        "start a x kind=k arg=y restart=transient shutdown=0 @1 !fail",
        "a: start x k [y] unless it went well 0, at 1, fails",
    ),
    (
        "start a x restart=temporary shutdown=brutal_kill",
        "a: start x worker [] never killed, at 0, saves",
    ),
    (
        "start a x arg= shutdown=infinity @2",
        "a: start x worker [] always unhurried, at 2, saves",
    ),
    (
        "start a x shutdown=4294967295 @9007199254740991",
        "a: start x worker [] always 4294967295, at 9007199254740991, saves",
    ),
    (
        "start a kind=k kind=z",
        "a: start kind=k z [] always 5000, at 0, saves",
    ),
    (
        "start a @5",
        "a: start @5 worker [] always 5000, at 0, saves",
    ),
    (
        "start a !fail",
        "a: start !fail worker [] always 5000, at 0, saves",
    ),
    (
        "start a x arg=@5 @6",
        "a: start x worker [@5] always 5000, at 6, saves",
    ),
    (
        "replace a x kind=k restart=permanent !fail",
        "a: replace x k [] always 5000, at 0, fails",
    ),
    ("delete a x @3", "a: delete x, at 3, saves"),
    (
        "register a www x @3 !fail",
        "a: register www for x, at 3, fails",
    ),
    ("unregister a www", "a: unregister www, at 0, saves"),
];

const EVENTS: &[(&str, &str)] = &[
    ("exit a x 1.2 normal", "a: exit x 1 2 done, at 0, saves"),
    (
        "exit a x 1.2 shutdown @5",
        "a: exit x 1 2 told to, at 5, saves",
    ),
    (
        "exit a x 1.2 shutdown:later !fail",
        "a: exit x 1 2 told to [later], at 0, fails",
    ),
    (
        "exit a x 1.2 shutdown:@5",
        "a: exit x 1 2 told to [@5], at 0, saves",
    ),
    (
        "exit a x 10.20 failed",
        "a: exit x 10 20 gave up, at 0, saves",
    ),
    (
        "exit a x 0.0 crash @4 !fail",
        "a: exit x 0 0 broke, at 4, fails",
    ),
    (
        "exit a x 9007199254740991.9007199254740991 crash",
        "a: exit x 9007199254740991 9007199254740991 broke, at 0, saves",
    ),
    ("ship a b @2", "a: ship to b, at 2, saves"),
    ("ship a a", "a: ship to a, at 0, saves"),
    ("push a b !fail", "a: push to b, at 0, fails"),
    ("deliver a 1", "a 1 to its receiver less 0, at 0, saves"),
    (
        "deliver a 0 drop 0",
        "a 0 to its receiver less 0, at 0, saves",
    ),
    (
        "deliver a 1 at c drop 2 @5 !fail",
        "a 1 to c less 2, at 5, fails",
    ),
    ("deliver a 1 at drop", "a 1 to drop less 0, at 0, saves"),
    (
        "deliver a 9007199254740991 drop 9007199254740991 !fail",
        "a 9007199254740991 to its receiver less 9007199254740991, at 0, fails",
    ),
    ("stop a", "a: stop, at 0, saves"),
    ("stop a @1 !fail", "a: stop, at 1, fails"),
    ("restart b @1", "b: restart, at 1, saves"),
    ("restart b !fail", "b: restart, at 0, fails"),
];

const OTHERS: &[(&str, &str)] = &[
    ("raw a x", "a: bytes x"),
    ("raw a @5", "a: bytes @5"),
    ("raw z {\"v\":9}", "z: bytes {\"v\":9}"),
    ("settle", "settle"),
    ("show a", "show a"),
    ("inspect a", "inspect a"),
    ("image z", "image of z"),
    ("where a www", "where a www"),
    ("where a @1", "where a @1"),
    ("message a 1", "message 1 of a"),
    ("message z 0", "message 0 of z"),
    (
        "message a 9007199254740991",
        "message 9007199254740991 of a",
    ),
];

fn check_lines(rt: &impl Abort, alloc: Global, cases: &[(&str, &str)]) -> Result<(), Fail> {
    for (line, wanted) in cases {
        let text = format!(in alloc; "nodes a b\n{line}")?;
        let script = read_script(alloc, text.as_bytes())?;
        assert!(rt; script.lines.len() == 1, "{line}");
        let told = told(alloc, &script.lines[0])?;
        assert!(rt; told.as_str() == *wanted, "{line}: {told}");
    }
    Ok(())
}

#[test]
fn commands_are_read_with_their_options_and_endings(rt: HostRuntime) -> Result<(), Fail> {
    check_lines(&rt, rt.alloc(), COMMANDS)
}

#[test]
fn other_steps_are_read_with_their_options_and_endings(rt: HostRuntime) -> Result<(), Fail> {
    check_lines(&rt, rt.alloc(), EVENTS)
}

#[test]
fn lines_without_endings_are_read(rt: HostRuntime) -> Result<(), Fail> {
    check_lines(&rt, rt.alloc(), OTHERS)
}
