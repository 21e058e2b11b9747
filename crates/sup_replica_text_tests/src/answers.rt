//! Lines of answers.
use crate::values::{
    begins, dot, dots, ends, expect_line, expect_lines, letter, name, no_effects, one_effect,
    two_effects,
};
use sup_replica::{Done, LetterKind, Refusal, Reply};
use sup_text::{refusal_text, settled_text};

#[test]
fn a_reply_tells_its_dots(rt: HostRuntime) {
    expect_line(&rt, Reply::Added(dot(&rt, "a", 2)), "ok (a,2)\n");
    let removed = dots(&rt, dot(&rt, "a", 2), dot(&rt, "c", 2));
    let replaced = Reply::Replaced(dot(&rt, "a", 3), removed);
    expect_line(&rt, replaced, "ok (a,3) removed (a,2) (c,2)\n");
    let removed = dots(&rt, dot(&rt, "a", 2), dot(&rt, "a", 3));
    expect_line(&rt, Reply::Removed(removed), "ok removed (a,2) (a,3)\n");
    expect_line(
        &rt,
        Reply::Finished(dot(&rt, "a", 2)),
        "ok finished (a,2)\n",
    );
    let removed = dots(&rt, dot(&rt, "a", 1), dot(&rt, "a", 4));
    expect_line(
        &rt,
        Reply::GaveUp(removed),
        "ok gave up removed (a,1) (a,4)\n",
    );
}

#[test]
fn a_reply_without_dots_is_its_word(rt: HostRuntime) {
    expect_line(&rt, Reply::Restarted, "ok restarted\n");
    expect_line(&rt, Reply::Sent, "ok sent\n");
    expect_line(&rt, Reply::Absorbed, "ok absorbed\n");
    expect_line(&rt, Reply::Known, "ok known\n");
    expect_line(&rt, Reply::Acked, "ok acked\n");
    expect_line(&rt, Reply::Stopped, "ok stopped\n");
    expect_line(&rt, Reply::Boot(2), "ok boot 2\n");
}

#[test]
fn effects_stand_below_the_reply(rt: HostRuntime) {
    let removed = dots(&rt, dot(&rt, "a", 2), dot(&rt, "c", 2));
    let done = Done {
        reply: Reply::Replaced(dot(&rt, "a", 3), removed),
        effects: two_effects(&rt, ends(&rt, "web", 1, 1), begins(&rt, "web", 1, 2)),
        out: None,
    };
    let lines = "ok (a,3) removed (a,2) (c,2)\n  a stop web 1.1\n  a start web 1.2\n";
    expect_lines(&rt, "a", done, None, lines);
}

#[test]
fn a_letter_stands_below_the_effects(rt: HostRuntime) {
    let done = Done {
        reply: Reply::Absorbed,
        effects: one_effect(&rt, begins(&rt, "web", 1, 1)),
        out: letter(&rt, "b", LetterKind::Ack(3)),
    };
    let lines = "ok absorbed\n  a start web 1.1\n  sent a 2 to b ack 3\n";
    expect_lines(&rt, "a", done, Some(2), lines);
}

#[test]
fn a_letter_tells_its_kind(rt: HostRuntime) {
    let cases = [
        (
            LetterKind::Part(2),
            "ok sent\n  sent a 1 to b delta 2 part\n",
        ),
        (
            LetterKind::Whole(3),
            "ok sent\n  sent a 1 to b delta 3 whole\n",
        ),
        (LetterKind::Push, "ok sent\n  sent a 1 to b push\n"),
    ];
    for (kind, lines) in cases {
        let done = Done {
            reply: Reply::Sent,
            effects: no_effects(&rt),
            out: letter(&rt, "b", kind),
        };
        expect_lines(&rt, "a", done, Some(1), lines);
    }
}

#[test]
fn a_refusal_is_its_number_and_name(rt: HostRuntime) {
    let cases = [
        (Refusal::Down, "refused 1 Down\n"),
        (Refusal::AlreadyUp, "refused 2 AlreadyUp\n"),
        (Refusal::UnknownNode, "refused 3 UnknownNode\n"),
        (Refusal::AlreadyPresent, "refused 4 AlreadyPresent\n"),
        (Refusal::NotFound, "refused 5 NotFound\n"),
        (Refusal::AlreadyMember, "refused 6 AlreadyMember\n"),
        (Refusal::NotMember, "refused 7 NotMember\n"),
        (Refusal::NameTaken, "refused 8 NameTaken\n"),
        (Refusal::NoSuchChild, "refused 9 NoSuchChild\n"),
        (Refusal::NameUnknown, "refused 10 NameUnknown\n"),
        (Refusal::DotsSpent, "refused 11 DotsSpent\n"),
        (Refusal::UpToDate, "refused 12 UpToDate\n"),
        (Refusal::NoSuchMessage, "refused 13 NoSuchMessage\n"),
        (Refusal::StaleExit, "refused 14 StaleExit\n"),
        (Refusal::TableFull, "refused 15 TableFull\n"),
        (Refusal::KeepFailed, "refused 16 KeepFailed\n"),
        (Refusal::BadMessage, "refused 17 BadMessage\n"),
        (Refusal::WrongReceiver, "refused 18 WrongReceiver\n"),
        (Refusal::OutOfMemory, "refused 19 OutOfMemory\n"),
        (Refusal::HistoryFull, "refused 20 HistoryFull\n"),
        (Refusal::CountSpent, "refused 21 CountSpent\n"),
        (Refusal::NothingToPush, "refused 22 NothingToPush\n"),
        (Refusal::AlreadyDraining, "refused 23 AlreadyDraining\n"),
    ];
    for (refusal, line) in cases {
        let text = refusal_text(rt.alloc(), refusal).expect(&rt, "room");
        assert_eq!(rt; text.as_str(), line, "a refusal");
    }
}

#[test]
fn settling_tells_effects_of_several_nodes(rt: HostRuntime) {
    let effects = [
        (name(&rt, "a"), begins(&rt, "web", 1, 1)),
        (name(&rt, "b"), ends(&rt, "web", 2, 3)),
    ];
    let text = settled_text(rt.alloc(), 6, &effects).expect(&rt, "room");
    let lines = "ok settled 6\n  a start web 1.1\n  b stop web 2.3\n";
    assert_eq!(rt; text.as_str(), lines, "a settling");
    let text = settled_text(rt.alloc(), 0, &[]).expect(&rt, "room");
    assert_eq!(rt;
        text.as_str(),
        "ok settled 0\n",
        "a settling without effects"
    );
}
