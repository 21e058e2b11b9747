//! The first line that stands in no history.
use crate::shapes::shape;
use std::alloc::AllocGlobal;
use std::process::Abort;
use std::test::Fail;
use sup_history_text::HistoryFault;

fn expect_bad(rt: &(impl Abort + AllocGlobal), text: &[u8], number: u64) {
    match shape(rt, text) {
        Ok(found) => panic!(rt; "{found} of {text:?}"),
        Err(fault) => assert_eq!(rt; fault, HistoryFault::BadLine(number), "of {text:?}"),
    }
}

#[test]
fn nothing_that_was_written_whole_is_an_empty_history(rt: HostRuntime) {
    for text in [
        "",
        "\n",
        "\n\n\n",
        "begin a sha256 1 5 64 0",
        "\nbegin a",
        "nonsense",
    ] {
        match shape(&rt, text.as_bytes()) {
            Ok(found) => panic!(rt; "{found} of {text}"),
            Err(fault) => assert_eq!(rt; fault, HistoryFault::Empty, "of {text}"),
        }
    }
}

#[test]
fn a_history_begins_with_a_begin(rt: HostRuntime) {
    expect_bad(&rt, b"<join\n", 1);
    expect_bad(&rt, b">ok boot 1\n>\n", 1);
    expect_bad(&rt, b">\n", 1);
    expect_bad(&rt, b"\n\n<join\n\nbegin a\n", 3);
    expect_bad(&rt, b"begin\n", 1);
    expect_bad(&rt, b"{\"kind\":\"image\"}\n", 1);
}

#[test]
fn nothing_is_heard_before_an_answer_has_ended(rt: HostRuntime) {
    expect_bad(&rt, b"\nbegin a\n<join\n", 3);
    expect_bad(&rt, b"\nbegin a\n>ok boot 1\n<join\n", 4);
    expect_bad(&rt, b"\nbegin a\n>ok\n>\n<x\n<y\n>ok\n>\n", 6);
    expect_bad(&rt, b"\nbegin a\n>ok\n>\n<x\n>ok\n<y\n", 7);
}

#[test]
fn nothing_is_told_behind_an_answers_end(rt: HostRuntime) {
    expect_bad(&rt, b"\nbegin a\n>ok\n>\n>ok\n", 5);
    expect_bad(&rt, b"\nbegin a\n>ok\n>\n>\n", 5);
    expect_bad(&rt, b"\nbegin a\n>ok\n>\n<x\n>ok\n>\n>ok\n>\n", 8);
}

#[test]
fn two_neighbours_that_are_swapped_are_told_by_the_first(rt: HostRuntime) {
    // Of `begin`, `>ok`, `>`, `<x`, `>ok`, `>`, from line 2 on.
    expect_bad(&rt, b"\n>ok\nbegin a\n>\n<x\n>ok\n>\n>\n", 8);
    expect_bad(&rt, b"\nbegin a\n>\n>ok\n<x\n>ok\n>\n", 4);
    expect_bad(&rt, b"\nbegin a\n>ok\n<x\n>\n>ok\n>\n", 4);
    expect_bad(&rt, b"\nbegin a\n>ok\n>\n>ok\n<x\n>\n", 5);
    expect_bad(&rt, b"\nbegin a\n>ok\n>\n<x\n>\n>ok\n", 7);
}

#[test]
fn a_line_of_no_kind_stands_nowhere(rt: HostRuntime) {
    expect_bad(&rt, b"\nbegin a\n>ok\n>\nnonsense\n", 5);
    expect_bad(&rt, b"\nbegin a\n>ok\nok\n>\n", 4);
    expect_bad(&rt, b"\nbegin a\n \n>ok\n", 3);
    expect_bad(&rt, b"\nbegin a\n>ok\n>\n\xff\xfe\0\n<x\n", 5);
    // Cut in the midst of its lines, from the front.
    expect_bad(&rt, b"egin a sha256 1 5 64 0\n>ok boot 1\n>\n", 1);
}

#[test]
fn lines_with_carriage_returns_end_no_answer(rt: HostRuntime) {
    expect_bad(&rt, b"\r\nbegin a\r\n>ok\r\n>\r\n<x\r\n", 5);
    expect_bad(&rt, b"\nbegin a\r\n>ok\r\n>\r\n<x\r\n", 5);
}

#[test]
fn faults_are_told_in_words(rt: HostRuntime) -> Result<(), Fail> {
    for (fault, words) in [
        (HistoryFault::Empty, "empty history"),
        (HistoryFault::BadLine(7), "bad history line 7"),
        (HistoryFault::OutOfMemory, "out of memory"),
    ] {
        let text = fault.to_string(rt.alloc())?;
        assert_eq!(rt; text.as_str(), words);
    }
    Ok(())
}
