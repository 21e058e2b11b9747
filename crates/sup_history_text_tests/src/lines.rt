//! Kinds of lines, and which lines were written whole.
use std::alloc::{AllocError, AllocGlobal};
use std::process::Abort;
use std::test::Fail;
use sup_history_text::{LineKind, kind_of, whole_lines};

#[test]
fn a_line_is_told_by_what_it_begins_with(rt: HostRuntime) {
    for (line, kind) in [
        ("begin a sha256 1 5 64 0", LineKind::Begin),
        ("begin ", LineKind::Begin),
        ("begin", LineKind::Other),
        ("begins a", LineKind::Other),
        ("Begin a", LineKind::Other),
        (" begin a", LineKind::Other),
        ("<join", LineKind::Heard),
        ("<", LineKind::Heard),
        ("<<", LineKind::Heard),
        ("<begin a", LineKind::Heard),
        (">", LineKind::End),
        (">ok", LineKind::Told),
        (">>", LineKind::Told),
        ("> ", LineKind::Told),
        (">  start web 1.1", LineKind::Told),
        ("", LineKind::Other),
        (" >", LineKind::Other),
        ("ok", LineKind::Other),
    ] {
        assert_eq!(rt; kind_of(line.as_bytes()), kind, "at {line}");
    }
}

// The numbers and texts of the lines that were written whole, each as `N:TEXT|`.
fn whole(rt: &impl AllocGlobal, text: &[u8]) -> Result<Vec<u8>, AllocError> {
    let mut all = Vec::new(rt.alloc());
    let lines = whole_lines(rt.alloc(), text)?;
    for line in &lines {
        let number = line.number;
        let front = format!(in rt.alloc(); "{number}:")?;
        all.extend_from_slice(front.as_bytes())?;
        all.extend_from_slice(line.bytes)?;
        all.push(b'|')?;
    }
    Ok(all)
}

fn expect_whole(rt: &(impl Abort + AllocGlobal), text: &[u8], wanted: &[u8]) -> Result<(), Fail> {
    let lines = whole(rt, text)?;
    assert_eq!(rt; lines.as_slice(), wanted, "of {text:?}");
    Ok(())
}

#[test]
fn a_line_is_whole_once_its_line_feed_is_there(rt: HostRuntime) -> Result<(), Fail> {
    expect_whole(&rt, b"", b"")?;
    expect_whole(&rt, b"\n", b"")?;
    expect_whole(&rt, b"\n\n\n", b"")?;
    expect_whole(&rt, b"<join", b"")?;
    expect_whole(&rt, b"<join\n", b"1:<join|")?;
    expect_whole(&rt, b"<join\n>o", b"1:<join|")?;
    expect_whole(&rt, b"<join\n>ok\n", b"1:<join|2:>ok|")
}

#[test]
fn empty_lines_are_left_out_and_counted(rt: HostRuntime) -> Result<(), Fail> {
    expect_whole(&rt, b"\nbegin a\n\n\n>ok\n\n", b"2:begin a|5:>ok|")
}

#[test]
fn a_line_before_a_begin_was_being_written(rt: HostRuntime) -> Result<(), Fail> {
    expect_whole(&rt, b"<del\nbegin a\n", b"2:begin a|")?;
    expect_whole(&rt, b">o\nbegin a\n", b"2:begin a|")?;
    expect_whole(&rt, b"\nbegin a sh\nbegin a\n", b"3:begin a|")?;
    expect_whole(&rt, b"<join\nbegi\nbegin a\n", b"1:<join|3:begin a|")?;
    // What may yet become a begin is none.
    expect_whole(&rt, b"<join\nbegin ", b"")?;
    expect_whole(&rt, b"<join\nbegin", b"1:<join|")
}

#[test]
fn any_bytes_are_lines(rt: HostRuntime) -> Result<(), Fail> {
    expect_whole(&rt, b"\xff\xfe\n\0\n<\r\n", b"1:\xff\xfe|2:\0|3:<\r|")
}

#[test]
fn a_line_may_be_of_any_length(rt: HostRuntime) -> Result<(), Fail> {
    let mut text = vec![in rt.alloc(); b'<'; 1_000_000]?;
    text.push(b'\n')?;
    let lines = whole_lines(rt.alloc(), text.as_slice())?;
    assert_eq!(rt; lines.len(), 1);
    assert!(rt; lines[0].bytes.len() == 1_000_000);
    Ok(())
}
