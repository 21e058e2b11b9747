//! Whole scripts, and the number of the first bad line.
use std::test::Fail;
use sup_lines::{ScriptFault, read_script};

const GOOD: &[&str] = &[
    "nodes a",
    "nodes a\n",
    "\n# \u{e9}\r\n\nnodes a b\n\nshow a\n#\nsettle",
    "nodes a b c d e f g h i j k l m n o p",
];

const BAD: &[(&str, u64)] = &[
    ("", 0),
    ("\n#x\n\n", 0),
    ("nodes", 1),
    ("nodes a a", 1),
    ("nodes a A", 1),
    ("nodes  a", 1),
    ("nodes a ", 1),
    ("nodes a b c d e f g h i j k l m n o p q", 1),
    ("show a\nnodes a", 1),
    ("nodes a\nnodes b", 2),
    ("nodes a\r\nshow a\r\n", 1),
    ("#\n\nnodes a\n\nshow a\n#\nshow\nshow", 7),
];

#[test]
fn scripts_are_read_to_their_ends(rt: HostRuntime) {
    for text in GOOD {
        let script = read_script(rt.alloc(), text.as_bytes());
        assert!(rt; script.is_ok(), "{text}");
    }
}

#[test]
fn the_first_bad_line_is_told_by_its_number(rt: HostRuntime) {
    for (text, number) in BAD {
        let fault = read_script(rt.alloc(), text.as_bytes()).err();
        assert!(rt; fault == Some(ScriptFault::BadLine(*number)), "{text}");
    }
}

#[test]
fn nodes_and_lines_keep_their_order(rt: HostRuntime) -> Result<(), Fail> {
    let script = read_script(rt.alloc(), b"nodes b a\nshow a\nshow b\nsettle\n")?;
    assert!(rt; script.nodes.len() == 2 && script.lines.len() == 3);
    assert!(rt; script.nodes[0].as_str() == "b" && script.nodes[1].as_str() == "a");
    Ok(())
}
