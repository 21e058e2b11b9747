//! Histories as they are written, and as they are left behind.
use crate::shapes::shape;
use std::alloc::AllocGlobal;
use std::process::Abort;
use sup_history_text::HistoryFault;

// Three acts, a kill in the fourth, and the next boot; by hand, as the page of histories has it.
const KILLED: &str = "
begin a sha256 1 5 64 0
>ok boot 1
>
<join
>ok (a,1)
>
<start web
>ok (a,2)
>  start web 1.1 worker permanent 5000 arg=
>
<ship b
>ok sent
>  send b {\"kind\":\"delta\"}
>
<delete web

begin a sha256 1 5 64 3
>ok boot 2
>
";

const KILLED_SHAPE: &str = "[2,3. 5,6. 8,9,10. 12,13,14. 16?][18,19.]";

fn expect_shape(rt: &(impl Abort + AllocGlobal), text: &str, wanted: &str) {
    match shape(rt, text.as_bytes()) {
        Ok(found) => assert_eq!(rt; found.as_str(), wanted, "of {text}"),
        Err(fault) => panic!(rt; "{fault} of {text}"),
    }
}

#[test]
fn a_kill_in_an_act_leaves_a_line_without_its_answer(rt: HostRuntime) {
    expect_shape(&rt, KILLED, KILLED_SHAPE);
}

#[test]
fn a_begin_may_go_unanswered_and_another_one_follow(rt: HostRuntime) {
    expect_shape(&rt, "\nbegin a\n\nbegin a\n>ok boot 2\n>\n", "[2?][4,5.]");
    expect_shape(&rt, "\nbegin a\n", "[2?]");
    // A begin of which only the line feed was written, and one of which a part was.
    expect_shape(&rt, "\nbegin a\n>ok boot 1\n>\n\n\nbegin a\n", "[2,3.][7?]");
    expect_shape(
        &rt,
        "\nbegin a\n>ok boot 1\n>\n\nbegin a s\nbegin a\n",
        "[2,3.][7?]",
    );
}

#[test]
fn an_answer_may_be_cut_at_each_of_its_lines(rt: HostRuntime) {
    expect_shape(
        &rt,
        "\nbegin a\n>ok boot 2\n\nbegin a\n>ok boot 3\n>\n",
        "[2,3?][5,6.]",
    );
    expect_shape(
        &rt,
        "\nbegin a\n>ok\n>\n<x\n>ok\n\nbegin a\n",
        "[2,3. 5,6?][8?]",
    );
    // An answer of no lines, and none at all.
    expect_shape(&rt, "\nbegin a\n>\n<x\n>\n<y\n", "[2. 4. 6?]");
}

#[test]
fn a_line_that_was_being_written_is_no_part_of_a_history(rt: HostRuntime) {
    expect_shape(
        &rt,
        "\nbegin a\n>ok\n>\n<del\nbegin a\n>ok\n>\n",
        "[2,3.][6,7.]",
    );
    expect_shape(&rt, "\nbegin a\n>ok\n>\n<del", "[2,3.]");
    // It may be anything.
    expect_shape(&rt, "\nbegin a\n>ok\n>\nnonsense\nbegin a\n", "[2,3.][6?]");
}

#[test]
fn words_behind_a_lines_mark_are_not_looked_at(rt: HostRuntime) {
    expect_shape(
        &rt,
        "\nbegin \n>begin\n><\n>>\n>\n<begin a\n><\n>\n",
        "[2,3,4,5. 7,8.]",
    );
}

// What `KILLED` is read as once each line more was written whole.
const GROWING: [&str; 18] = [
    "[2?]",
    "[2,3?]",
    "[2,3.]",
    "[2,3. 5?]",
    "[2,3. 5,6?]",
    "[2,3. 5,6.]",
    "[2,3. 5,6. 8?]",
    "[2,3. 5,6. 8,9?]",
    "[2,3. 5,6. 8,9,10?]",
    "[2,3. 5,6. 8,9,10.]",
    "[2,3. 5,6. 8,9,10. 12?]",
    "[2,3. 5,6. 8,9,10. 12,13?]",
    "[2,3. 5,6. 8,9,10. 12,13,14?]",
    "[2,3. 5,6. 8,9,10. 12,13,14.]",
    "[2,3. 5,6. 8,9,10. 12,13,14. 16?]",
    "[2,3. 5,6. 8,9,10. 12,13,14. 16?][18?]",
    "[2,3. 5,6. 8,9,10. 12,13,14. 16?][18,19?]",
    "[2,3. 5,6. 8,9,10. 12,13,14. 16?][18,19.]",
];

#[test]
fn a_history_cut_at_any_byte_has_what_was_written_whole(rt: HostRuntime) {
    let bytes = KILLED.as_bytes();
    let mut lines: usize = 0;
    for count in 0..=bytes.len() {
        let is_line = count > 1 && bytes[count - 1] == b'\n' && bytes[count - 2] != b'\n';
        if is_line {
            lines = lines.saturating_add(1);
        }
        let wanted = GROWING.get(lines.wrapping_sub(1));
        match shape(&rt, &bytes[..count]) {
            Ok(found) => {
                assert_eq!(rt; Some(found.as_str()), wanted.copied(), "at {count}");
            }
            Err(fault) => {
                assert_eq!(rt; fault, HistoryFault::Empty, "at {count}");
                assert_eq!(rt; wanted, None, "at {count}");
            }
        }
    }
    assert_eq!(rt; lines, GROWING.len());
}

#[test]
fn many_sessions_are_read(rt: HostRuntime) {
    let mut text = String::new(rt.alloc());
    for _ in 0..1000 {
        assert!(rt; text.push_str("\nbegin a\n>ok\n>\n<x\n>ok\n>\n").is_ok());
    }
    match shape(&rt, text.as_bytes()) {
        Ok(found) => {
            assert!(rt; found.starts_with("[2,3. 5,6.][9,10. 12,13.]"));
            assert!(rt; found.ends_with("[6995,6996. 6998,6999.]"));
        }
        Err(fault) => panic!(rt; "{fault}"),
    }
}
