//! Files that are whole, and what their records say.

use crate::given::{FILE, FIRST, SECOND, THIRD, expect_damage, expect_image, joined};
use sup_journal::is_one_line;

#[test]
fn a_file_of_one_line_is_its_image(rt: HostRuntime) {
    expect_image(&rt, b"", b"");
    expect_image(&rt, b"\n", b"");
    expect_image(&rt, FIRST, FIRST);
    expect_image(&rt, &joined(&rt, FIRST, b"\n"), FIRST);
    assert!(rt; is_one_line(FIRST));
    assert!(rt; !is_one_line(b"\n"));
}

#[test]
fn records_are_read_in_their_order(rt: HostRuntime) {
    expect_image(&rt, FILE, THIRD);
    // Empty lines say nothing.
    expect_image(&rt, &joined(&rt, FILE, b"\n\n"), THIRD);
}

#[test]
fn a_record_says_what_stays_goes_and_comes(rt: HostRuntime) {
    let records: [(&[u8], &[u8]); 5] = [
        (
            b"\n08795922819861899588000000000000000300000003ONE000000010000000000000004and 000000030000000600000000\n",
            b"ONE and two",
        ),
        (b"\n14695981039346656037\n", b"one two three"),
        // More stays and goes than there is, and what comes stands behind all.
        (
            b"\n04603477940897051170999999999999999900000005 four\n",
            b"one two three four",
        ),
        // Fewer bytes come than are told.
        (
            b"\n03748149295751500898000000030000000400000099 is \n",
            b"one is  three",
        ),
        // What is too short for an edit says nothing.
        (
            b"\n045061128548846869250000000300000010000000000000000100000001000000\n",
            b"one",
        ),
    ];
    for (record, wanted) in records {
        expect_image(&rt, &joined(&rt, FIRST, record), wanted);
    }
}

#[test]
fn reading_ends_at_a_line_that_is_no_record(rt: HostRuntime) {
    let front = &FILE[..62];
    let others: [&[u8]; 5] = [
        b"no record\n",
        b"14464443760821200411\n",
        b"1446444376082120041100000008000000050000000\n",
        // Its checksum is another's, and one digit of it is none.
        b"14464443760821200411000000080000000500000005three\n",
        b"1446444376082 200411000000080000000500000005THREE\n",
    ];
    for line in others {
        let file = joined(&rt, front, line);
        expect_image(&rt, &file, SECOND);
        // A record behind it is damage, whatever stands between.
        expect_damage(&rt, &joined(&rt, &file, &FILE[62..]), 3);
        expect_damage(
            &rt,
            &joined(
                &rt,
                &file,
                b"nor this\n\n12294278288486070909000000040000000300000003TWO\n",
            ),
            3,
        );
        // A record that no line feed ends is none.
        expect_image(&rt, &joined(&rt, &file, &FILE[62..112]), SECOND);
    }
}

#[test]
fn a_record_of_another_image_is_read_as_it_stands(rt: HostRuntime) {
    let file = joined(&rt, b"three two one", &FILE[13..62]);
    expect_image(&rt, &file, b"threTWOwo one");
}
