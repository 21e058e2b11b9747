//! A file that was cut, or of which a byte was changed.

use crate::given::{
    FILE, FIRST, FIRST_RECORD_ENDS, SECOND, THIRD, expect_damage, expect_image, joined, with_byte,
};

// What is read of so many bytes of the file.
fn image_of_front(end: usize) -> &'static [u8] {
    if end < FIRST.len() {
        &FIRST[..end]
    } else if end < FIRST_RECORD_ENDS {
        FIRST
    } else if end < FILE.len() {
        SECOND
    } else {
        THIRD
    }
}

#[test]
fn a_file_that_is_cut_has_the_image_of_its_whole_records(rt: HostRuntime) {
    for end in 0..FILE.len() {
        expect_image(&rt, &FILE[..end], image_of_front(end));
    }
}

#[test]
fn zeros_in_place_of_what_was_cut_say_nothing(rt: HostRuntime) {
    let zeros = [0u8; 64];
    for end in FIRST.len() + 1..FILE.len() {
        expect_image(&rt, &joined(&rt, &FILE[..end], &zeros), image_of_front(end));
    }
}

#[test]
fn a_byte_changed_in_the_last_record_undoes_that_record(rt: HostRuntime) {
    for place in FIRST_RECORD_ENDS..FILE.len() {
        for bit in [1, 16, 128] {
            expect_image(&rt, &with_byte(&rt, FILE, place, FILE[place] ^ bit), SECOND);
        }
    }
}

#[test]
fn a_byte_changed_in_an_earlier_record_is_damage(rt: HostRuntime) {
    for place in FIRST.len() + 1..FIRST_RECORD_ENDS {
        for bit in [1, 16, 128] {
            expect_damage(&rt, &with_byte(&rt, FILE, place, FILE[place] ^ bit), 2);
        }
    }
}
