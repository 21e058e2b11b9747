//! Stories of talks.

use crate::fakes::{Echo, Full, Long, Stutter};
use std::io::BufReader;
use std::process::Abort;
use sup_talk::{LINE_LIMIT, Streams, TalkEnd, TalkFault, talk};

fn talked(
    rt: &(impl Abort + AllocGlobal),
    bytes: Vec<u8>,
    fails: bool,
    room: usize,
) -> (Vec<u8>, Result<TalkEnd, TalkFault>) {
    let reader = Stutter {
        bytes,
        at: 0,
        asked: 0,
        fails,
    };
    let writer = Full {
        bytes: Vec::new(rt.alloc()),
        room,
    };
    let mut echo = Echo {
        alloc: rt.alloc(),
        is_over: false,
    };
    let mut host = Streams::new(reader, writer);
    let end = talk(rt.alloc(), &mut echo, &mut host);
    let said = host.writer().bytes.to_vec(rt.alloc()).expect(rt, "room");
    (said, end)
}

#[test]
fn an_interrupted_reader_is_asked_again_and_a_line_that_nobody_ended_is_passed_over(
    rt: HostRuntime,
) {
    let bytes = b"one\n\ntwo\nthr".to_vec(rt.alloc()).expect(&rt, "room");
    let (text, end) = talked(&rt, bytes, false, 100);
    assert_eq!(rt; text.as_slice(), b"one!!two!".as_slice());
    assert_eq!(rt; end, Ok(TalkEnd::Ended));
}

#[test]
fn a_reader_that_fails_ends_the_talk_behind_the_last_answer(rt: HostRuntime) {
    let bytes = b"one\nt".to_vec(rt.alloc()).expect(&rt, "room");
    let (text, end) = talked(&rt, bytes, true, 100);
    assert_eq!(rt; text.as_slice(), b"one!".as_slice());
    assert_eq!(rt; end, Err(TalkFault::Device));
}

#[test]
fn a_writer_that_fails_has_got_a_front_of_the_answer_and_is_told_nothing_more(rt: HostRuntime) {
    let bytes = b"one\ntwo\nthree\n".to_vec(rt.alloc()).expect(&rt, "room");
    let (text, end) = talked(&rt, bytes, false, 6);
    assert_eq!(rt; text.as_slice(), b"one!tw".as_slice());
    assert_eq!(rt; end, Err(TalkFault::Device));
}

#[test]
fn an_answerer_that_is_over_hears_no_more(rt: HostRuntime) {
    let bytes = b"one\nend\ntwo\n".to_vec(rt.alloc()).expect(&rt, "room");
    let (text, end) = talked(&rt, bytes, false, 100);
    assert_eq!(rt; text.as_slice(), b"one!end!".as_slice());
    assert_eq!(rt; end, Ok(TalkEnd::Over));
}

#[test]
fn a_line_of_the_limit_is_one_and_a_longer_one_is_told_as_too_long(rt: HostRuntime) {
    for (length, said) in [
        (LINE_LIMIT, b"much!much!".as_slice()),
        (LINE_LIMIT.saturating_add(1), b"long!long!".as_slice()),
    ] {
        let long = Long {
            length,
            lines: 2,
            at: 0,
        };
        let reader = BufReader::new(rt.alloc(), long).expect(&rt, "room");
        let mut host = Streams::new(reader, Vec::new(rt.alloc()));
        let mut echo = Echo {
            alloc: rt.alloc(),
            is_over: false,
        };
        assert_eq!(rt; talk(rt.alloc(), &mut echo, &mut host), Ok(TalkEnd::Ended));
        assert_eq!(rt; host.writer().as_slice(), said);
    }
}
