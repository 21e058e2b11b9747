//! Stories of a node, from what is kept and the lines of its host to its status.

use crate::later_disk::LaterDisk;
use crate::noting::{Note, Noting};
use std::process::Abort;
use sup_command_line::Weighing;
use sup_disk::{Disk, DiskKeeper, ImageKeeper, MemDisk, Next};
use sup_jobs::{Ended, Questions};
use sup_replica::Config;
use sup_specs::NodeName;
use sup_supd::{Left, run_filed};
use sup_talk::Streams;

// A node `a` over a disk with this file, whose saves go so: expects what it tells, its status and
// its line of error. What the run leaves.
fn expect(
    rt: &(impl Abort + AllocGlobal),
    file: Option<&[u8]>,
    next: Next,
    lines: &[u8],
    said: &[u8],
    status: u8,
    line: &[u8],
) -> Left<DiskKeeper<MemDisk>> {
    let alloc = rt.alloc();
    let shown = match file {
        Some(bytes) => Some(bytes.to_vec(alloc).expect(rt, "room")),
        None => None,
    };
    let disk = MemDisk {
        alloc,
        shown,
        safe: None,
        beside: None,
        is_flushed: false,
        next,
    };
    expect_on(rt, disk, lines, said, status, line)
}

// The same over any disk.
fn expect_on<D: Disk>(
    rt: &(impl Abort + AllocGlobal),
    disk: D,
    lines: &[u8],
    said: &[u8],
    status: u8,
    line: &[u8],
) -> Left<DiskKeeper<D>> {
    let alloc = rt.alloc();
    let Ok(keeper) = DiskKeeper::open(alloc, disk) else {
        panic!(rt; "it doesn't open")
    };
    let name = NodeName::parse("a").expect(rt, "a name");
    let config = Config::new(1, 5, 64).expect(rt, "settings");
    let mut host = Streams::new(lines, Vec::new(alloc));
    let mut told = Vec::new(alloc);
    let (ended, left) = run_filed(
        alloc,
        name,
        config,
        Weighing::Flat,
        keeper,
        &mut host,
        &mut told,
    );
    assert!(rt;
        ended
            == Ended {
                status,
                told: Ok(())
            }
    );
    assert_eq!(rt; host.writer().as_slice(), said);
    assert_eq!(rt; told.as_slice(), line);
    left
}

const IMAGE: &[u8] = b"\
    {\"boot\":1,\"count\":1,\"ctx\":{\"cloud\":[],\"vector\":{\"a\":1}},\"kind\":\"image\",\
    \"node\":\"a\",\"rows\":[[\"member\",\"a\",[\"a\",1],{\"label\":\"\",\"status\":\"open\"}]],\
    \"v\":2}";

#[test]
fn a_new_node_tells_its_boot_and_answers_line_by_line(rt: HostRuntime) {
    expect(
        &rt,
        None,
        Next::Holds,
        b"join\nstart web arg=x\nmembers\nwhere www\nbad\nexit web 1.1 crash @1\nstart cut",
        b"\
ok boot 1

ok (a,1)

ok (a,2)
  start web 1.1 worker permanent 5000 arg=x

member a (a,1) label=

www unknown

bad line

ok restarted
  start web 1.2 worker permanent 5000 arg=x

",
        0,
        b"",
    );
}

#[test]
fn a_node_goes_on_from_its_image(rt: HostRuntime) {
    expect(
        &rt,
        Some(IMAGE),
        Next::Holds,
        b"start web\nshow\n",
        b"\
ok boot 2

ok (a,2)
  start web 2.1 worker permanent 5000 arg=

node a boot 2
member a (a,1) label=
child web (a,2) worker permanent 5000 arg= on a
kept web 2.1

",
        0,
        b"",
    );
}

#[test]
fn a_peer_that_acknowledged_is_told_of_also_where_it_is_no_member(rt: HostRuntime) {
    expect(
        &rt,
        None,
        Next::Holds,
        b"\
join
deliver {\"from\":\"z\",\"kind\":\"ack\",\"n\":1,\"to\":\"a\",\"v\":2}
deliver {\"from\":\"b\",\"kind\":\"ack\",\"n\":1,\"to\":\"a\",\"v\":2}
deliver {\"from\":\"z\",\"kind\":\"ack\",\"n\":1,\"to\":\"a\",\"v\":2}
deliver {\"from\":\"c\",\"kind\":\"ack\",\"n\":9,\"to\":\"a\",\"v\":2}
inspect
",
        b"\
ok boot 1

ok (a,1)

ok acked

ok acked

ok acked

refused 17 BadMessage

node a boot 1
member a (a,1) label=
count 1
buffer 1
vector a 1
acked b 1
acked z 1

",
        0,
        b"",
    );
}

#[test]
fn an_image_is_shown_as_it_is_kept(rt: HostRuntime) {
    let left = expect(
        &rt,
        None,
        Next::Holds,
        b"image\n",
        b"\
ok boot 1

{\"boot\":1,\"count\":0,\"ctx\":{\"cloud\":[],\"vector\":{}},\"kind\":\"image\",\"node\":\"a\",\
\"rows\":[],\"v\":2}

",
        0,
        b"",
    );
    assert_eq!(rt;
        left.keeper().stored(),
        b"{\"boot\":1,\"count\":0,\"ctx\":{\"cloud\":[],\"vector\":{}},\"kind\":\"image\",\"node\":\"a\",\
        \"rows\":[],\"v\":2}"
            .as_slice()
    );
}

// What a host notes that says these lines to a new node over this disk.
fn noted<'a, D: Disk>(rt: &(impl Abort + AllocGlobal), disk: D, lines: &'a [u8]) -> Noting<'a> {
    let alloc = rt.alloc();
    let Ok(keeper) = DiskKeeper::open(alloc, disk) else {
        panic!(rt; "it doesn't open")
    };
    let mut host = Noting {
        alloc,
        lines,
        questions: Questions::at_most(u64::MAX),
        notes: Vec::new(alloc),
        awaited: Vec::new(alloc),
        is_short: false,
    };
    let _ = run_filed(
        alloc,
        NodeName::parse("a").expect(rt, "a name"),
        Config::new(1, 5, 64).expect(rt, "settings"),
        Weighing::Flat,
        keeper,
        &mut host,
        &mut Vec::new(alloc),
    );
    host
}

// Expects that the image that a host was told is what was kept at the answer before.
fn expect_image(rt: &(impl Abort + AllocGlobal), told: &Note, image: &Note) {
    let mut text = told.kept.to_vec(rt.alloc()).expect(rt, "room");
    text.extend_from_slice(b"\n\n").expect(rt, "room");
    assert_eq!(rt; image.text.as_slice(), text.as_slice());
}

// Expects that these bytes are what was kept when the text at this place was told.
fn expect_kept(rt: &(impl Abort + AllocGlobal), notes: &[Note], at: usize, kept: &[u8]) {
    let note = notes.get(at).expect(rt, "as many answers");
    assert_eq!(rt; kept, note.kept.as_slice());
}

#[test]
fn what_a_host_is_told_is_kept_by_then(rt: HostRuntime) {
    let disk = LaterDisk {
        holds: 2,
        fails_late: false,
    };
    let host = noted(&rt, disk, b"image\njoin\nimage\nstart web\nimage\n");
    assert!(rt; !host.is_short);
    match host.notes.as_slice() {
        [boot, at_boot, joined, at_join, refused, at_refusal] => {
            assert_eq!(rt; joined.text.as_slice(), b"ok (a,1)\n\n".as_slice());
            assert_eq!(rt;
                refused.text.as_slice(),
                b"refused 16 KeepFailed\n\n".as_slice()
            );
            expect_image(&rt, boot, at_boot);
            expect_image(&rt, joined, at_join);
            expect_image(&rt, refused, at_refusal);
        }
        _ => rt.panic("six answers"),
    }
}

#[test]
fn what_was_told_is_kept_while_the_next_line_is_awaited(rt: HostRuntime) {
    let disk = LaterDisk {
        holds: 2,
        fails_late: false,
    };
    let host = noted(&rt, disk, b"join\nstart web\nmembers\n");
    assert!(rt; !host.is_short);
    match host.awaited.as_slice() {
        [first, second, third, end] => {
            expect_kept(&rt, &host.notes, 0, first);
            expect_kept(&rt, &host.notes, 1, second);
            expect_kept(&rt, &host.notes, 2, third);
            expect_kept(&rt, &host.notes, 3, end);
        }
        _ => rt.panic("four lines, the end for one"),
    }
}

#[test]
fn a_disk_that_fails_at_the_begin_has_no_node(rt: HostRuntime) {
    for file in [None, Some(IMAGE)] {
        for next in [
            Next::WriteFails,
            Next::FlushFails,
            Next::RenameFails,
            Next::FolderFails,
        ] {
            expect(&rt, file, next, b"show\n", b"", 3, b"device\n");
        }
    }
}

#[test]
fn a_save_that_fails_before_the_rename_is_refused_and_the_node_goes_on(rt: HostRuntime) {
    let disk = LaterDisk {
        holds: 2,
        fails_late: false,
    };
    expect_on(
        &rt,
        disk,
        b"join\nstart web\nstart db\nship b\n",
        b"\
ok boot 1

ok (a,1)

refused 16 KeepFailed

refused 16 KeepFailed

ok sent
  send b {\"ctx\":{\"cloud\":[],\"vector\":{\"a\":1}},\"from\":\"a\",\"kind\":\"delta\",\"n\":1,\
\"rows\":[[\"member\",\"a\",[\"a\",1],{\"label\":\"\",\"status\":\"open\"}]],\"to\":\"b\",\"v\":2}

",
        0,
        b"",
    );
}

#[test]
fn a_save_that_fails_at_the_rename_is_refused_and_no_line_is_heard_behind_it(rt: HostRuntime) {
    let disk = LaterDisk {
        holds: 2,
        fails_late: true,
    };
    expect_on(
        &rt,
        disk,
        b"join\nstart web\nstart db\nshow\n",
        b"ok boot 1\n\nok (a,1)\n\nrefused 16 KeepFailed\n\n",
        3,
        b"device\n",
    );
}

#[test]
fn what_is_no_image_of_the_node_is_told_and_left_as_it_was(rt: HostRuntime) {
    for (file, line) in [
        (b"".as_slice(), b"bad image NotJson\n".as_slice()),
        (b"{}", b"bad image NotMessage\n"),
        (b"{\"v\":3}", b"bad image BadVersion\n"),
        (
            b"\
            {\"boot\":1,\"count\":0,\"ctx\":{\"cloud\":[],\"vector\":{}},\"kind\":\"image\",\
            \"node\":\"b\",\"rows\":[],\"v\":2}",
            b"bad image OtherNode\n",
        ),
        (
            b"\
            {\"boot\":9007199254740991,\"count\":0,\"ctx\":{\"cloud\":[],\"vector\":{}},\
            \"kind\":\"image\",\"node\":\"a\",\"rows\":[],\"v\":2}",
            b"bad image CountSpent\n",
        ),
    ] {
        let left = expect(&rt, Some(file), Next::Holds, b"show\n", b"", 1, line);
        assert_eq!(rt; left.keeper().stored(), file);
    }
}
