//! Links between two threads, where puts wait for takes.
use crate::given::{expect_taken, put, script};
use std::thread;
use sup_links::{MAX_CAPACITY, Verdict, link};

const TEN: [&str; 10] = ["0", "1", "2", "3", "4", "5", "6", "7", "8", "9"];

#[test]
fn puts_past_the_capacity_wait_for_takes_and_come_in_order(rt: HostRuntime) {
    let (mut entry, mut exit) = link(rt.alloc(), script(&rt, &[]), 1).expect(&rt, "room");
    let rt = &rt;
    thread::scope(thread::scope_env(), rt, |scope| {
        let _ = scope.spawn(move || {
            for _ in 0..20 {
                for message in TEN {
                    put(rt, &mut entry, message);
                }
            }
            let _ = entry.end(rt);
        });
        for _ in 0..20 {
            expect_taken(rt, &mut exit, &TEN);
        }
        assert!(rt; exit.take(rt) == Ok(None));
    });
}

#[test]
fn the_script_holds_between_threads(rt: HostRuntime) {
    let verdicts = [Verdict::Hold(9), Verdict::Lose, Verdict::Twice];
    let (mut entry, mut exit) = link(rt.alloc(), script(&rt, &verdicts), 1).expect(&rt, "room");
    let rt = &rt;
    thread::scope(thread::scope_env(), rt, |scope| {
        let _ = scope.spawn(move || {
            for message in TEN {
                put(rt, &mut entry, message);
            }
            let _ = entry.end(rt);
        });
        let through = ["2", "2", "3", "4", "5", "6", "7", "8", "9", "0"];
        expect_taken(rt, &mut exit, &through);
        assert!(rt; exit.take(rt) == Ok(None));
    });
}

#[test]
fn a_link_of_the_greatest_capacity_takes_so_many_with_no_take(rt: HostRuntime) {
    let (mut entry, mut exit) = link(rt.alloc(), script(&rt, &[]), MAX_CAPACITY).expect(
        &rt, "room",
    );
    for _ in 0..MAX_CAPACITY {
        put(&rt, &mut entry, "m");
    }
    expect_taken(&rt, &mut exit, &["m"]);
}
