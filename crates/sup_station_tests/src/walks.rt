//! Walks of two stations that act and write to each other, of few rows and of nearly 10,000: at each tenth act what each of
//! them keeps is the text of its image, written anew.
use crate::given::{message, name};
use crate::many_children::filled;
use crate::walked_acts::drawn;
use std::process::Abort;
use sup_keeper::{Keeper, MemKeeper};
use sup_placement::FlatWeigh;
use sup_replica::{Act, Config, Done, Event, Letter, MessageText};
use sup_station::Station;
use sup_wire::{Image, decode_image, encode_image};

type Kept = Station<MemKeeper, FlatWeigh>;

/// A station, and the last message that was sent to it: an older one is lost, and the last one may come again.
#[derive(Drop)]
struct Side {
    station: Kept,
    mail: MessageText,
}

fn nothing(rt: &(impl Abort + AllocGlobal)) -> MessageText {
    message(rt.alloc(), b"").expect(rt, "room")
}

fn new_side(rt: &(impl Abort + AllocGlobal), of: &str) -> Side {
    let keeper = MemKeeper::new(rt.alloc());
    match Station::new(rt.alloc(), name(rt, of), Config::default(), keeper) {
        Ok(station) => Side {
            station,
            mail: nothing(rt),
        },
        Err(_) => panic!(rt; "it was refused"),
    }
}

// Node a, stopped, with this image.
fn stopped_side(rt: &(impl Abort + AllocGlobal), image: &str) -> Side {
    let mut keeper = MemKeeper::new(rt.alloc());
    assert!(rt; keeper.save(image.as_bytes()).is_ok());
    Side {
        station: Station::stopped(rt.alloc(), name(rt, "a"), Config::default(), keeper),
        mail: nothing(rt),
    }
}

// One side acts, and the other gets what it sends.
fn acts(one: &mut Side, other: &mut Side, act: Act) {
    if let Ok(done) = one.station.step(act, 0, &FlatWeigh) {
        let Done { out, .. } = done;
        if let Some(letter) = out {
            let Letter { bytes, .. } = letter;
            other.mail = bytes;
        }
    }
}

// What the number tells: an act whose save, if it makes one, fails once in 16 times. A stopped node restarts.
fn turns(
    rt: &(impl Abort + AllocGlobal),
    one: &mut Side,
    other: &mut Side,
    to: &str,
    number: u64,
    last: u16,
) {
    one.station.fail_next(number % 16 == 0);
    if one.station.node().is_none() {
        acts(one, other, Act::Restart);
    } else {
        let act = drawn(rt, &one.mail, to, number / 16, last).expect(rt, "room");
        acts(one, other, act);
    }
}

// A number that tells nothing of the one before it.
fn mixed(at: u64) -> u64 {
    let spread = at.wrapping_mul(0x9E37_79B9_7F4A_7C15);
    let once = (spread ^ (spread >> 30)).wrapping_mul(0xBF58_476D_1CE4_E5B9);
    let twice = (once ^ (once >> 27)).wrapping_mul(0x94D0_49BB_1331_11EB);
    twice ^ (twice >> 31)
}

// The node's image, or that which a stopped node goes on from.
fn image(rt: &(impl Abort + AllocGlobal), station: &Kept) -> Image {
    match station.node() {
        Some(node) => node.image().expect(rt, "room"),
        None => decode_image(rt.alloc(), station.keeper().stored()).expect(rt, "an image"),
    }
}

fn expect_kept(rt: &(impl Abort + AllocGlobal), station: &Kept, at: u64) {
    let wanted = encode_image(rt.alloc(), &image(rt, station)).expect(rt, "room");
    assert!(rt; station.keeper().stored() == wanted.as_slice(), "{at}");
}

// So many acts, by numbers from this one on, of children up to the last one.
fn walk(
    rt: &(impl Abort + AllocGlobal),
    a: &mut Side,
    b: &mut Side,
    steps: u64,
    seed: u64,
    last: u16,
) {
    for at in 0..steps {
        let number = mixed(seed.wrapping_add(at));
        if number % 2 == 0 {
            turns(rt, a, b, "b", number / 2, last);
        } else {
            turns(rt, b, a, "a", number / 2, last);
        }
        if at % 10 == 9 {
            expect_kept(rt, &a.station, at);
            expect_kept(rt, &b.station, at);
        }
    }
}

// How often the node's tables changed.
fn changes(rt: &(impl Abort + AllocGlobal), side: &Side) -> u64 {
    image(rt, &side.station).count
}

fn walk_of_few_rows(rt: &(impl Abort + AllocGlobal), seed: u64) {
    let mut a = new_side(rt, "a");
    let mut b = new_side(rt, "b");
    walk(rt, &mut a, &mut b, 1000, seed, 23);
    assert!(rt; changes(rt, &a) > 100);
    assert!(rt; changes(rt, &b) > 100);
}

#[test]
fn each_tenth_image_of_few_rows_is_the_text_that_is_written_anew(rt: HostRuntime) {
    walk_of_few_rows(&rt, 1);
}

#[test]
fn another_walk_of_few_rows_keeps_the_text_too(rt: HostRuntime) {
    walk_of_few_rows(&rt, 7919);
}

// A node that knows nothing takes the whole state of another one in by one delivery.
fn take_all(rt: &(impl Abort + AllocGlobal), a: &mut Side, b: &mut Side) {
    acts(a, b, Act::Restart);
    acts(a, b, Act::Event(Event::Ship(name(rt, "b"))));
    let all = b.mail.try_clone(rt.alloc()).expect(rt, "room");
    acts(b, a, Act::Event(Event::Deliver(all)));
    assert!(rt; changes(rt, b) == 1);
    expect_kept(rt, &a.station, 0);
    expect_kept(rt, &b.station, 0);
}

#[test]
fn each_tenth_image_of_nearly_10000_rows_is_the_text_that_is_written_anew(rt: HostRuntime) {
    let mut a = stopped_side(&rt, filled(&rt, 9990).as_str());
    let mut b = new_side(&rt, "b");
    take_all(&rt, &mut a, &mut b);
    walk(&rt, &mut a, &mut b, 100, 1, 10100);
    assert!(rt; changes(&rt, &b) > 10);
}
