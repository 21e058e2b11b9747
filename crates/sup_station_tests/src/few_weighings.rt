//! The row of few weighings: five members, 1,000 children, and a weigher that counts how often it is asked.
use crate::given::{child, name, worker};
use std::cell::Cell;
use std::fmt::Write;
use std::process::Abort;
use sup_keeper::{Keeper, MemKeeper};
use sup_local_sup::KeptList;
use sup_placement::{Sha256Weigh, Weigh};
use sup_replica::{Act, Config, Event};
use sup_specs::{ChildId, NodeName};
use sup_station::Station;

// Weighs by digest, and counts how often it is asked.
#[derive(Drop)]
struct CountingWeigh {
    asked: Cell<u32>,
}

impl Weigh for CountingWeigh {
    ghost use Rattle.sup_placement.specs.Weights.{sha256_weight};

    ghost weight_of = { sha256_weight };

    fn weight(&self, member: &NodeName, id: &ChildId) -> [u8; 32] {
        self.asked.set(self.asked.get().saturating_add(1));
        Sha256Weigh.weight(member, id)
    }
}

fn counting() -> CountingWeigh {
    CountingWeigh {
        asked: Cell::new(0),
    }
}

// An image of node a with the members a to e and the children c1000 to c1999.
fn peopled(rt: &(impl Abort + AllocGlobal)) -> String {
    let mut image = String::new(rt.alloc());
    let opened = image.push_str(
        "{\"boot\":1,\"count\":1005,\"ctx\":{\"cloud\":[],\"vector\":{\"a\":1005}},\"kind\":\"image\",\"node\":\"a\",\"rows\":[",
    );
    opened.expect(rt, "room");
    for counter in 1..6u32 {
        let member = ["a", "b", "c", "d", "e"][counter as usize - 1];
        write!(image, "[\"member\",\"{member}\",[\"a\",{counter}],").expect(rt, "room");
        let info = "{\"label\":\"\",\"status\":\"open\"}],";
        image.push_str(info).expect(rt, "room");
    }
    for counter in 6..1006u32 {
        let id = 994 + counter;
        let front = if counter == 6 { "" } else { "," };
        write!(image, "{front}[\"child\",\"c{id}\",[\"a\",{counter}],").expect(rt, "room");
        let spec =
            "{\"arg\":\"\",\"kind\":\"worker\",\"restart\":\"permanent\",\"shutdown\":5000}]";
        image.push_str(spec).expect(rt, "room");
    }
    image.push_str("],\"v\":2}").expect(rt, "room");
    image
}

// Node a, begun from an image.
fn begun(
    rt: &(impl Abort + AllocGlobal),
    image: &[u8],
    weigher: &CountingWeigh,
) -> Station<MemKeeper, CountingWeigh> {
    let mut keeper = MemKeeper::new(rt.alloc());
    assert!(rt; keeper.save(image).is_ok());
    let mut station = Station::stopped(rt.alloc(), name(rt, "a"), Config::default(), keeper);
    assert!(rt; station.step(Act::Restart, 0, weigher).is_ok());
    station
}

// Whether each child of one list is in the other under the same dot.
fn are_in(some: &KeptList, others: &KeptList) -> bool {
    some.iter().all(|(id, entry)| match others.get(id) {
        Some(other) => other.dot == entry.dot,
        None => false,
    })
}

#[test]
fn a_start_weighs_few_times_and_keeps_what_a_restart_keeps(rt: HostRuntime) {
    let weigher = counting();
    let image = peopled(&rt);
    let mut station = begun(&rt, image.as_bytes(), &weigher);
    assert!(rt; weigher.asked.get() == 5000);
    weigher.asked.set(0);
    let id = child(rt.alloc(), "c3000").expect(&rt, "room");
    let spec = worker(rt.alloc(), "").expect(&rt, "room");
    let start = Act::Event(Event::Start(id, spec));
    assert!(rt; station.step(start, 0, &weigher).is_ok());
    assert!(rt; weigher.asked.get() <= 10);
    let again = begun(&rt, station.keeper().stored(), &weigher);
    let here = station.node().expect(&rt, "a node that runs").kept();
    let there = again.node().expect(&rt, "a node that runs").kept();
    assert!(rt; here.len() > 150);
    assert!(rt; here.len() == there.len());
    assert!(rt; are_in(here, there));
}
