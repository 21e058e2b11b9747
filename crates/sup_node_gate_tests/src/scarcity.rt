//! Gates whose keeper lacks memory at one call: the call of the gate is refused so, nothing is entered, the turn is free again,
//! and the call made once more does what it should have done.
use crate::given::{gate, station};
use crate::refused::{ACTS, tells};
use std::process::Abort;
use std::sync::Wait;
use sup_keeper::MemKeeper;
use sup_scarce::Scarce;

// Whether the keeper came to its call `k + 1`, which lacks memory. The history is the same in any case.
fn tells_over_scarcity(rt: &(impl Abort + AllocGlobal + Wait), k: u64) -> bool {
    let keeper = Scarce::new(MemKeeper::new(rt.alloc()), k);
    let (at, pass) = gate(rt, station(rt, "a", keeper));
    let pass = tells(rt, &at, pass);
    let Some(closed) = at.close(pass) else {
        panic!(rt; "a turn is held")
    };
    assert!(rt; closed.history.len() as u64 == ACTS);
    for (place, entry) in closed.history.iter().enumerate() {
        assert!(rt; entry.now == place as u64);
        assert!(rt; entry.saved);
    }
    closed.station.keeper().has_refused()
}

// The story's keeper saves the opening image and those of a member, a start and a delete, and loads and saves one at the restart.
#[test]
fn a_call_whose_keeper_lacks_memory_is_made_when_asked_again(rt: HostRuntime) {
    for k in 0..6u64 {
        assert!(rt; tells_over_scarcity(&rt, k), "{k}");
    }
    assert!(rt; !tells_over_scarcity(&rt, 6));
}
