//! A runner that can't start any child.
use crate::given::{Counted, count, is_certified, join, plan, run_flat, ship, start, told};
use sup_cluster::{Quiet, Request, Runner};
use sup_local_sup::Effect;
use sup_replica::Refusal;

struct StartsNothing;

impl Runner for StartsNothing {
    ghost did = { λ runner node effect answer. Unit {0} };

    fn act(&self, request: Request) -> bool {
        matches!(request.effect(), Effect::Stop { .. })
    }
}

#[test]
fn a_child_that_never_starts_ends_the_membership(rt: HostRuntime) {
    // There is nothing to ship yet: a command that is refused doesn't end the run.
    let plan = told(&rt, plan(&rt, &["a", "b"]), "a", ship(&rt, "b"));
    let plan = told(&rt, plan, "a", join(&rt));
    let plan = told(&rt, plan, "a", start(&rt, "web"));
    let Ok(histories) = run_flat(&rt, &plan, &StartsNothing, &Quiet) else {
        panic!(rt; "no histories")
    };
    assert!(rt; histories.as_slice()[0].entries.len() == 5);
    assert!(rt;
        matches!(
            histories.as_slice()[0].entries[0].answer,
            Err(Refusal::UpToDate)
        )
    );
    assert!(rt; count(&histories, 0, Counted::Restarted) == 1);
    assert!(rt; count(&histories, 0, Counted::GaveUp) == 1);
    assert!(rt; histories.as_slice()[1].entries.is_empty());
    assert!(rt; is_certified(&rt, &plan, &histories));
}
