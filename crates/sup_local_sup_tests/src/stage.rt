//! A supervisor of the tests, and what is expected of it at each call. The calls promise nothing, and end the test where
//! one of the supervisor's fails or answers otherwise. A test that has a stage for its only local is quickly proved.
mod changes;

use crate::given::{id, inc, keep_one, keep_three, keep_two, permanent};
use crate::seen::{
    Kept, Seen, expect_effects, expect_finished, expect_gave_up, expect_kept, expect_restarted,
    expect_stale,
};
use std::process::Abort;
use sup_local_sup::{Leaving, Plan, SupFault, Supervisor, Verdict, Wanted};
use sup_specs::ExitReason;

/// A permanent child: its id, and the counter of its dot.
pub(crate) type Given<'a> = (&'a str, u64);

#[derive(Drop)]
pub(crate) struct Stage {
    supervisor: Supervisor,
}

impl Stage {
    // A supervisor of boot 1.
    pub(crate) fn new(rt: &(impl Abort + AllocGlobal), intensity: usize, period: u64) -> Stage {
        assert!(rt; intensity <= 1000);
        Stage {
            supervisor: Supervisor::new(rt.alloc(), 1, intensity, period).expect(rt, "room"),
        }
    }

    // A supervisor that keeps x, y and z, in this order, in the runs 1 to 3.
    pub(crate) fn of_three(rt: &(impl Abort + AllocGlobal)) -> Stage {
        let mut stage = Stage::new(rt, 1, 5);
        let started = [
            ("start", "x", 1, 1),
            ("start", "y", 1, 2),
            ("start", "z", 1, 3),
        ];
        stage.keeps_three(rt, ("x", 1), ("y", 2), ("z", 3), &started);
        stage
    }

    pub(crate) fn copy(&self, rt: &impl Abort) -> Stage {
        Stage {
            supervisor: self.supervisor.try_clone().expect(rt, "a copy"),
        }
    }

    // Expects these children to be kept, in this order.
    pub(crate) fn has(&self, rt: &impl Abort, kept: &[Kept<'_>]) {
        expect_kept(rt, &self.supervisor, kept)
    }

    #[tactic(auto, using(sup_causal::proofs::Rising::none_rises))]
    pub(crate) fn keeps_none(&mut self, rt: &impl Abort, wanted: &[Seen<'_>]) {
        let effects = self.supervisor.wanted(&[]);
        expect_effects(rt, &effects.expect(rt, "effects"), wanted)
    }

    pub(crate) fn keeps_one(
        &mut self,
        rt: &(impl Abort + AllocGlobal),
        only: Given<'_>,
        wanted: &[Seen<'_>],
    ) {
        self.takes_one(rt, permanent(rt, only.0, only.1), wanted)
    }

    pub(crate) fn takes_one(&mut self, rt: &impl Abort, only: Wanted, wanted: &[Seen<'_>]) {
        let effects = keep_one(rt, &mut self.supervisor, only);
        expect_effects(rt, &effects.expect(rt, "effects"), wanted)
    }

    pub(crate) fn keeps_two(
        &mut self,
        rt: &(impl Abort + AllocGlobal),
        first: Given<'_>,
        second: Given<'_>,
        wanted: &[Seen<'_>],
    ) {
        let first = permanent(rt, first.0, first.1);
        let second = permanent(rt, second.0, second.1);
        let effects = keep_two(rt, &mut self.supervisor, first, second);
        expect_effects(rt, &effects.expect(rt, "effects"), wanted)
    }

    pub(crate) fn keeps_three(
        &mut self,
        rt: &(impl Abort + AllocGlobal),
        first: Given<'_>,
        second: Given<'_>,
        third: Given<'_>,
        wanted: &[Seen<'_>],
    ) {
        let first = permanent(rt, first.0, first.1);
        let second = permanent(rt, second.0, second.1);
        let third = permanent(rt, third.0, third.1);
        self.takes_three(rt, first, second, third, wanted)
    }

    pub(crate) fn takes_three(
        &mut self,
        rt: &impl Abort,
        first: Wanted,
        second: Wanted,
        third: Wanted,
        wanted: &[Seen<'_>],
    ) {
        let effects = keep_three(rt, &mut self.supervisor, first, second, third);
        expect_effects(rt, &effects.expect(rt, "effects"), wanted)
    }

    // An exit of a run of boot 1.
    pub(crate) fn exit(
        &mut self,
        rt: &(impl Abort + AllocGlobal),
        run: Given<'_>,
        reason: &ExitReason,
        now: u64,
    ) -> Verdict {
        let verdict = self
            .supervisor
            .exited(&id(rt, run.0), inc(1, run.1), reason, now);
        verdict.expect(rt, "a verdict")
    }

    // Expects the child whose k-th run of boot 1 crashes to begin this one.
    pub(crate) fn restarts(
        &mut self,
        rt: &(impl Abort + AllocGlobal),
        run: Given<'_>,
        now: u64,
        next: u64,
    ) {
        let verdict = self.exit(rt, run, &ExitReason::Crash, now);
        expect_restarted(rt, &verdict, ("start", run.0, 1, next))
    }

    // Expects the crash of a child's k-th run of boot 1 to be one too many.
    pub(crate) fn gives_up(
        &mut self,
        rt: &(impl Abort + AllocGlobal),
        run: Given<'_>,
        now: u64,
        wanted: &[Seen<'_>],
    ) {
        let verdict = self.exit(rt, run, &ExitReason::Crash, now);
        expect_gave_up(rt, &verdict, wanted)
    }

    // Expects the crash of a child's k-th run of boot 1 to end the entry under the dot with this counter.
    pub(crate) fn finishes(
        &mut self,
        rt: &(impl Abort + AllocGlobal),
        run: Given<'_>,
        now: u64,
        counter: u64,
    ) {
        let verdict = self.exit(rt, run, &ExitReason::Crash, now);
        expect_finished(rt, &verdict, counter)
    }

    // Expects no such run to be kept where it crashes.
    pub(crate) fn is_stale(
        &mut self,
        rt: &(impl Abort + AllocGlobal),
        name: &str,
        boot: u64,
        k: u64,
    ) {
        let verdict = self
            .supervisor
            .exited(&id(rt, name), inc(boot, k), &ExitReason::Crash, 9);
        expect_stale(rt, &verdict.expect(rt, "a verdict"))
    }

    #[tactic(auto, using(sup_causal::proofs::Rising::none_rises))]
    pub(crate) fn plans_to_give_up(
        &self,
        rt: &(impl Abort + AllocGlobal),
        name: &str,
    ) -> Result<Plan, SupFault> {
        self.supervisor.plan(&Leaving::GaveUp(id(rt, name)), &[])
    }

    pub(crate) fn plans_restart(
        &self,
        rt: &(impl Abort + AllocGlobal),
        name: &str,
        wanted: &[Seen<'_>],
    ) {
        let restart = self.supervisor.plan_restart(&id(rt, name));
        expect_effects(rt, &restart.expect(rt, "a plan"), wanted)
    }

    pub(crate) fn carries_out(&mut self, rt: &impl Abort, plan: Plan, wanted: &[Seen<'_>]) {
        expect_effects(rt, &self.supervisor.carry_out(plan), wanted)
    }
}
