//! Changes of what is wanted under an id or two, at a stage.
use super::{Given, Stage};
use crate::changes::{drop_and_put, drop_one, drop_two, put_one};
use crate::given::{id, permanent};
use crate::seen::{Kept, Seen, expect_effects, expect_kept};
use std::process::Abort;
use sup_local_sup::Change;
use sup_specs::Plain;

impl Stage {
    // Expects this of a child that is wanted.
    pub(crate) fn puts(
        &mut self,
        rt: &(impl Abort + AllocGlobal),
        child: Given<'_>,
        wanted: &[Seen<'_>],
    ) {
        let now = permanent(rt, child.0, child.1);
        let effects = put_one(rt, &mut self.supervisor, now);
        expect_effects(rt, &effects.expect(rt, "effects"), wanted)
    }

    // Expects this of a child that isn't wanted.
    pub(crate) fn drops(
        &mut self,
        rt: &(impl Abort + AllocGlobal),
        name: &str,
        wanted: &[Seen<'_>],
    ) {
        let effects = drop_one(&mut self.supervisor, id(rt, name));
        expect_effects(rt, &effects.expect(rt, "effects"), wanted)
    }

    // Expects this of two children that aren't wanted.
    pub(crate) fn drops_two(
        &mut self,
        rt: &(impl Abort + AllocGlobal),
        names: (&str, &str),
        wanted: &[Seen<'_>],
    ) {
        let effects = drop_two(rt, &mut self.supervisor, id(rt, names.0), id(rt, names.1));
        expect_effects(rt, &effects.expect(rt, "effects"), wanted)
    }

    // Expects this of a child that isn't wanted, and one that is.
    pub(crate) fn drops_and_puts(
        &mut self,
        rt: &(impl Abort + AllocGlobal),
        name: &str,
        child: Given<'_>,
        wanted: &[Seen<'_>],
    ) {
        let now = permanent(rt, child.0, child.1);
        let effects = drop_and_put(rt, &mut self.supervisor, id(rt, name), now);
        expect_effects(rt, &effects.expect(rt, "effects"), wanted)
    }

    // Expects this of a child whose run has ended, and that isn't wanted. Until this is carried out these are kept.
    #[tactic(auto, using(crate::proofs::FewChanges::one_change))]
    pub(crate) fn ends(
        &mut self,
        rt: &(impl Abort + AllocGlobal),
        name: &str,
        before: &[Kept<'_>],
        wanted: &[Seen<'_>],
    ) {
        let ended = id(rt, name);
        let gone = Change {
            id: id(rt, name),
            now: None,
        };
        let plan = self.supervisor.plan_change(Some(&ended), &[gone]);
        let (plan, effects) = plan.expect(rt, "a plan").parted();
        expect_effects(rt, &effects, wanted);
        expect_kept(rt, &self.supervisor, before);
        expect_effects(rt, &self.supervisor.carry_out_change(plan), &[])
    }

    // Expects this of a child whose run has ended, and that is wanted. Until this is carried out these are kept.
    #[tactic(auto, using(crate::proofs::FewChanges::one_change))]
    pub(crate) fn begins_anew(
        &mut self,
        rt: &(impl Abort + AllocGlobal),
        child: Given<'_>,
        before: &[Kept<'_>],
        wanted: &[Seen<'_>],
    ) {
        let now = permanent(rt, child.0, child.1);
        assert!(rt; now.dot.is_counted());
        let ended = id(rt, child.0);
        let again = Change {
            id: now.id.try_clone(rt.alloc()).expect(rt, "an id"),
            now: Some(now),
        };
        let plan = self.supervisor.plan_change(Some(&ended), &[again]);
        let (plan, effects) = plan.expect(rt, "a plan").parted();
        expect_effects(rt, &effects, wanted);
        expect_kept(rt, &self.supervisor, before);
        expect_effects(rt, &self.supervisor.carry_out_change(plan), &[])
    }
}
