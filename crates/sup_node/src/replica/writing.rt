//! The image that is to be, by what becomes of the last one.
ghost use Rattle.std.specs.Prelude.{◌≡◌, ◌+◌, ◌<◌, IfOk};
ghost use Rattle.sup_specs.specs.declared.limits.TheConstants.{MAX as MOST};
ghost use Rattle.sup_tables.specs.Rows.{AreInOrder};
ghost use Rattle.sup_tables.specs.States.{State, HasDotsOf};
ghost use Rattle.sup_tables.specs.Planned.{IsPlanFor};
ghost use Rattle.sup_image_text.specs.Next.{IsChanged, IsNext};
ghost use Rattle.sup_node.specs.Changes.{ChangesTables, ForChanged, ForPlanned, image_with};

use crate::change::Intake;
use crate::replica::Replica;
use std::alloc::AllocError;
use sup_causal::CausalContext;
use sup_image_text::{NextImage, RowChange, is_few};
use sup_tables::{PlannedTables, Tables};
use sup_wire::Heading;

impl Replica {
    // Its image once a delta is taken in.
    pub(crate) fn next_image<'a>(&'a self, intake: &'a Intake) -> Result<NextImage<'a>, AllocError>
        requires counted { self.now.count < MOST }
        requires fits { (new : State) × ChangesTables intake.now self.now.known new }
        ensures { IfOk result (λ next. ForChanged intake.now self.now.known (λ new. IsNext self.now.known.rows (image_with self.now new) next)) }
    {
        match intake {
            Intake::Whole(tables, _) => self.with_all_rows(tables),
            Intake::Touched(plan, _) => self.with_plan(plan),
        }
    }

    // With these tables.
    fn with_all_rows<'a>(&'a self, tables: &'a Tables) -> Result<NextImage<'a>, AllocError>
        requires { self.now.count < MOST }
        ensures { IfOk result (λ next. IsNext self.now.known.rows (image_with self.now tables.now) next) }
    {
        let context = tables.context();
        // For its clause: the counters of known dots are in their limits.
        context.counted();
        let rows = tables.lent_rows()?;
        Ok(NextImage {
            heading: self.heading(context),
            rows: RowChange::All(rows),
        })
    }

    // With the tables that a plan makes.
    fn with_plan<'a>(&'a self, plan: &'a PlannedTables) -> Result<NextImage<'a>, AllocError>
        requires counted { self.now.count < MOST }
        requires fits { (new : State) × IsPlanFor plan.now self.now.known new }
        ensures { IfOk result (λ next. ForPlanned plan.now self.now.known (λ new. IsNext self.now.known.rows (image_with self.now new) next)) }
    {
        let context = self.tables.context_after(plan);
        let rows = self.rows_after(plan)?;
        Ok(NextImage {
            heading: self.heading(context),
            rows,
        })
    }

    // The rows that a plan makes: by its edits, where that takes less time.
    fn rows_after<'a>(&'a self, plan: &'a PlannedTables) -> Result<RowChange<'a>, AllocError>
        requires { (new : State) × IsPlanFor plan.now self.now.known new }
        ensures changed { IfOk result (λ rows. ForPlanned plan.now self.now.known (λ new. IsChanged self.now.known.rows new.rows rows)) }
        ensures in_order { IfOk result (λ rows. ForPlanned plan.now self.now.known (λ new. AreInOrder new.rows)) }
        ensures covered { IfOk result (λ rows. ForPlanned plan.now self.now.known (λ new. HasDotsOf new.context new.rows)) }
    {
        let edits = self.tables.lent_edits_after(self.alloc, plan)?;
        if is_few(edits.len(), self.tables.row_count()) {
            return Ok(RowChange::Edits(edits));
        }
        let rows = self.tables.lent_rows_after(self.alloc, plan)?;
        Ok(RowChange::All(rows))
    }

    // What its next image has but for rows.
    fn heading<'a>(&self, context: &'a CausalContext) -> Heading<'a>
        requires { self.now.count < MOST }
        ensures node { result.node ≡ self.now.name }
        ensures boot { result.boot ≡ self.now.supervisor.boot }
        ensures count { result.count ≡ self.now.count + 1 }
        ensures context { result.context.now ≡ context.now }
    {
        Heading {
            node: self.name,
            boot: self.supervisor.boot(),
            count: self.count + 1,
            context,
        }
    }
}
