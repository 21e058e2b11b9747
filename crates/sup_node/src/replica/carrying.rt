//! What is ready is carried out.
ghost use Rattle.std.specs.Prelude.{◌≡◌, ◌+◌, ◌<◌, ◌≤◌, IfOk, IfErr, OnOk, OnErr};
ghost use Rattle.sup_specs.specs.declared.limits.TheConstants.{MAX as MOST};
ghost use Rattle.sup_tables.specs.States.{State};
ghost use Rattle.sup_tables.specs.Joined.{no_state};
ghost use Rattle.sup_tables.specs.Planned.{IsPlanFor};
ghost use Rattle.sup_tables.specs.Opened.{IsOpen};
ghost use Rattle.sup_local_sup.specs.Planning.{restarted};
ghost use Rattle.sup_node.specs.Changes.{ChangesTables, ForChanged, kept_by, newer, taken_in};
ghost use Rattle.sup_node.specs.Openings.{TablesBecome, ForBecoming, kept_with, closed_node};

use crate::change::Intake;
use crate::opened::OpenIntake;
use crate::replica::Replica;
use std::alloc::AllocError;
use std::mem::replace;
use sup_specs::ChildId;
use sup_tables::{OpenTables, PlannedTables, Tables};

impl Replica {
    // A kept child begins a new run.
    pub(crate) fn begin(&mut self, id: &ChildId, now: u64)
        requires { self.old.supervisor.given < MOST }
        ensures { self.new ≡ record self.old { supervisor = restarted self.old.supervisor id.now now } }
    {
        self.supervisor.restart(id, now);
    }

    // Its tables find rows by their dots from now on. It knows what it knew.
    pub(crate) fn index_rows(&mut self)
        ensures { self.new ≡ self.old }
    {
        self.tables.index_rows();
    }

    // Takes a delta in, as it was made ready. An `Err` is want of memory, and changes nothing.
    pub(crate) fn take_in(&mut self, intake: Intake, own: Option<Tables>) -> Result<(), AllocError>
        requires tables { (new : State) × ChangesTables intake self.old.known new }
        requires given { (kept_by self.old.supervisor intake).given ≤ MOST }
        requires count { self.old.count < MOST }
        ensures ok { OnOk result (ForChanged intake self.old.known (λ new. self.new ≡ taken_in self.old intake own new)) }
        ensures err { OnErr result (self.new ≡ self.old) }
    {
        match intake {
            Intake::Whole(tables, plan) => {
                let _effects = self.supervisor.carry_out(plan);
                self.tables = tables;
            }
            Intake::Touched(plan, kept) => {
                self.tables.follow(self.alloc, plan)?;
                let _effects = self.supervisor.carry_out_change(kept);
            }
        }
        self.counts(own);
        Ok(())
    }

    // One change more, of an own operation or of others.
    pub(crate) fn counts(&mut self, own: Option<Tables>)
        requires { self.old.count < MOST }
        ensures { self.new ≡ record self.old { count = self.old.count + 1; newest = newer own self.old.newest } }
    {
        self.count += 1;
        if own.is_some() {
            self.newest = own;
        }
    }

    // Its tables, opened for a plan, and the rest of it, which knows nothing then. An `Err` is want of memory, and gives it
    // back.
    pub(crate) fn open(self, plan: PlannedTables) -> Result<(Replica, OpenTables), Replica>
        requires { (new : State) × IsPlanFor plan self.known new }
        ensures rest { IfOk result (λ r. r.0 ≡ record self { known = no_state }) }
        ensures open { IfOk result (λ r. (new : State) → IsPlanFor plan self.known new → IsOpen r.1 self.known new) }
        ensures err { IfErr result (λ r. r ≡ self) }
    {
        let mut replica = self;
        let alloc = replica.alloc;
        let tables = replace(&mut replica.tables, Tables::empty(alloc));
        match tables.open(alloc, plan) {
            Ok(open) => Ok((replica, open)),
            Err(tables) => {
                replica.tables = tables;
                Err(replica)
            }
        }
    }

    // It knows these tables.
    pub(crate) fn with_tables(self, tables: Tables) -> Replica
        ensures { result ≡ record self { known = tables } }
    {
        let mut replica = self;
        replica.tables = tables;
        replica
    }

    // It has taken in what it was opened for. Its count and its newest own operation are still the old ones.
    pub(crate) fn with_intake(self, intake: OpenIntake) -> Replica
        requires tables { (old : State) × (new : State) × TablesBecome intake self.known old new }
        requires given { (kept_with self.supervisor intake).given ≤ MOST }
        ensures becomes { ForBecoming intake self.known (λ new. result ≡ closed_node self intake new) }
        ensures count { result.count ≡ self.count }
        ensures up { result.up ≡ self.up }
    {
        let mut replica = self;
        match intake {
            OpenIntake::Whole(tables, plan) => {
                let _effects = replica.supervisor.carry_out(plan);
                replica.tables = tables;
            }
            OpenIntake::Touched(tables, kept) => {
                let _effects = replica.supervisor.carry_out_change(kept);
                replica.tables = tables.carried_out();
            }
        }
        replica
    }
}
