//! What comes of a delta: an own operation, or one that was received.
ghost use Rattle.std.specs.Prelude.{◌≡◌, true, Ok, Some, None, IfOk};
ghost use Rattle.sup_tables.specs.Joined.{join_states, covers_state};
ghost use Rattle.sup_replica.specs.ByTables.{by_tables};
ghost use Rattle.sup_replica.specs.Steps.{issues};
ghost use Rattle.sup_node.specs.Changes.{ReadiesOutcome, IsOwn, IsOf, absorbed, learns};
ghost use Rattle.sup_node.specs.Placed.{keeps_placed};

use crate::change::{Change, Learned, Ready};
use crate::replica::Replica;
use std::alloc::Global;
use sup_causal::Lattice;
use sup_local_sup::{Effects, Leaving};
use sup_placement::Weigh;
use sup_replica::{Refusal, Reply};
use sup_specs::MAX;
use sup_tables::Tables;

impl Replica {
    // Makes an own operation ready. Those that leave are let go first.
    pub(super) fn issue<W: Weigh>(
        &self,
        reply: Reply,
        leaving: &Leaving,
        delta: Tables,
        weigher: &W,
    ) -> Result<Ready, Refusal>
        requires keeps { keeps_placed W.weight_of self.now ≡ true }
        ensures ready { ReadiesOutcome W.weight_of (Ok (issues by_tables W.weight_of self.now reply leaving.now delta)) self.now result }
        ensures own { IfOk result (λ p. IsOwn self.now p.change) }
    {
        let own = delta.try_clone(self.alloc)?;
        self.learn(Some(own), reply, leaving, delta, weigher)
    }

    // Makes ready what comes of received tables.
    pub(crate) fn absorb<W: Weigh>(&self, delta: Tables, weigher: &W) -> Result<Ready, Refusal>
        requires keeps { keeps_placed W.weight_of self.now ≡ true }
        ensures ready { ReadiesOutcome W.weight_of (Ok (absorbed W.weight_of self.now delta)) self.now result }
        ensures of { IfOk result (λ p. IsOf delta self.now p.change) }
    {
        // For its clause: no number is past the greatest.
        self.is_counted();
        if self.covers(&delta) {
            return Ok(Ready {
                reply: Reply::Known,
                effects: Effects::new(Vec::new(self.alloc)),
                change: Change::Nothing,
            });
        }
        self.learn(None, Reply::Absorbed, &Leaving::Nobody, delta, weigher)
    }

    // Makes ready to know a delta, to let go those that leave, and then to keep what is wanted with it.
    fn learn<W: Weigh>(
        &self,
        own: Option<Tables>,
        reply: Reply,
        leaving: &Leaving,
        delta: Tables,
        weigher: &W,
    ) -> Result<Ready, Refusal>
        requires keeps { keeps_placed W.weight_of self.now ≡ true }
        ensures ready { ReadiesOutcome W.weight_of (Ok (learns W.weight_of self.now own reply leaving.now delta)) self.now result }
        ensures own { own ≡ Some delta → IfOk result (λ p. IsOwn self.now p.change) }
        ensures of { own ≡ None → IfOk result (λ p. IsOf delta self.now p.change) }
    {
        if self.count >= MAX {
            return Err(Refusal::CountSpent);
        }
        let (intake, effects) = self.intake(leaving, &delta, weigher)?;
        let learned = Learned { intake, delta, own };
        Ok(Ready {
            reply,
            effects,
            change: Change::Learns(learned),
        })
    }

    // Whether the tables have nothing new.
    fn covers(&self, delta: &Tables) -> bool
        ensures value { result ≡ covers_state self.now.known delta.now }
        ensures same { result ≡ true → join_states self.now.known delta.now ≡ self.now.known }
    {
        // For its clause: tables are in their one form.
        self.tables.context();
        delta.leq(&self.tables)
    }
}
