//! What a store of rows is.

ghost use Rattle.std.specs.Prelude.{◌≡◌, ◌↔◌, Option, None, IsTrue, IfOk, if◌then◌else◌};
ghost use Rattle.sup_specs.specs.Rising.{among};
ghost use Rattle.sup_causal.specs.declared.dot.Dot.{Dot as DotValue};
ghost use Rattle.sup_causal.specs.Join.{JoinLaws};
ghost use Rattle.sup_causal.specs.Dots.{dot_cmp};
ghost use Rattle.sup_dot_store.specs.Points.{AreJoinedRows, AreRowsBelow, ContextCovers, IsWithinContext};

use std::alloc::{AllocError, Global};
use sup_causal::{CausalContext, Dot};

/// Rows, each of a dot, a place and a value. Under one dot and one place stands at most one row.
///
/// A store alone can't tell a row that was removed from one that never came. The context beside it can: a dot
/// that the context has and the store has not is gone. So joins and comparisons take both contexts
/// (dot stores and causal contexts: Almeida, Shoker, Baquero 2018).
pub trait DotStore: Drop {
    // Where the rows of one dot may stand.
    ghost Place: { Type 0 };

    // What stands at a place.
    ghost Value: { Place → Type 0 };

    // Of two values under one dot and one place, the one that stays.
    ghost lesser: { (p : Place) → Value p → Value p → Value p };

    // The value of the row at a dot and a place.
    ghost held: { Self → DotValue → (p : Place) → Option (Value p) };

    /// The store with no row.
    fn empty(alloc: Global) -> Self
        ensures { (d : DotValue) (p : Place) → held result d p ≡ None };

    /// Whether no row is there.
    fn is_empty(&self) -> bool
        ensures { IsTrue result ↔ ((d : DotValue) (p : Place) → held self.now d p ≡ None) };

    /// Whether the context has the dots of all rows.
    fn covered_by(&self, context: &CausalContext) -> bool
        ensures { IsTrue result ↔ ContextCovers context.now (held self.now) };

    /// The rows of two states together, each a store and the context that covers it: at each point the higher of
    /// the two, where a dot rises from unknown over present to gone, and the lesser of two values is the higher.
    /// An `Err` is want of memory.
    fn joined_under(
        &self,
        alloc: Global,
        mine: &CausalContext,
        other: &Self,
        theirs: &CausalContext,
    ) -> Result<Self, AllocError>
        requires mine { ContextCovers mine.now (held self.now) }
        requires theirs { ContextCovers theirs.now (held other.now) }
        ensures { IfOk result (λ r. AreJoinedRows lesser mine.now (held self.now) theirs.now (held other.now) (held r)) };

    /// Whether each point is at most as high as in the other state, which knows all dots of this one.
    fn leq_under(&self, mine: &CausalContext, other: &Self, theirs: &CausalContext) -> bool
        requires mine { ContextCovers mine.now (held self.now) }
        requires theirs { ContextCovers theirs.now (held other.now) }
        requires within { IsWithinContext mine.now theirs.now }
        ensures { IsTrue result ↔ AreRowsBelow lesser mine.now (held self.now) theirs.now (held other.now) };

    /// Takes away the rows of these dots, and no others.
    fn retract(&mut self, dots: &[Dot])
        ensures { (d : DotValue) (p : Place) → held self.new d p ≡ (if among dot_cmp dots.now d then None else held self.old d p) };

    // The value that stays doesn't depend on the order in which values are met.
    ghost lesser_laws: { (p : Place) → JoinLaws (lesser p) };
}
