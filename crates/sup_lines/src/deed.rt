//! What a step does, before its endings say when.

use sup_model::Step;
use sup_replica::Act;
use sup_specs::NodeName;

/// What a step does, without its moment and without whether its save holds.
#[derive(Drop)]
pub enum Deed {
    /// A node is told to do this.
    At {
        node: NodeName,
        act: Act,
    },
    /// The k-th message of a node comes, to another node than its receiver where one is named, and
    /// without so many of its last bytes.
    Delivery {
        from: NodeName,
        k: u64,
        at: Option<NodeName>,
        drop: u64,
    },
}

impl Deed {
    ghost use Rattle.std.specs.Prelude.{◌≡◌};
    ghost use Rattle.sup_lines.specs.Endings.{step_at};

    /// The step that does this at a moment. Where a save would fail, `saves` is false.
    pub fn step(self, now: u64, saves: bool) -> Step
        ensures { result ≡ step_at now saves self }
    {
        match self {
            Deed::At { node, act } => Step::Node {
                at: node,
                act,
                now,
                saves,
            },
            Deed::Delivery { from, k, at, drop } => Step::Deliver {
                from,
                k,
                at,
                drop,
                now,
                saves,
            },
        }
    }
}
