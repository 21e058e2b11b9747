//! What a run gives back.
ghost use Rattle.std.specs.Prelude.{◌≡◌};

use std::marker::Model;
use sup_node_gate::Entry;
use sup_specs::NodeName;

/// What happened at a node, in its order.
#[derive(Drop)]
pub struct History {
    pub node: NodeName,
    pub entries: Vec<Entry>,
}

/// The histories of a run's nodes, in the plan's order of these. A contract sees them as a list.
#[derive(Drop)]
pub struct Histories {
    histories: Vec<History>,
}

impl Model for Histories {
    ghost use Rattle.std.specs.Prelude.{List};
    ghost use Rattle.sup_plan.specs.declared.histories.History.{History};

    ghost Value = { List History };

    ghost view = { λ h. h.histories.items };
}

impl Histories {
    /// These histories.
    pub fn new(histories: Vec<History>) -> Histories
        ensures { result ≡ histories.items }
    {
        Histories { histories }
    }

    /// The histories, in their order.
    pub fn as_slice(&self) -> &[History]
        ensures { result.now ≡ self.now }
    {
        &self.histories
    }

    /// The histories, in their order, to be changed.
    pub fn into_vec(self) -> Vec<History>
        ensures { result.items ≡ self }
    {
        let Histories { histories } = self;
        histories
    }
}
