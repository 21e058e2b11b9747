//! What steps from a new world lead to.
ghost use Rattle.sup_world.specs.ReachedWorlds.{RunsLeadOn};

/// Where steps from a new world are a run of the model and the headline holds of what they led to, it is so with these steps
/// behind them, 2^64 - 1 in all at most.
pub fn steps_lead_on()
    ensures { RunsLeadOn }
{}
