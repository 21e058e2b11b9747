//! What a step tells of nodes and of children.

ghost use Rattle.std.specs.Prelude.{◌≡◌, ◌++◌, ◌∷◌, [], IfOk, OnOk, map};
ghost use Rattle.sup_noting.specs.Turns.{change_at, effect_at, run_of, turns_by, turns_of};

use std::alloc::{AllocError, Global};
use sup_local_sup::{Effect, Incarnation};
use sup_model::Step;
use sup_picture::{Change, ChildRun, Turn};
use sup_replica::{Act, Event};
use sup_specs::{ChildId, NodeName, Plain};

/// Adds what a step that isn't refused is to its node: it stops or runs again, or a run of a child has ended.
pub fn add_turn(
    alloc: Global,
    changes: &mut Vec<Change>,
    step: &Step,
    row: u64,
) -> Result<(), AllocError>
    ensures { OnOk result (changes.new.items ≡ changes.old.items ++ turns_of row step.now) }
{
    match step {
        Step::Node { at, act, .. } => match act {
            Act::Stop => add_change(changes, at, Turn::Down, row),
            Act::Restart => add_change(changes, at, Turn::Up, row),
            Act::Event(event) => add_end(alloc, changes, at, event, row),
        },
        Step::Deliver { .. } | Step::Raw { .. } => Ok(()),
    }
}

// Adds that a run of a child has ended, if that is what happened.
fn add_end(
    alloc: Global,
    changes: &mut Vec<Change>,
    at: &NodeName,
    event: &Event,
    row: u64,
) -> Result<(), AllocError>
    ensures { OnOk result (changes.new.items ≡ changes.old.items ++ turns_by row at.now event.now) }
{
    match event {
        Event::Exit { id, inc, .. } => {
            let run = run_of(alloc, id, inc)?;
            add_change(changes, at, Turn::Ended(run), row)
        }
        Event::Join(_)
        | Event::Leave(_)
        | Event::Drain(_)
        | Event::Start(_, _)
        | Event::Delete(_)
        | Event::Replace(_, _)
        | Event::Register(_, _)
        | Event::Unregister(_)
        | Event::Ship(_)
        | Event::Push(_)
        | Event::Deliver(_) => Ok(()),
    }
}

/// Adds what is to be done at a node, in its order.
pub fn add_effects(
    alloc: Global,
    changes: &mut Vec<Change>,
    at: &NodeName,
    effects: &[Effect],
    row: u64,
) -> Result<(), AllocError>
    ensures { OnOk result (changes.new.items ≡ changes.old.items ++ map (effect_at row at.now) effects.now) }
{
    for effect in effects {
        add_effect(alloc, changes, at, effect, row)?;
    }
    Ok(())
}

/// Adds what is to be done, each at its node, in its order.
pub fn add_effects_of(
    alloc: Global,
    changes: &mut Vec<Change>,
    effects: &[(NodeName, Effect)],
    row: u64,
) -> Result<(), AllocError>
    ensures { OnOk result (changes.new.items ≡ changes.old.items ++ map (λ e. effect_at row e.0 e.1) effects.now) }
{
    for (at, effect) in effects {
        add_effect(alloc, changes, at, effect, row)?;
    }
    Ok(())
}

// Adds an effect at a node.
fn add_effect(
    alloc: Global,
    changes: &mut Vec<Change>,
    at: &NodeName,
    effect: &Effect,
    row: u64,
) -> Result<(), AllocError>
    ensures { OnOk result (changes.new.items ≡ changes.old.items ++ effect_at row at.now effect.now ∷ []) }
{
    match effect {
        Effect::Start { id, inc, .. } => {
            let run = run_of(alloc, id, inc)?;
            add_change(changes, at, Turn::Began(run), row)
        }
        Effect::Stop { id, inc } => {
            let run = run_of(alloc, id, inc)?;
            add_change(changes, at, Turn::Ended(run), row)
        }
    }
}

// Adds a turn at a node.
fn add_change(
    changes: &mut Vec<Change>,
    at: &NodeName,
    turn: Turn,
    row: u64,
) -> Result<(), AllocError>
    ensures { OnOk result (changes.new.items ≡ changes.old.items ++ change_at row at.now turn ∷ []) }
{
    changes.push(Change {
        node: *at,
        turn,
        row,
    })?;
    Ok(())
}

// A run of a child.
fn run_of(alloc: Global, id: &ChildId, inc: &Incarnation) -> Result<ChildRun, AllocError>
    ensures { IfOk result (λ run. run ≡ run_of id.now inc.now) }
{
    let child = id.try_clone(alloc)?;
    Ok(ChildRun {
        child,
        boot: inc.boot,
        k: inc.k,
    })
}
