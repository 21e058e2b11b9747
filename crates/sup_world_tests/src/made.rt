//! Steps of a world, made as its condition wants it: none brings bytes by itself.
ghost use Rattle.std.specs.Prelude.{◌≡◌, All, false};
ghost use Rattle.sup_world.specs.CarriedSteps.{has_bytes};

use std::alloc::AllocError;
use std::process::Abort;
use sup_model::Step;
use sup_placement::FlatWeigh;
use sup_replica::Refusal;
use sup_world::{Answer, Answers, World, has_bytes};

/// Makes a step.
pub(crate) fn made(
    rt: &impl Abort,
    world: &mut World<FlatWeigh>,
    step: &Step,
) -> Result<Answer, Refusal> {
    expect_no_bytes(rt, step);
    world.step(step)
}

/// Makes the steps in one run.
pub(crate) fn ran(
    rt: &impl Abort,
    world: &mut World<FlatWeigh>,
    steps: &[Step],
) -> Result<Answers, AllocError> {
    expect_none_has_bytes(rt, steps);
    world.run(steps)
}

fn expect_none_has_bytes(rt: &impl Abort, steps: &[Step])
    ensures { All (λ step. has_bytes step ≡ false) steps.now }
{
    for step in steps {
        expect_no_bytes(rt, step);
    }
}

fn expect_no_bytes(rt: &impl Abort, step: &Step)
    ensures { has_bytes step.now ≡ false }
{
    assert!(rt; !has_bytes(step));
}
