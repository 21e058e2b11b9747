//! Copies of effects.
ghost use Rattle.std.specs.Prelude.{◌≡◌, IfOk};

use std::alloc::{AllocError, Global};
use sup_local_sup::Effects;

// The same effects once more.
pub(crate) fn effects_copy(alloc: Global, effects: &Effects) -> Result<Effects, AllocError>
    ensures { IfOk result (λ copy. copy ≡ effects.now) }
{
    let mut copy = Vec::with_capacity(alloc, effects.as_slice().len())?;
    for effect in effects.as_slice() {
        copy.push(effect.try_clone(alloc)?)?;
    }
    Ok(Effects::new(copy))
}
