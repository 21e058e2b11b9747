//! A look at a stored image.
ghost use Rattle.std.specs.Prelude.{IfOk, IfErr};
ghost use Rattle.sup_wire.specs.declared.image.Image.{Image};
ghost use Rattle.sup_wire.specs.Drafts.{IsDraftOfImage, IsWholeImage, SaysImage};
ghost use Rattle.sup_wire.specs.Faults.{IsFault, IsOrMemory, TextSays};

use std::alloc::Global;
use sup_wire::WireFault;

/// What a node had stored, as [`sup_still::Still::read`] reads it: no boot is begun.
///
/// # Errors
///
/// As there.
pub fn still(alloc: Global, text: &[u8]) -> Result<sup_still::Still, WireFault>
    ensures ok { IfOk result (λ s. TextSays IsDraftOfImage text.now s) }
    ensures whole { IfOk result IsWholeImage }
    ensures only { (i : Image) → IsWholeImage i → TextSays IsDraftOfImage text.now i → IsOrMemory i result }
    ensures fault { IfErr result (IsFault SaysImage text.now) }
{
    sup_still::Still::read(alloc, text)
}
