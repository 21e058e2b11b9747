//! Saves of an image.
ghost use Rattle.std.specs.Prelude.{◌≡◌, IfErr, IfOk, OnOk, OnErr};
ghost use Rattle.sup_station.specs.Counts.{CountsSave};
ghost use Rattle.sup_station.specs.OpenedStations.{IsKeepRefusal, refusal_of};
ghost use Rattle.sup_station.specs.PreparedActs.{IsKept};

use std::alloc::{AllocError, Global};
use sup_array_text::ArrayText;
use sup_keeper::{KeepFault, Keeper};
use sup_replica::Refusal;
use sup_wire::Image;

// What a keeper's fault is told as.
pub(super) fn refusal(fault: KeepFault) -> Refusal
    ensures { result ≡ refusal_of fault }
{
    match fault {
        KeepFault::Failed => Refusal::KeepFailed,
        KeepFault::OutOfMemory => Refusal::OutOfMemory,
    }
}

// The text of an image, with the texts of its rows.
pub(super) fn text_of(alloc: Global, image: &Image) -> Result<ArrayText, AllocError>
    ensures { IfOk result (λ text. IsKept text image.now) }
{
    let text = sup_wire::text_of(alloc, image)?;
    Ok(text)
}

// Saves a text.
pub(super) fn save_text<K: Keeper>(keeper: &mut K, text: &[u8]) -> Result<(), Refusal>
    ensures leaves { OnOk result (K.kept keeper.new ≡ text.now) }
    ensures refused { OnErr result (K.kept keeper.new ≡ K.kept keeper.old) }
    ensures unput { OnErr result (K.found keeper.new ≡ K.found keeper.old) }
    ensures reason { IfErr result (λ r. IsKeepRefusal r) }
    ensures counts { CountsSave K.failures K.failing K.sound K.readable keeper.old keeper.new result }
{
    match keeper.save(text) {
        Ok(()) => Ok(()),
        Err(fault) => Err(refusal(fault)),
    }
}
