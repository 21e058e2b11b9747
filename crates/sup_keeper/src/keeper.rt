//! What keeps a node's image.
ghost use Rattle.std.specs.Prelude.{◌≡◌, ◌≢◌, ◌⊎◌, ◌<◌, ◌≤◌, ◌+◌, ℕ, Bool, true, Option, Some, IfOk, OnOk, OnErr, IsErr};
ghost use Rattle.sup_specs.specs.Values.{Bytes};
ghost use Rattle.sup_keeper.specs.declared.keeper.KeepFault.TheVariants.{Failed};

use std::alloc::AllocError;
use thiserror::Error;

/// Why a keeper refuses.
#[derive(Clone, Copy, Debug, PartialEq, Eq, Error)]
pub enum KeepFault {
    /// The bytes could not be kept or read. The keeper's count of failures has risen by then.
    #[error("the bytes could not be kept or read")]
    Failed,
    #[error("out of memory")]
    OutOfMemory,
}

impl From<AllocError> for KeepFault {
    ghost use Rattle.std.specs.Prelude.{◌≡◌};
    ghost use Rattle.sup_keeper.specs.declared.keeper.KeepFault.TheVariants.{OutOfMemory};

    ghost from_gives = { λ _ f. f ≡ OutOfMemory };

    fn from(_error: AllocError) -> KeepFault {
        KeepFault::OutOfMemory
    }
}

/// Keeps bytes, and counts how often it failed to, once a call at most. A contract sees the bytes, what stands where they are kept, and
/// the count, and three tests that may all answer no.
pub trait Keeper: Drop {
    // The bytes that are kept.
    ghost kept: { Self → Bytes };

    // What stands where they are kept. None says that nothing was put there yet, which keeps no bytes, as empty ones do; a keeper that
    // doesn't tell the two apart says that empty ones stand there.
    ghost found: { Self → Option Bytes };

    // How often it has failed.
    ghost failures: { Self → ℕ };

    // No save is answered with success.
    ghost failing: { Self → Bool };

    // No save fails but for memory.
    ghost sound: { Self → Bool };

    // No load fails but for memory.
    ghost readable: { Self → Bool };

    /// Keeps these bytes in place of the old ones.
    ///
    /// # Errors
    ///
    /// `Failed` where the count of failures rose in this call, and `OutOfMemory`. The old bytes are kept then.
    fn save(&mut self, bytes: &[u8]) -> Result<(), KeepFault>
        ensures leaves { OnOk result (kept self.new ≡ bytes.now) }
        ensures refused { OnErr result (kept self.new ≡ kept self.old) }
        ensures put { OnOk result (found self.new ≡ Some bytes.now) }
        ensures unput { OnErr result (found self.new ≡ found self.old) }
        ensures rose { result ≡ Err Failed → failures self.old < failures self.new }
        ensures told { failures self.old < failures self.new → result ≡ Err Failed }
        ensures never_falls { failures self.old ≤ failures self.new }
        ensures by_one { failures self.new ≤ failures self.old + 1 }
        ensures uncounted { OnOk result (failures self.new ≡ failures self.old) }
        ensures failing { failing self.old ≡ true → IsErr result }
        ensures sound { sound self.old ≡ true → result ≢ Err Failed }
        ensures stays_sound { sound self.old ≡ true → sound self.new ≡ true }
        ensures stays_readable { readable self.old ≡ true → readable self.new ≡ true }
        ensures steady { sound self.old ≡ true → failures self.new ≡ failures self.old };

    /// The bytes that are kept. They stay.
    ///
    /// # Errors
    ///
    /// `Failed` where the count of failures rose in this call, and `OutOfMemory`.
    fn load(&mut self) -> Result<Vec<u8>, KeepFault>
        ensures gives { IfOk result (λ bytes. bytes.items ≡ kept self.old) }
        ensures leaves { kept self.new ≡ kept self.old }
        ensures found { found self.new ≡ found self.old }
        ensures rose { result ≡ Err Failed → failures self.old < failures self.new }
        ensures told { failures self.old < failures self.new → result ≡ Err Failed }
        ensures never_falls { failures self.old ≤ failures self.new }
        ensures by_one { failures self.new ≤ failures self.old + 1 }
        ensures uncounted { OnOk result (failures self.new ≡ failures self.old) }
        ensures stays_failing { failing self.new ≡ failing self.old }
        ensures stays_sound { sound self.new ≡ sound self.old }
        ensures stays_readable { readable self.new ≡ readable self.old }
        ensures failing { failing self.old ≡ true → result ≢ Err Failed }
        ensures sound { sound self.old ≡ true → result ≢ Err Failed }
        ensures readable { readable self.old ≡ true → result ≢ Err Failed }
        ensures steady { (failing self.old ≡ true) ⊎ (sound self.old ≡ true) → failures self.new ≡ failures self.old };

    /// How often a save or a load has failed.
    fn failures(&self) -> u64
        ensures { result ≡ failures self.now };
}
