//! Faults of images, as faults of a job.

ghost use Rattle.std.specs.Prelude.{◌≡◌};
ghost use Rattle.sup_inspecting.specs.Faults.{fault_of};

use sup_jobs::{Fault, ImageFault};
use sup_wire::WireFault;

/// The fault that ends a job whose input is no image for this one.
pub fn fault_of(fault: WireFault) -> Fault
    ensures { result ≡ fault_of fault }
{
    match fault {
        WireFault::NotJson => Fault::BadImage(ImageFault::NotJson),
        WireFault::NotMessage => Fault::BadImage(ImageFault::NotMessage),
        WireFault::BadVersion => Fault::BadImage(ImageFault::BadVersion),
        WireFault::NotCanonical => Fault::BadImage(ImageFault::NotCanonical),
        WireFault::OutOfMemory => Fault::OutOfMemory,
    }
}
