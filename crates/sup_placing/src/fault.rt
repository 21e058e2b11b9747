//! Faults of what is read, as faults of a job.

ghost use Rattle.std.specs.Prelude.{◌≡◌};
ghost use Rattle.sup_placing.specs.Faults.{fault_of};

use sup_jobs::Fault;
use sup_lines::ScriptFault;

/// The fault that ends a job whose input can't be read for this one.
pub fn fault_of(fault: ScriptFault) -> Fault
    ensures { result ≡ fault_of fault }
{
    match fault {
        ScriptFault::BadLine(number) => Fault::BadLine(number),
        ScriptFault::OutOfMemory => Fault::OutOfMemory,
    }
}
