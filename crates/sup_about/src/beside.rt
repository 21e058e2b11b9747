//! What stands beside a program: the line of whatever built it.

ghost use Rattle.std.specs.Prelude.{ℕ, List, Option, option_map};

use std::alloc::Global;
use std::env;
use std::fs::File;
use sup_jobs::read_input;

/// Where the line may stand that whatever built a program wrote of it: its name, its version, the kit, and whether it is proved.
pub trait Beside: Drop {
    // What may be found there.
    ghost may_be: { Self → Option (List ℕ) → Type 0 };

    /// What is found there, or None where there is nothing, it can't be read, or memory is refused.
    fn find(self, alloc: Global) -> Option<Vec<u8>>
        ensures { may_be self (option_map (λ bytes. bytes.items) result) };
}

/// The file whose name is the running program's with `.version` behind it.
#[derive(Drop)]
pub struct SystemBeside<'a> {
    pub rt: &'a HostRuntime,
}

impl Beside for SystemBeside<'_> {
    // What files there are is trusted.
    ghost may_be = { λ _ _. Unit {0} };

    fn find(self, alloc: Global) -> Option<Vec<u8>> {
        let program = env::current_exe(self.rt).ok()?;
        let path = format!(in alloc; "{}.version", program.as_str()).ok()?;
        let mut file = File::open(self.rt, path.as_str()).ok()?;
        read_input(alloc, &mut file).ok()
    }
}
