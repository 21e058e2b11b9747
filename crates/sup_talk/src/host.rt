//! Who says lines and is told their answers.

ghost use Rattle.sup_talk.specs.Hosts.{Seen, Hears, IsTold};

use crate::line::{LINE_LIMIT, LineFault, Taken};
use std::alloc::Global;
use sup_jobs::DeviceFault;

/// Says lines, and is told answers, each beside a keeper: what keeps what the answer speaks of. A contract sees what it has left to say, what
/// it was told, and in which order it was heard and told, and with which keeper, as far as an implementation tells it; and whether it is
/// broken.
pub trait Host<K> {
    // What is known of it.
    ghost seen: { Self → Seen K };

    /// Hears its next line, and shows it the keeper as it is while it's awaited.
    ///
    /// # Errors
    ///
    /// - `LineFault::Device` where it can't be heard any more.
    /// - `LineFault::OutOfMemory`.
    ///
    /// A front of a line may be gone then.
    fn hear(&mut self, alloc: Global, keeper: &K) -> Result<Taken, LineFault>
        ensures { Hears LINE_LIMIT result (seen self.old) (seen self.new) keeper.now };

    /// Tells it a text, and shows it the keeper as it is then.
    ///
    /// # Errors
    ///
    /// Where it can't be told any more. It has got a front of the text then, and never all.
    fn tell(&mut self, text: &[u8], keeper: &K) -> Result<(), DeviceFault>
        ensures { IsTold result (seen self.old) (seen self.new) text.now keeper.now };
}
