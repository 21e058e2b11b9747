//! What is kept under an id, behind a pointer: when one goes, a map moves all that stand behind it, and so moves little.
ghost use Rattle.std.specs.Prelude.{◌≡◌, IfOk};

use crate::effect::Incarnation;
use crate::kept::Entry;
use std::alloc::{AllocError, Global};
use std::marker::Model;

// A contract sees the entry.
#[derive(Drop)]
pub(crate) struct KeptEntry {
    entry: Box<Entry>,
}

impl Model for KeptEntry {
    ghost use Rattle.sup_local_sup.specs.declared.kept.Entry.{Entry as EntryValue};

    ghost Value = { EntryValue };

    ghost view = { λ e. e.entry.value };
}

impl KeptEntry {
    pub(crate) fn new(alloc: Global, entry: Entry) -> Result<KeptEntry, AllocError>
        ensures { IfOk result (λ e. e ≡ entry) }
    {
        let entry = Box::new(alloc, entry)?;
        Ok(KeptEntry { entry })
    }

    pub(crate) fn entry(&self) -> &Entry
        ensures { result.now ≡ self.now }
    {
        &self.entry
    }

    // Puts another run in the place of the last one.
    pub(crate) fn renew(&mut self, inc: Incarnation)
        ensures { self.new ≡ record self.old { inc = inc } }
    {
        self.entry.inc = inc;
    }
}
