//! Versions of the forms.
ghost use Rattle.std.specs.Prelude.{◌≡◌, ◌≢◌, IfSome, IfNone};
ghost use Rattle.sup_wire.specs.Forms.{version_number};

/// A version of the JSON forms. Readers of what differs between versions take it; what is written is of version 2.
#[derive(Clone, Copy)]
pub enum Version {
    /// What is said of a member is its label, so it is open.
    One,
    /// What is said of a member is its label and its status.
    Two,
}

impl Version {
    // The version that has this number, if it is one that is read.
    pub(crate) fn of(number: u64) -> Option<Version>
        ensures some { IfSome result (λ v. version_number v ≡ number) }
        ensures none { IfNone result ((number ≢ 1) × (number ≢ 2)) }
    {
        match number {
            1 => Some(Version::One),
            2 => Some(Version::Two),
            _ => None,
        }
    }
}
