//! What comes of a run of the program.

ghost use Rattle.std.specs.Prelude.{◌≡◌, ◌≢◌, IfNone, IfSome};

#[derive(Drop)]
pub(crate) struct Outcome {
    /// The status in digits, and a line feed.
    pub(crate) status: String,
    pub(crate) output: Vec<u8>,
    pub(crate) errors: Vec<u8>,
}

/// A part in which an outcome isn't what is wanted.
#[derive(Clone, Copy)]
pub(crate) struct Difference<'a> {
    pub(crate) part: &'a str,
    pub(crate) wanted: &'a [u8],
    pub(crate) came: &'a [u8],
}

impl Outcome {
    ghost use Rattle.sup_rows.specs.Outcomes.{IsFirstDifference, IsSame, part_of, parts_of};

    /// The first part in which what came isn't this.
    pub(crate) fn difference<'a>(&'a self, came: &'a Outcome) -> Option<Difference<'a>>
        ensures none { IfNone result (IsSame self.now came.now) }
        ensures first { IfSome result (λ d. IsFirstDifference (parts_of self.now came.now) (part_of d)) }
    {
        let status = compare("status", self.status.as_bytes(), came.status.as_bytes());
        if status.is_some() {
            return status;
        }
        let output = compare("stdout", self.output.as_slice(), came.output.as_slice());
        if output.is_some() {
            return output;
        }
        compare("stderr", self.errors.as_slice(), came.errors.as_slice())
    }
}

// Tells of a part in which what came isn't what is wanted.
fn compare<'a>(part: &'a str, wanted: &'a [u8], came: &'a [u8]) -> Option<Difference<'a>>
    ensures none { IfNone result (wanted.now ≡ came.now) }
    ensures some { IfSome result (λ _. wanted.now ≢ came.now) }
    ensures part { IfSome result (λ d. d.part.now ≡ part.now) }
    ensures wanted { IfSome result (λ d. d.wanted.now ≡ wanted.now) }
    ensures came { IfSome result (λ d. d.came.now ≡ came.now) }
{
    if wanted == came {
        None
    } else {
        Some(Difference { part, wanted, came })
    }
}
