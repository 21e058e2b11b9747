//! What a line of a history is, by what it begins with.
ghost use Rattle.std.specs.Prelude.{◌≡◌};
ghost use Rattle.sup_history_text.specs.Kinds.{is_begin, kind_of};

const BEGIN: &[u8] = b"begin ";

const HEARD: &[u8] = b"<";

const TOLD: &[u8] = b">";

/// What a line of a history is.
#[derive(Clone, Copy, Debug, PartialEq, Eq)]
pub enum LineKind {
    /// `begin NAME WEIGH INTENSITY PERIOD BUFFER COUNT`: the node is about to be begun.
    Begin,
    /// `<LINE`: the node is about to hear this line.
    Heard,
    /// `>LINE`: the node told this line.
    Told,
    /// `>`: the node told the empty line that ends an answer.
    End,
    /// It stands in no history.
    Other,
}

/// What a line is.
pub fn kind_of(line: &[u8]) -> LineKind
    ensures { result ≡ kind_of line.now }
{
    if is_begin(line) {
        LineKind::Begin
    } else if line.starts_with(HEARD) {
        LineKind::Heard
    } else if !line.starts_with(TOLD) {
        LineKind::Other
    } else if line.len() == 1 {
        LineKind::End
    } else {
        LineKind::Told
    }
}

// Whether a line is a begin's.
pub(crate) fn is_begin(line: &[u8]) -> bool
    ensures { result ≡ is_begin line.now }
{
    line.starts_with(BEGIN)
}
