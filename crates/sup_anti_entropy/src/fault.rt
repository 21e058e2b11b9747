//! Why a call of the buffer is refused.
use thiserror::Error;

/// Why a delta isn't noted.
#[derive(Clone, Copy, Debug, PartialEq, Eq, Error)]
pub enum NoteFault {
    #[error("the count of changes is spent")]
    CountSpent,
}
