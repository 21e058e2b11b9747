//! Specifications of children as texts.

ghost use Rattle.std.specs.Prelude.{Some};
ghost use Rattle.sup_text.specs.Words.{restart_text, shutdown_text, spec_text};

use std::fmt;
use sup_specs::{ChildSpec, Restart, Shutdown};

/// A specification, as `worker permanent 5000 arg=`.
#[derive(Clone, Copy)]
pub struct SpecText<'a>(pub &'a ChildSpec);

impl fmt::Display for SpecText<'_> {
    ghost output = { λ s. Some (spec_text s.0.now) };

    fn fmt<W: fmt::Write>(&self, f: &mut fmt::Formatter<W>) -> fmt::Result {
        let kind = self.0.kind.as_str();
        let restart = RestartText(self.0.restart);
        let shutdown = ShutdownText(self.0.shutdown);
        let arg = self.0.arg.as_str();
        write!(f, "{kind} {restart} {shutdown} arg={arg}")
    }
}

/// A restart type.
#[derive(Clone, Copy)]
struct RestartText(Restart);

impl fmt::Display for RestartText {
    ghost output = { λ r. Some (restart_text r.0) };

    fn fmt<W: fmt::Write>(&self, f: &mut fmt::Formatter<W>) -> fmt::Result {
        match self.0 {
            Restart::Permanent => write!(f, "permanent"),
            Restart::Transient => write!(f, "transient"),
            Restart::Temporary => write!(f, "temporary"),
        }
    }
}

/// A shutdown.
#[derive(Clone, Copy)]
struct ShutdownText(Shutdown);

impl fmt::Display for ShutdownText {
    ghost output = { λ s. Some (shutdown_text s.0) };

    fn fmt<W: fmt::Write>(&self, f: &mut fmt::Formatter<W>) -> fmt::Result {
        match self.0 {
            Shutdown::Brutal => write!(f, "brutal_kill"),
            Shutdown::Millis(millis) => write!(f, "{millis}"),
            Shutdown::Infinity => write!(f, "infinity"),
        }
    }
}
