//! The lines of winners.

ghost use Rattle.std.specs.Prelude.{Some};
ghost use Rattle.sup_node_text.specs.Lines.{child_line, member_line, status_text};

use crate::place::PlaceText;
use std::fmt;
use sup_causal::Dot;
use sup_specs::{ChildId, ChildSpec, MemberInfo, NodeName, Status};
use sup_text::{DotText, SpecText};

/// The line of a member.
#[derive(Clone, Copy)]
pub struct MemberLine<'a> {
    pub member: &'a NodeName,
    pub dot: Dot,
    pub info: &'a MemberInfo,
}

impl fmt::Display for MemberLine<'_> {
    ghost output = { λ l. Some (member_line l.member.now l.dot l.info.now) };

    fn fmt<W: fmt::Write>(&self, f: &mut fmt::Formatter<W>) -> fmt::Result {
        let member = self.member.as_str();
        let dot = DotText(self.dot);
        let status = StatusText(self.info.status);
        let label = self.info.label.as_str();
        write!(f, "member {member} {dot} {status}label={label}\n")
    }
}

// What is said of a member that isn't open, with a space behind it.
#[derive(Clone, Copy)]
struct StatusText(Status);

impl fmt::Display for StatusText {
    ghost output = { λ s. Some (status_text s.0) };

    fn fmt<W: fmt::Write>(&self, f: &mut fmt::Formatter<W>) -> fmt::Result {
        match self.0 {
            Status::Open => write!(f, ""),
            Status::Draining => write!(f, "draining "),
        }
    }
}

// The line of a child, and where it is.
#[derive(Clone, Copy)]
pub(crate) struct ChildLine<'a> {
    pub(crate) id: &'a ChildId,
    pub(crate) dot: Dot,
    pub(crate) spec: &'a ChildSpec,
    pub(crate) place: Option<NodeName>,
}

impl fmt::Display for ChildLine<'_> {
    ghost output = { λ l. Some (child_line l.id.now l.dot l.spec.now l.place) };

    fn fmt<W: fmt::Write>(&self, f: &mut fmt::Formatter<W>) -> fmt::Result {
        let id = self.id.as_str();
        let dot = DotText(self.dot);
        let spec = SpecText(self.spec);
        let place = PlaceText(self.place);
        write!(f, "child {id} {dot} {spec} {place}\n")
    }
}
