//! Places of children as texts, and where names lead.

ghost use Rattle.std.specs.Prelude.{Some};
ghost use Rattle.sup_node.specs.Contents.{where_told};
ghost use Rattle.sup_node_text.specs.Lines.{lead_text, place_text};

use std::fmt;
use sup_node::Whereis;
use sup_specs::NodeName;

// Where a child is.
#[derive(Clone, Copy)]
pub(crate) struct PlaceText(pub(crate) Option<NodeName>);

impl fmt::Display for PlaceText {
    ghost output = { λ p. Some (place_text p.0) };

    fn fmt<W: fmt::Write>(&self, f: &mut fmt::Formatter<W>) -> fmt::Result {
        match self.0 {
            None => write!(f, "unplaced"),
            Some(member) => {
                let member = member.as_str();
                write!(f, "on {member}")
            }
        }
    }
}

// Where a name leads.
#[derive(Clone, Copy)]
pub(crate) struct LeadText<'a>(pub(crate) Whereis<'a>);

impl fmt::Display for LeadText<'_> {
    ghost output = { λ l. Some (lead_text (where_told l.0)) };

    fn fmt<W: fmt::Write>(&self, f: &mut fmt::Formatter<W>) -> fmt::Result {
        match self.0 {
            Whereis::Unknown => write!(f, "unknown"),
            Whereis::Gone(id) => {
                let id = id.as_str();
                write!(f, "{id} gone")
            }
            Whereis::Unplaced(id) => {
                let id = id.as_str();
                write!(f, "{id} unplaced")
            }
            Whereis::On(id, member) => {
                let id = id.as_str();
                let member = member.as_str();
                write!(f, "{id} on {member}")
            }
        }
    }
}
