//! What is printed of a node: what it shows, what is told where it or its stored image is inspected, and where a name leads.
#![tactic(auto)]

mod cut;
pub mod inspect;
pub mod kept;
pub mod line;
pub mod losers;
pub mod place;
pub mod show;
pub mod tables;
pub mod whereis;

pub use inspect::{inspect_text, still_text};
pub use line::MemberLine;
pub use show::show_text;
pub use tables::tables_text;
pub use whereis::where_text;
