//! Scripts as they are read: the nodes, and the lines after them.
#![tactic(auto)]

mod commands;
mod deed;
mod endings;
mod events;
pub mod fault;
mod forms;
pub mod line;
mod numbered;
mod opening;
mod options;
mod script;
mod values;
mod words;

pub use fault::{LineFault, ScriptFault};
pub use line::Line;
pub use numbered::{NumberedLine, number_lines};
pub use opening::{MOST_NODES, read_distinct, read_nodes_within};
pub use options::value_after;
pub use script::{Script, read_script};
pub use values::{read_child_id, read_node_name, read_number};
pub use words::{plain_text, words_of};
