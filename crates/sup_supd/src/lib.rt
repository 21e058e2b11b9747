//! The program `supd` but for its `main`: from its arguments, its streams and its images to its status.
#![tactic(auto)]

pub mod images;
pub mod late;
pub mod leaves;
pub mod left;
pub mod locked;
pub mod node;
pub mod program;
pub mod settings;
pub mod unserved;

pub use images::{Images, SystemImages};
pub use late::LateReader;
pub use leaves::Leaves;
pub use left::Left;
pub use node::{run_filed, run_node};
pub use program::{Supd, run_given, run_supd};
pub use settings::{Settings, read_settings};
