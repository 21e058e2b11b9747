//! One node that runs: commands, exits, messages, and what it keeps.
#![tactic(auto)]

mod change;
mod delivering;
mod letters;
pub mod node;
mod opened;
pub mod opening;
mod placing;
pub mod planned;
mod planning;
mod reading;
mod replica;
mod shipping;
pub mod state;
pub mod whereis;

pub use node::Node;
pub use opening::OpenNode;
pub use planned::Planned;
pub use state::NodeState;
pub use whereis::Whereis;
