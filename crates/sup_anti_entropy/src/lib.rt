//! Anti-entropy by delta intervals (Almeida, Shoker, Baquero 2018): what a node keeps so that a peer is sent what it lacks,
//! and, over any lattice, why that is enough. The texts of messages are another crate's.
#![tactic(auto)]

pub mod buffer;
pub mod fault;
pub mod laws;
pub mod shipment;

pub use buffer::Buffer;
pub use fault::NoteFault;
pub use shipment::Shipment;
