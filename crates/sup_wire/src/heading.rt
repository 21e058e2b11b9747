//! What is written of an image before its rows.
use sup_causal::CausalContext;
use sup_specs::NodeName;

/// An image but for its rows, lent. Numbers are as in [`Image`](crate::Image).
#[derive(Drop)]
pub struct Heading<'a> {
    pub node: NodeName,
    pub boot: u64,
    pub count: u64,
    pub context: &'a CausalContext,
}
