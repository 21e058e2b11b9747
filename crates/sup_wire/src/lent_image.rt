//! Images that are lent.
use sup_causal::CausalContext;
use sup_specs::NodeName;
use sup_tables::LentRow;

// What is written of an image, lent. Numbers are as in [`Image`](crate::Image), and the rows stand in the order of tables.
#[derive(Drop)]
pub(crate) struct LentImage<'a> {
    pub(crate) node: NodeName,
    pub(crate) boot: u64,
    pub(crate) count: u64,
    pub(crate) context: &'a CausalContext,
    pub(crate) rows: Vec<LentRow<'a>>,
}
