//! Images.
use sup_specs::NodeName;
use sup_tables::Tables;

/// What a node keeps durably: its name, which boot it is in (from 1), its count of changes (from 0), and its tables.
/// Both numbers are at most [`MAX`](sup_specs::MAX): a text of another one is refused where it is read.
#[derive(Drop)]
pub struct Image {
    pub node: NodeName,
    pub boot: u64,
    pub count: u64,
    pub state: Tables,
}
