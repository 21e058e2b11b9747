//! What all threads of a run share.
use std::alloc::Global;
use sup_placement::Weigh;
use sup_posts::SharedNode;

/// The handle by which threads wait, where memory comes from, the nodes, how members are weighed, and who is told what happens.
#[derive(Drop)]
pub(crate) struct Field<'a, R, W: Weigh, N, C> {
    pub(crate) rt: &'a R,
    pub(crate) alloc: Global,
    pub(crate) posts: &'a [SharedNode<W>],
    pub(crate) weigher: &'a W,
    pub(crate) runner: &'a N,
    pub(crate) checkpoint: &'a C,
}
