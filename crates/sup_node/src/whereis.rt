//! Where a name leads.
use std::marker::Model;
use sup_specs::{ChildId, NodeName};

/// Where a name leads.
#[derive(Clone, Copy)]
pub enum Whereis<'a> {
    /// There is no such name.
    Unknown,
    /// Its child isn't there.
    Gone(&'a ChildId),
    /// Its child is there, and no member is open.
    Unplaced(&'a ChildId),
    /// Its child is placed on this member.
    On(&'a ChildId, NodeName),
}
