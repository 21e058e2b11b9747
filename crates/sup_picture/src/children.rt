//! The children that a picture shows.

ghost use Rattle.std.specs.Prelude.{◌≡◌, IfOk, OnOk, bytes_eq};
ghost use Rattle.std.specs.List.{list_any};
ghost use Rattle.sup_picture.specs.Children.{children_of, with_child};

use crate::bars::Bar;
use std::alloc::{AllocError, Global};
use sup_specs::{ChildId, Plain};

/// The children that have bars, each once, in the order of their first bars.
///
/// # Errors
///
/// `AllocError` where memory was refused.
pub fn children_of(alloc: Global, bars: &[Bar]) -> Result<Vec<ChildId>, AllocError>
    ensures { IfOk result (λ children. children.items ≡ children_of bars.now) }
{
    let mut children = Vec::new(alloc);
    let mut rest = bars;
    while let [bar, later @ ..] = rest {
        add_child(alloc, &mut children, &bar.child)?;
        rest = later;
    }
    Ok(children)
}

// Adds a child that isn't there.
fn add_child(alloc: Global, children: &mut Vec<ChildId>, child: &ChildId) -> Result<(), AllocError>
    ensures { OnOk result (children.new.items ≡ with_child children.old.items child.now) }
{
    if !is_there(children.as_slice(), child) {
        let child = child.try_clone(alloc)?;
        children.push(child)?;
    }
    Ok(())
}

fn is_there(children: &[ChildId], child: &ChildId) -> bool
    ensures { result ≡ list_any (bytes_eq child.now) children.now }
{
    children.iter().any(|other| *child == *other)
}
