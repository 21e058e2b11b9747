//! The rows of functions under keys, as a list.

ghost use Rattle.std.specs.Prelude.{◌≡◌, ◌++◌, ◌^◌, ◌-◌, min, length, IfOk, OnOk};
ghost use Rattle.sup_dot_store.specs.Contents.{values_of};
ghost use Rattle.sup_dot_store.specs.RowLists.{rows_of, rows_under};

use crate::dot_fun::DotFun;
use std::alloc::{AllocError, Global};
use std::collections::BTreeMap;
use sup_causal::Dot;
use sup_specs::Plain;

/// Copies of the rows, by key and then by dot.
pub fn copied_rows<K: Plain, V: Plain>(
    alloc: Global,
    stores: &BTreeMap<K, DotFun<V>>,
) -> Result<Vec<(K, Dot, V)>, AllocError>
    ensures { IfOk result (λ rows. rows.items ≡ rows_of stores.now.entries) }
{
    let mut rows = Vec::new(alloc);
    for (key, function) in stores {
        push_rows(alloc, &mut rows, key, function)?;
    }
    Ok(rows)
}

// Adds copies of the rows of one key.
fn push_rows<K: Plain, V: Plain>(
    alloc: Global,
    rows: &mut Vec<(K, Dot, V)>,
    key: &K,
    function: &DotFun<V>,
) -> Result<(), AllocError>
    ensures { OnOk result (rows.new.items ≡ rows.old.items ++ rows_under key.now (values_of function.now).entries) }
{
    for (dot, value) in function.values() {
        rows.push((key.try_clone(alloc)?, *dot, value.try_clone(alloc)?))?;
    }
    Ok(())
}

/// How many rows there are. `usize::MAX` also stands for more.
pub fn count_rows<K: Plain, V: Plain>(stores: &BTreeMap<K, DotFun<V>>) -> usize
    ensures { result ≡ min (length (rows_of stores.now.entries)) (2 ^ 64 - 1) }
{
    let mut count: usize = 0;
    for (_, function) in stores {
        count = count.saturating_add(function.values().len());
    }
    count
}
