//! A list of rows, cut into functions under keys.

ghost use Rattle.std.specs.Prelude.{◌≡◌, [], ◌∷◌, ◌++◌, IfOk, IfSome, IfNone};
ghost use Rattle.std.specs.List.{AllByRecursion};
ghost use Rattle.std.specs.List.Sorted.{IsStrictlySortedBy};
ghost use Rattle.sup_dot_store.specs.RowLists.{rows_of, row_cmp, EndsOffKey, IsLastRun, HasValue};

use crate::dot_fun::DotFun;
use crate::short_values::ShortValues;
use std::alloc::{AllocError, Global};
use std::collections::BTreeMap;
use sup_causal::Dot;
use sup_specs::Plain;

/// The functions under keys that have these rows. An `Err` is want of memory.
pub fn functions_of<K: Plain, V: Plain>(
    alloc: Global,
    mut rows: Vec<(K, Dot, V)>,
) -> Result<BTreeMap<K, DotFun<V>>, AllocError>
    requires { IsStrictlySortedBy (row_cmp K.cmp) rows.items }
    ensures rows { IfOk result (λ stores. rows_of stores.entries ≡ rows.items) }
    ensures some { IfOk result (λ stores. AllByRecursion HasValue stores.entries) }
{
    let mut stores = BTreeMap::new(alloc);
    while let Some((key, function)) = last_run(alloc, &mut rows)? {
        stores.insert(key, function)?;
    }
    Ok(stores)
}

// Takes the rows of the last key, from the end, so that no other row has to move.
fn last_run<K: Plain, V: Plain>(
    alloc: Global,
    rows: &mut Vec<(K, Dot, V)>,
) -> Result<Option<(K, DotFun<V>)>, AllocError>
    requires { IsStrictlySortedBy (row_cmp K.cmp) rows.old.items }
    ensures some { IfOk result (λ run. IfSome run (λ r. IsLastRun K.cmp rows.old.items rows.new.items r.0 r.1)) }
    ensures none { IfOk result (λ run. IfNone run (rows.old.items ≡ [])) }
{
    let Some((key, dot, value)) = rows.pop() else {
        return Ok(None);
    };
    let mut falling = Vec::with_capacity(alloc, 1)?;
    falling.push((dot, value))?;
    while let Some((dot, value)) = pop_under(rows, &key) {
        falling.push((dot, value))?;
    }
    let values = ShortValues::of_falling(falling);
    Ok(Some((key, DotFun::of(values))))
}

// Takes the last row, where it is of the key.
fn pop_under<K: Plain, V: Plain>(rows: &mut Vec<(K, Dot, V)>, key: &K) -> Option<(Dot, V)>
    ensures some { IfSome result (λ r. rows.old.items ≡ rows.new.items ++ (key.now, r.0, r.1) ∷ []) }
    ensures off { IfNone result (EndsOffKey K.cmp key.now rows.new.items) }
    ensures none { IfNone result (rows.new.items ≡ rows.old.items) }
{
    if rows.last()?.0 != *key {
        return None;
    }
    let (_, dot, value) = rows.pop()?;
    Some((dot, value))
}
