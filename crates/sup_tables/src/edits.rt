//! The rows that come and go once a plan is carried out, lent.
ghost use Rattle.std.specs.Prelude.{◌≡◌, ◌++◌, IfOk, OnOk};
ghost use Rattle.std.specs.Option.{option_copied};
ghost use Rattle.std.specs.BTreeMap.{IsOrdered};
ghost use Rattle.sup_indexed.specs.Contents.{functions_planned};
ghost use Rattle.sup_tables.specs.Rows.{AreInOrder};
ghost use Rattle.sup_tables.specs.States.{State, HasDotsOf};
ghost use Rattle.sup_tables.specs.Lent.{edits_lent, rows_edited};
ghost use Rattle.sup_tables.specs.Planned.{IsPlanFor};
ghost use Rattle.sup_tables.specs.Edits.{edits_at, gone_edits, planned_edits};

use crate::lent::LentRow;
use crate::planning::PlannedTables;
use crate::row::Entered;
use crate::tables::{Table, Tables};
use std::alloc::{AllocError, Global};
use sup_dot_store::{DotFun, ShortValues};
use sup_edits::Edit;
use sup_indexed::PlannedMap;
use sup_specs::Plain;

impl Tables {
    /// The rows that go and those that come once the plan is carried out, losers among them, by table and key. Of a key that the
    /// plan may change first all rows go, by dot, and then those come, by dot, that stand there then. No row is copied, and no
    /// other key is looked at. An `Err` where a growth was refused.
    pub fn lent_edits_after<'a>(
        &'a self,
        alloc: Global,
        plan: &'a PlannedTables,
    ) -> Result<Vec<Edit<LentRow<'a>>>, AllocError>
        requires { (new : State) × IsPlanFor plan.now self.now new }
        ensures rows { IfOk result (λ edits. (new : State) → IsPlanFor plan.now self.now new → new.rows ≡ rows_edited edits.items self.now.rows) }
        ensures in_order { IfOk result (λ edits. (new : State) → IsPlanFor plan.now self.now new → AreInOrder new.rows) }
        ensures covered { IfOk result (λ edits. (new : State) → IsPlanFor plan.now self.now new → HasDotsOf new.context new.rows) }
    {
        // For its clause: tables are in their one form.
        self.context();
        let store = self.stores();
        let mut edits = Vec::new(alloc);
        lend_edits(&mut edits, &store.first, &plan.members)?;
        lend_edits(&mut edits, &store.second.first, &plan.children)?;
        lend_edits(&mut edits, &store.second.second, &plan.names)?;
        Ok(edits)
    }
}

// Lends the edits of a table, behind those that are lent already.
fn lend_edits<'a, K: Plain, V: Entered<K>>(
    edits: &mut Vec<Edit<LentRow<'a>>>,
    table: &'a Table<K, V>,
    plan: &'a PlannedMap<K, V>,
) -> Result<(), AllocError>
    ensures ordered { OnOk result (IsOrdered K.cmp (functions_planned plan.now)) }
    ensures edits { OnOk result (edits_lent edits.new.items ≡ edits_lent edits.old.items ++ planned_edits V.says plan.now table.now) }
{
    for (key, function) in plan.functions() {
        lend_gone(edits, key, table.get(key))?;
        lend_edits_at(edits, key, function.values(), true)?;
    }
    Ok(())
}

// Lends the rows of a key as ones that go.
fn lend_gone<'a, K: Plain, V: Entered<K>>(
    edits: &mut Vec<Edit<LentRow<'a>>>,
    key: &'a K,
    function: Option<&'a DotFun<V>>,
) -> Result<(), AllocError>
    ensures { OnOk result (edits_lent edits.new.items ≡ edits_lent edits.old.items ++ gone_edits V.says key.now (option_copied function.entry)) }
{
    match function {
        None => Ok(()),
        Some(function) => lend_edits_at(edits, key, function.values(), false),
    }
}

// Lends the rows of a key, as ones that come or as ones that go.
fn lend_edits_at<'a, K, V: Entered<K>>(
    edits: &mut Vec<Edit<LentRow<'a>>>,
    key: &'a K,
    values: &'a ShortValues<V>,
    come: bool,
) -> Result<(), AllocError>
    ensures { OnOk result (edits_lent edits.new.items ≡ edits_lent edits.old.items ++ edits_at come V.says key.now values.now.entries) }
{
    for (dot, value) in values {
        let entry = V::lent(key, value);
        let row = LentRow { dot, entry };
        edits.push(if come {
            Edit::Comes(row)
        } else {
            Edit::Goes(row)
        })?;
    }
    Ok(())
}
