//! What is written of tables: vector and cloud of a context, and rows that are lent.
ghost use Rattle.std.specs.Prelude.{◌≡◌, IfOk};
ghost use Rattle.sup_tables.specs.Lent.{rows_lent};
ghost use Rattle.sup_tables.specs.States.{with_rows};
ghost use Rattle.sup_wire.specs.Drafts.{IsCut, IsWhole};
ghost use Rattle.sup_wire.specs.Writing.{parts_lent};

use std::alloc::AllocError;
use sup_causal::{CausalContext, Dot};
use sup_specs::NodeName;
use sup_tables::{LentRow, Tables};

// Vector and cloud of a context, and rows.
#[derive(Drop)]
pub(crate) struct LentParts<'a> {
    pub(crate) vector: Vec<(NodeName, u64)>,
    pub(crate) cloud: Vec<Dot>,
    pub(crate) rows: &'a [LentRow<'a>],
}

// The parts that a context and rows are written by.
pub(crate) fn lent_parts<'a>(
    context: &CausalContext,
    rows: &'a [LentRow<'a>],
) -> Result<LentParts<'a>, AllocError>
    ensures { IfOk result (λ p. IsCut (with_rows context.now (rows_lent rows.now)) (parts_lent p)) }
{
    let vector = context.vector()?;
    let cloud = context.cloud()?;
    Ok(LentParts {
        vector,
        cloud,
        rows,
    })
}

// The rows of tables.
pub(crate) fn lent_rows(tables: &Tables) -> Result<Vec<LentRow<'_>>, AllocError>
    ensures rows { IfOk result (λ rows. rows_lent rows.items ≡ tables.now.rows) }
    ensures whole { IfOk result (λ _. IsWhole tables.now) }
{
    // For the second clause.
    tables.context().counted();
    tables.lent_rows()
}
