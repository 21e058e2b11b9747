//! Dots and contexts.
ghost use Rattle.std.specs.Prelude.{◌≡◌, OnOk, codes};
ghost use Rattle.std.specs.List.{AllByRecursion};
ghost use Rattle.serde_json.specs.Data.{object};
ghost use Rattle.sup_wire.specs.Forms.{dot_value, vector_members, context_value, IsName};
ghost use Rattle.sup_wire.specs.Writing.{AddsTokens, tokens_of, array_of, parts_lent};

use crate::writing::fields::number_field;
use crate::writing::lending::LentParts;
use json::Writer;
use std::alloc::AllocError;
use sup_causal::Dot;
use sup_specs::NodeName;

// A dot.
pub(crate) fn write_dot(out: &mut Writer, dot: &Dot) -> Result<(), AllocError>
    ensures formed { OnOk result (IsName dot.now.node) }
    ensures adds { OnOk result (AddsTokens out.old out.new (tokens_of (dot_value dot.now))) }
{
    out.begin_array()?;
    out.string(dot.node.as_str())?;
    out.u64(dot.counter)?;
    out.end_array()
}

// The dots of a cloud.
fn write_cloud(out: &mut Writer, cloud: &[Dot]) -> Result<(), AllocError>
    ensures formed { OnOk result (AllByRecursion (λ d. IsName d.node) cloud.now) }
    ensures adds { OnOk result (AddsTokens out.old out.new (tokens_of (array_of dot_value cloud.now))) }
{
    out.begin_array()?;
    for dot in cloud {
        write_dot(out, dot)?;
    }
    out.end_array()
}

// The entries of a vector.
fn write_vector(out: &mut Writer, vector: &[(NodeName, u64)]) -> Result<(), AllocError>
    ensures formed { OnOk result (AllByRecursion (λ e. IsName e.0) vector.now) }
    ensures adds { OnOk result (AddsTokens out.old out.new (tokens_of (object (vector_members vector.now)))) }
{
    out.begin_object()?;
    for note in vector {
        number_field(out, note.0.as_str(), note.1)?;
    }
    out.end_object()
}

// A context.
pub(crate) fn write_context(out: &mut Writer, parts: &LentParts<'_>) -> Result<(), AllocError>
    ensures vector { OnOk result (AllByRecursion (λ e. IsName e.0) parts.now.vector.items) }
    ensures cloud { OnOk result (AllByRecursion (λ d. IsName d.node) parts.now.cloud.items) }
    ensures adds { OnOk result (AddsTokens out.old out.new (tokens_of (context_value (parts_lent parts.now)))) }
{
    out.begin_object()?;
    out.key("cloud")?;
    write_cloud(out, &parts.cloud)?;
    out.key("vector")?;
    write_vector(out, &parts.vector)?;
    out.end_object()
}
