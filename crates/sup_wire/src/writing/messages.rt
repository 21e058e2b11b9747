//! Whole messages.
ghost use Rattle.std.specs.Prelude.{◌<◌, ◌^◌, OnOk};
ghost use Rattle.sup_wire.specs.Drafts.{Draft, ack, push, delta, IsDraftOf, IsWholeMessage};
ghost use Rattle.sup_wire.specs.Faults.{IsInRange};
ghost use Rattle.sup_wire.specs.Forms.{value_of, IsName, AreWritten};
ghost use Rattle.sup_wire.specs.Writing.{AddsTokens, WritesDraft, tokens_of, sender_tokens, last_tokens, parts_lent};

use crate::message::Message;
use crate::writing::context::write_context;
use crate::writing::fields::{number_field, text_field, version_field};
use crate::writing::lending::{LentParts, lent_parts, lent_rows};
use crate::writing::rows::write_rows;
use json::Writer;
use std::alloc::AllocError;
use sup_specs::NodeName;

// The fields of the sender and of the kind.
fn sender_fields(out: &mut Writer, from: &NodeName, kind: &str) -> Result<(), AllocError>
    ensures name { OnOk result (IsName from.now) }
    ensures adds { OnOk result (AddsTokens out.old out.new (sender_tokens from.now kind.now)) }
{
    text_field(out, "from", from.as_str())?;
    text_field(out, "kind", kind)
}

// The last fields, of the receiver and of the version, and the end of the object.
fn last_fields(out: &mut Writer, to: &NodeName) -> Result<(), AllocError>
    ensures name { OnOk result (IsName to.now) }
    ensures adds { OnOk result (AddsTokens out.old out.new (last_tokens to.now)) }
{
    text_field(out, "to", to.as_str())?;
    version_field(out)?;
    out.end_object()
}

// An acknowledgement.
fn write_ack(out: &mut Writer, from: &NodeName, to: &NodeName, n: u64) -> Result<(), AllocError>
    ensures fits { n < 2 ^ 64 }
    ensures from { OnOk result (IsName from.now) }
    ensures to { OnOk result (IsName to.now) }
    ensures adds { OnOk result (AddsTokens out.old out.new (tokens_of (value_of (ack from.now to.now n)))) }
{
    out.begin_object()?;
    sender_fields(out, from, "ack")?;
    number_field(out, "n", n)?;
    last_fields(out, to)
}

// A push.
fn write_push(
    out: &mut Writer,
    from: &NodeName,
    to: &NodeName,
    parts: &LentParts<'_>,
) -> Result<(), AllocError>
    ensures from { OnOk result (IsName from.now) }
    ensures to { OnOk result (IsName to.now) }
    ensures written { OnOk result (AreWritten (parts_lent parts.now)) }
    ensures adds { OnOk result (AddsTokens out.old out.new (tokens_of (value_of (push from.now to.now (parts_lent parts.now))))) }
{
    out.begin_object()?;
    out.key("ctx")?;
    write_context(out, parts)?;
    sender_fields(out, from, "push")?;
    out.key("rows")?;
    write_rows(out, parts.rows)?;
    last_fields(out, to)
}

// A delta.
fn write_delta(
    out: &mut Writer,
    from: &NodeName,
    to: &NodeName,
    n: u64,
    parts: &LentParts<'_>,
) -> Result<(), AllocError>
    ensures fits { n < 2 ^ 64 }
    ensures from { OnOk result (IsName from.now) }
    ensures to { OnOk result (IsName to.now) }
    ensures written { OnOk result (AreWritten (parts_lent parts.now)) }
    ensures adds { OnOk result (AddsTokens out.old out.new (tokens_of (value_of (delta from.now to.now n (parts_lent parts.now))))) }
{
    out.begin_object()?;
    out.key("ctx")?;
    write_context(out, parts)?;
    sender_fields(out, from, "delta")?;
    number_field(out, "n", n)?;
    out.key("rows")?;
    write_rows(out, parts.rows)?;
    last_fields(out, to)
}

// A message.
pub(crate) fn write_message(out: &mut Writer, message: &Message) -> Result<(), AllocError>
    ensures draft { OnOk result (WritesDraft IsDraftOf IsInRange out.old out.new message.now) }
    ensures whole { OnOk result (IsWholeMessage message.now) }
{
    match message {
        Message::Ack { from, to, n } => write_ack(out, from, to, *n),
        Message::Push { from, to, delta } => {
            let rows = lent_rows(delta)?;
            let parts = lent_parts(delta.context(), &rows)?;
            write_push(out, from, to, &parts)
        }
        Message::Delta { from, to, n, delta } => {
            let rows = lent_rows(delta)?;
            let parts = lent_parts(delta.context(), &rows)?;
            write_delta(out, from, to, *n, &parts)
        }
    }
}
