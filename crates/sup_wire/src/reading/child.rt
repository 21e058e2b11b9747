//! What children are, and what is said of members.
ghost use Rattle.std.specs.Prelude.{◌≡◌};
ghost use Rattle.serde_json.specs.View.{view};
ghost use Rattle.sup_wire.specs.FieldReads.{has_just, ReadGives};
ghost use Rattle.sup_wire.specs.RowReads.{restart_at, shutdown_at, restart_in, shutdown_in, spec_in, spec_fields, spec_at, status_at, status_in, info_in, info_at};

use crate::fault::WireFault;
use crate::reading::fields::{has_just, within};
use crate::reading::texts::{kind_in, text_in};
use crate::version::Version;
use serde_json::Value;
use std::alloc::Global;
use sup_specs::{ChildSpec, MemberInfo, Restart, Shutdown, Status};

// The restart type.
#[tactic(auto, unfolding(crate::specs::RowReads::restart_at))]
fn restart_of(value: &Value) -> Option<Restart>
    ensures { result ≡ restart_at (view value.now) }
{
    match value.as_str()? {
        "permanent" => Some(Restart::Permanent),
        "transient" => Some(Restart::Transient),
        "temporary" => Some(Restart::Temporary),
        _ => None,
    }
}

// How a child is ended.
#[tactic(auto, unfolding(crate::specs::RowReads::shutdown_at, crate::specs::FieldReads::within_at))]
fn shutdown_of(value: &Value) -> Option<Shutdown>
    ensures { result ≡ shutdown_at (view value.now) }
{
    match value.as_str() {
        Some("brutal_kill") => Some(Shutdown::Brutal),
        Some("infinity") => Some(Shutdown::Infinity),
        Some(_) => None,
        None => {
            let millis = within(value, 0, 4_294_967_295)?;
            Some(Shutdown::Millis(u32::try_from(millis).ok()?))
        }
    }
}

// The restart type in its field.
#[tactic(auto, unfolding(crate::specs::RowReads::restart_in))]
fn restart_in(value: &Value) -> Option<Restart>
    ensures { result ≡ restart_in (view value.now) }
{
    restart_of(value.get("restart")?)
}

// How a child is ended, in its field.
#[tactic(auto, unfolding(crate::specs::RowReads::shutdown_in))]
fn shutdown_in(value: &Value) -> Option<Shutdown>
    ensures { result ≡ shutdown_in (view value.now) }
{
    shutdown_of(value.get("shutdown")?)
}

// What the fields of an object say of a child.
#[tactic(auto, unfolding(crate::specs::RowReads::spec_in))]
fn spec_in(alloc: Global, value: &Value) -> Result<ChildSpec, WireFault>
    ensures { ReadGives result (spec_in (view value.now)) }
{
    let arg = text_in(alloc, value, "arg")?;
    let kind = kind_in(alloc, value, "kind")?;
    let restart = restart_in(value).ok_or(WireFault::NotMessage)?;
    let shutdown = shutdown_in(value).ok_or(WireFault::NotMessage)?;
    Ok(ChildSpec {
        kind,
        arg,
        restart,
        shutdown,
    })
}

// Whether a value has just the fields of a child.
#[tactic(auto, unfolding(crate::specs::RowReads::spec_fields))]
fn has_spec_fields(value: &Value) -> bool
    ensures { result ≡ has_just spec_fields (view value.now) }
{
    has_just(value, &["arg", "kind", "restart", "shutdown"])
}

// What a child is.
#[tactic(auto, unfolding(crate::specs::RowReads::spec_at))]
pub(crate) fn spec_of(alloc: Global, value: &Value) -> Result<ChildSpec, WireFault>
    ensures { ReadGives result (spec_at (view value.now)) }
{
    if !has_spec_fields(value) {
        return Err(WireFault::NotMessage);
    }
    spec_in(alloc, value)
}

// Whether children may be placed on a member.
#[tactic(auto, unfolding(crate::specs::RowReads::status_at))]
fn status_of(value: &Value) -> Option<Status>
    ensures { result ≡ status_at (view value.now) }
{
    match value.as_str()? {
        "open" => Some(Status::Open),
        "draining" => Some(Status::Draining),
        _ => None,
    }
}

// The status in its field.
#[tactic(auto, unfolding(crate::specs::RowReads::status_in))]
fn status_in(value: &Value) -> Option<Status>
    ensures { result ≡ status_in (view value.now) }
{
    status_of(value.get("status")?)
}

// What the fields of an object say of a member.
#[tactic(auto, unfolding(crate::specs::RowReads::info_in))]
fn info_in(alloc: Global, value: &Value) -> Result<MemberInfo, WireFault>
    ensures { ReadGives result (info_in (view value.now)) }
{
    let label = text_in(alloc, value, "label")?;
    let status = status_in(value).ok_or(WireFault::NotMessage)?;
    Ok(MemberInfo { label, status })
}

// What is said of a member. Version 1 knows open ones alone.
#[tactic(auto, unfolding(crate::specs::RowReads::info_at))]
pub(crate) fn info_of(
    alloc: Global,
    version: Version,
    value: &Value,
) -> Result<MemberInfo, WireFault>
    ensures { ReadGives result (info_at version (view value.now)) }
{
    match version {
        Version::One => {
            if !has_just(value, &["label"]) {
                return Err(WireFault::NotMessage);
            }
            let label = text_in(alloc, value, "label")?;
            Ok(MemberInfo {
                label,
                status: Status::Open,
            })
        }
        Version::Two => {
            if !has_just(value, &["label", "status"]) {
                return Err(WireFault::NotMessage);
            }
            info_in(alloc, value)
        }
    }
}
