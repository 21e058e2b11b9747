//! Whole images.
ghost use Rattle.std.specs.Prelude.{◌≡◌};
ghost use Rattle.serde_json.specs.View.{view};
ghost use Rattle.sup_wire.specs.Drafts.{image, IsDraftOfImage, IsWholeImage};
ghost use Rattle.sup_wire.specs.Faults.{version_at};
ghost use Rattle.sup_wire.specs.FieldReads.{has_just, ReadGivesBy};
ghost use Rattle.sup_wire.specs.DraftReads.{image_fields, opening_at, image_at, stored_at, parts_read, SealsDraft, DecodesTo};

use crate::fault::WireFault;
use crate::image::Image;
use crate::reading::fields::{has_just, kind_of, name_in, version_of, within_in};
use crate::reading::parts::{Parts, parts_of, tables_of};
use crate::version::Version;
use serde_json::Value;
use std::alloc::Global;
use sup_specs::{MAX, NodeName};

#[tactic(auto, unfolding(crate::specs::DraftReads::image_fields))]
fn has_image_fields(value: &Value) -> bool
    ensures { result ≡ has_just image_fields (view value.now) }
{
    has_just(
        value,
        &["boot", "count", "ctx", "kind", "node", "rows", "v"],
    )
}

// Node, boot and count.
#[tactic(auto, unfolding(crate::specs::DraftReads::opening_at))]
fn opening_of(value: &Value) -> Option<(NodeName, u64, u64)>
    ensures { result ≡ opening_at (view value.now) }
{
    let node = name_in(value, "node")?;
    let boot = within_in(value, "boot", 1, MAX)?;
    let count = within_in(value, "count", 0, MAX)?;
    Some((node, boot, count))
}

// An image, before its tables are known to be canonical.
#[tactic(auto, unfolding(crate::specs::DraftReads::image_at))]
fn image_draft_of(
    alloc: Global,
    version: Version,
    value: &Value,
) -> Result<(NodeName, u64, u64, Parts), WireFault>
    ensures { ReadGivesBy (λ d. image d.0 d.1 d.2 (parts_read d.3)) result (image_at version (view value.now)) }
{
    if !has_image_fields(value) {
        return Err(WireFault::NotMessage);
    }
    let (node, boot, count) = opening_of(value).ok_or(WireFault::NotMessage)?;
    let parts = parts_of(alloc, version, value)?;
    Ok((node, boot, count, parts))
}

fn of_fields(alloc: Global, version: Version, value: &Value) -> Result<Image, WireFault>
    ensures { SealsDraft IsDraftOfImage IsWholeImage result (image_at version (view value.now)) }
{
    let (node, boot, count, parts) = image_draft_of(alloc, version, value)?;
    let state = tables_of(alloc, parts)?;
    Ok(Image {
        node,
        boot,
        count,
        state,
    })
}

// An image of a version.
#[tactic(auto, unfolding(crate::specs::DraftReads::stored_at, crate::specs::DraftReads::image_from))]
fn of_kind(alloc: Global, version: Version, value: &Value) -> Result<Image, WireFault>
    ensures { SealsDraft IsDraftOfImage IsWholeImage result (stored_at version (view value.now)) }
{
    match kind_of(value).ok_or(WireFault::NotMessage)? {
        "image" => of_fields(alloc, version, value),
        _ => Err(WireFault::NotMessage),
    }
}

// An image.
#[tactic(auto, using(crate::proofs::Sealed::sealed))]
pub(crate) fn image_of(alloc: Global, value: &Value) -> Result<Image, WireFault>
    ensures { DecodesTo IsDraftOfImage IsWholeImage result (version_at (view value.now)) (λ v. stored_at v (view value.now)) }
{
    match version_of(value) {
        None => Err(WireFault::NotMessage),
        Some(number) => match Version::of(number) {
            None => Err(WireFault::BadVersion),
            Some(version) => of_kind(alloc, version, value),
        },
    }
}
