//! A stored image that was read.
ghost use Rattle.std.specs.Prelude.{◌≡◌, IfOk, IfErr};
ghost use Rattle.sup_wire.specs.declared.image.Image.{Image};
ghost use Rattle.sup_wire.specs.Drafts.{IsDraftOfImage, IsWholeImage, SaysImage};
ghost use Rattle.sup_wire.specs.Faults.{IsFault, IsOrMemory, TextSays};

use std::alloc::Global;
use std::marker::Model;
use sup_specs::NodeName;
use sup_tables::Tables;
use sup_wire::{Image, WireFault, decode_image};

/// What a node had stored: a look at it, in the boot in which it was stored. A contract sees it as the image.
#[derive(Drop)]
pub struct Still {
    image: Image,
}

impl Model for Still {
    ghost use Rattle.sup_wire.specs.declared.image.Image.{Image};

    ghost Value = { Image };

    ghost view = { λ s. s.image };
}

impl Still {
    /// Reads an image of version 1 or 2, as [`decode_image`] does. It is taken as it is: its node need not be a member,
    /// and no boot is begun.
    ///
    /// # Errors
    ///
    /// The first that applies, as [`WireFault`] orders them; `OutOfMemory` where a growth was refused.
    pub fn read(alloc: Global, text: &[u8]) -> Result<Still, WireFault>
        // What is read is what the text says.
        ensures ok { IfOk result (λ s. TextSays IsDraftOfImage text.now s) }
        ensures whole { IfOk result IsWholeImage }
        // What a text says of an image is read, unless memory runs out.
        ensures only { (i : Image) → IsWholeImage i → TextSays IsDraftOfImage text.now i → IsOrMemory i result }
        // Which fault it is.
        ensures fault { IfErr result (IsFault SaysImage text.now) }
    {
        let image = decode_image(alloc, text)?;
        Ok(Still { image })
    }

    /// Whose image it is.
    pub fn node(&self) -> &NodeName
        ensures { result.now ≡ self.now.node }
    {
        &self.image.node
    }

    /// The boot in which it was stored, from 1.
    pub fn boot(&self) -> u64
        ensures { result ≡ self.now.boot }
    {
        self.image.boot
    }

    /// How often the node's tables had changed, from 0.
    pub fn count(&self) -> u64
        ensures { result ≡ self.now.count }
    {
        self.image.count
    }

    /// What the node knew.
    pub fn tables(&self) -> &Tables
        ensures { result.now ≡ self.now.state }
    {
        &self.image.state
    }
}
