//! A text that is cut short is no text. What is left of the text that `encode` gives of a message, or `encode_image` of an
//! image, is no JSON value, so it says nothing and is refused.
#![tactic(auto)]

ghost use Rattle.std.specs.Prelude.{◌≡◌, ◌⊎◌, ◌<◌, length, Err};
ghost use Rattle.sup_wire.specs.declared.fault.WireFault.TheVariants.{NotJson, OutOfMemory};
ghost use Rattle.sup_wire.specs.Drafts.{IsDraftOf, IsDraftOfImage, SaysMessage, SaysImage};
ghost use Rattle.sup_wire.specs.Faults.{IsTextOf, IsInRange, IsImageInRange};
ghost use Rattle.sup_cut_texts.specs.Cuts.{AreFrontsUnread, AreFrontsMute, AreFrontsRefused};

use std::alloc::Global;
use sup_wire::{Image, Message, WireFault, decode, decode_image};

/// No JSON value is read of a shorter front of a message's text as it is written, nor of an image's.
pub fn a_text_cut_short_is_no_json()
    ensures message { AreFrontsUnread IsDraftOf IsInRange }
    ensures image { AreFrontsUnread IsDraftOfImage IsImageInRange }
{}

/// So that of a message says no message, and that of an image no image.
pub fn a_text_cut_short_says_nothing()
    ensures message { AreFrontsMute IsDraftOf IsInRange }
    ensures image { AreFrontsMute IsDraftOfImage IsImageInRange }
{}

/// By the clauses of `decode` and `decode_image` it is answered as no JSON, or as want of memory.
pub fn a_text_cut_short_is_refused()
    ensures message { AreFrontsRefused SaysMessage IsDraftOf IsInRange }
    ensures image { AreFrontsRefused SaysImage IsDraftOfImage IsImageInRange }
{}

/// The first bytes of a message's text, but not all, are refused as no JSON, unless memory runs out.
pub fn a_message_cut_short_is_refused(
    alloc: Global,
    message: &Message,
    text: &[u8],
    kept: usize,
) -> Result<Message, WireFault>
    requires text { IsTextOf IsDraftOf IsInRange text.now message.now }
    requires short { kept < length text.now }
    ensures { (result ≡ Err NotJson) ⊎ (result ≡ Err OutOfMemory) }
{
    decode(alloc, &text[..kept])
}

/// The first bytes of an image's text, but not all, are refused as no JSON, unless memory runs out.
pub fn an_image_cut_short_is_refused(
    alloc: Global,
    image: &Image,
    text: &[u8],
    kept: usize,
) -> Result<Image, WireFault>
    requires text { IsTextOf IsDraftOfImage IsImageInRange text.now image.now }
    requires short { kept < length text.now }
    ensures { (result ≡ Err NotJson) ⊎ (result ≡ Err OutOfMemory) }
{
    decode_image(alloc, &text[..kept])
}
