//! Texts of messages and images.
ghost use Rattle.std.specs.Prelude.{◌≡◌, ◌++◌, IfOk, IfErr};
ghost use Rattle.serde_json.specs.View.{view};
ghost use Rattle.sup_specs.specs.Values.{Bytes};
ghost use Rattle.sup_wire.specs.declared.message.Message.{Message};
ghost use Rattle.sup_wire.specs.declared.image.Image.{Image};
ghost use Rattle.sup_wire.specs.Drafts.{IsDraftOf, IsDraftOfImage, SaysMessage, SaysImage, IsWholeMessage, IsWholeImage};
ghost use Rattle.sup_wire.specs.DraftReads.{NoJson};
ghost use Rattle.sup_wire.specs.Faults.{IsJson, TextSays, IsTextOf, IsTextAfter, IsFault, IsOrMemory, IsInRange, IsImageInRange};
ghost use Rattle.sup_wire.specs.ImageTexts.{IsTextFor};

use crate::fault::WireFault;
use crate::image::Image;
use crate::message::Message;
use crate::reading::images::image_of;
use crate::reading::messages::message_of;
use crate::writing::images::image_text_after;
use crate::writing::messages::write_message;
use json::Writer;
use serde_json::{Category, Value};
use std::alloc::{AllocError, Global};
use sup_array_text::ArrayText;

// The JSON value of a text.
fn json_of(alloc: Global, text: &[u8]) -> Result<Value, WireFault>
    ensures ok { IfOk result (λ v. IsJson text.now (view v)) }
    ensures err { IfErr result (NoJson text.now) }
{
    match Value::from_slice(alloc, text) {
        Ok(value) => Ok(value),
        Err(e) => match e.classify() {
            Category::Memory => Err(WireFault::OutOfMemory),
            _ => Err(WireFault::NotJson),
        },
    }
}

/// Reads a message of version 1 or 2; in version 1 each member is open. Spaces and another order of keys are taken too,
/// since the JSON value (RFC 8259, as `serde_json` reads it) is the same.
///
/// # Errors
///
/// The first that applies, as [`WireFault`] orders them; `OutOfMemory` where a growth was refused.
pub fn decode(alloc: Global, text: &[u8]) -> Result<Message, WireFault>
    // What is read is what the text says.
    ensures ok { IfOk result (λ m. TextSays IsDraftOf text.now m) }
    ensures whole { IfOk result IsWholeMessage }
    // What a text says of a message is read, unless memory runs out.
    ensures only { (m : Message) → IsWholeMessage m → TextSays IsDraftOf text.now m → IsOrMemory m result }
    // Which fault it is.
    ensures fault { IfErr result (IsFault SaysMessage text.now) }
{
    let value = json_of(alloc, text)?;
    message_of(alloc, &value)
}

/// Reads an image of version 1 or 2, as [`decode`] reads a message.
///
/// # Errors
///
/// The first that applies, as [`WireFault`] orders them; `OutOfMemory` where a growth was refused. A message's text is
/// `NotMessage`.
pub fn decode_image(alloc: Global, text: &[u8]) -> Result<Image, WireFault>
    ensures ok { IfOk result (λ i. TextSays IsDraftOfImage text.now i) }
    ensures whole { IfOk result IsWholeImage }
    ensures only { (i : Image) → IsWholeImage i → TextSays IsDraftOfImage text.now i → IsOrMemory i result }
    ensures fault { IfErr result (IsFault SaysImage text.now) }
{
    let value = json_of(alloc, text)?;
    image_of(alloc, &value)
}

/// The text of a message, of version 2: compact, with keys in byte order. An `Err` where a growth was refused.
pub fn encode(alloc: Global, message: &Message) -> Result<Vec<u8>, AllocError>
    ensures text { IfOk result (λ text. IsTextOf IsDraftOf IsInRange text.items message.now) }
    // What is written is what `decode` reads.
    ensures says { IfOk result (λ text. IsInRange message.now → TextSays IsDraftOf text.items message.now) }
    // No other text is written of the message.
    ensures once { IfOk result (λ text. (other : Bytes) → IsTextOf IsDraftOf IsInRange other message.now → other ≡ text.items) }
    ensures whole { IfOk result (λ _. IsWholeMessage message.now) }
{
    let text = encode_after(Vec::new(alloc), message)?;
    Ok(text)
}

/// The text of a message, written behind what the buffer has. An `Err` where a growth was refused; the buffer is then
/// dropped.
pub fn encode_after(front: Vec<u8>, message: &Message) -> Result<Vec<u8>, AllocError>
    ensures text { IfOk result (λ all. IsTextAfter IsDraftOf IsInRange front.items all.items message.now) }
    ensures whole { IfOk result (λ _. IsWholeMessage message.now) }
{
    let mut out = Writer::new(front);
    write_message(&mut out, message)?;
    Ok(out.into_inner())
}

/// The text of an image, of version 2: compact, with keys in byte order. An `Err` where a growth was refused.
pub fn encode_image(alloc: Global, image: &Image) -> Result<Vec<u8>, AllocError>
    ensures text { IfOk result (λ text. IsTextOf IsDraftOfImage IsImageInRange text.items image.now) }
    // What is written is what `decode_image` reads.
    ensures says { IfOk result (λ text. IsImageInRange image.now → TextSays IsDraftOfImage text.items image.now) }
    // No other text is written of the image.
    ensures once { IfOk result (λ text. (other : Bytes) → IsTextOf IsDraftOfImage IsImageInRange other image.now → other ≡ text.items) }
    ensures whole { IfOk result (λ _. IsWholeImage image.now) }
{
    let text = text_of(alloc, image)?;
    Ok(text.into_text())
}

/// The text of an image, written behind what the buffer has. An `Err` where a growth was refused; the buffer is then
/// dropped.
pub fn encode_image_after(front: Vec<u8>, image: &Image) -> Result<Vec<u8>, AllocError>
    ensures text { IfOk result (λ all. IsTextAfter IsDraftOfImage IsImageInRange front.items all.items image.now) }
    ensures whole { IfOk result (λ _. IsWholeImage image.now) }
{
    let text = image_text_after(front, image)?;
    Ok(text.into_text())
}

/// The text of an image, as [`encode_image`] gives it, with the texts of its rows. An `Err` where a growth was refused.
pub fn text_of(alloc: Global, image: &Image) -> Result<ArrayText, AllocError>
    ensures text { IfOk result (λ t. IsTextFor image.now t) }
    ensures whole { IfOk result (λ _. IsWholeImage image.now) }
{
    let text = image_text_after(Vec::new(alloc), image)?;
    Ok(text)
}
