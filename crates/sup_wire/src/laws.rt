//! Laws of the codec, each the contract of a small function.
ghost use Rattle.std.specs.Prelude.{◌≡◌};
ghost use Rattle.sup_wire.specs.Drafts.{IsDraftOf, IsDraftOfImage, IsWholeMessage, IsWholeImage};
ghost use Rattle.sup_wire.specs.Faults.{IsOneSaid, IsOrMemory, IsInRange, IsImageInRange};

use crate::codec::{decode, decode_image, encode, encode_image};
use crate::fault::WireFault;
use crate::image::Image;
use crate::message::Message;
use std::alloc::Global;
use sup_specs::MAX;

/// A text says one message at most, and one image at most.
pub fn a_text_says_one()
    ensures message { IsOneSaid IsDraftOf IsWholeMessage }
    ensures image { IsOneSaid IsDraftOfImage IsWholeImage }
{}

/// The greatest number that a message or an image may have is 2^53 - 1.
pub fn a_number_is_below_2_to_the_53()
    ensures { MAX ≡ 9007199254740991 }
{}

/// A message in its range that is written is read back, unless memory runs out.
pub fn a_message_is_read_back(alloc: Global, message: &Message) -> Result<Message, WireFault>
    requires { IsInRange message.now }
    ensures { IsOrMemory message.now result }
{
    let text = encode(alloc, message)?;
    decode(alloc, &text)
}

/// An image in its range that is written is read back, unless memory runs out.
pub fn an_image_is_read_back(alloc: Global, image: &Image) -> Result<Image, WireFault>
    requires { IsImageInRange image.now }
    ensures { IsOrMemory image.now result }
{
    let text = encode_image(alloc, image)?;
    decode_image(alloc, &text)
}
