//! Which bytes are a message: `sup_wire` says it by the value that they are the text of, here a test of the bytes tells it.
#![tactic(auto)]

ghost use Rattle.std.specs.Prelude.{◌↔◌, IsTrue};
ghost use Rattle.sup_specs.specs.Values.{Bytes};
ghost use Rattle.sup_message_texts.specs.Messages.{is_message_text, IsMessage};

/// The test tells of all bytes whether they say a message.
pub fn messages_are_told()
    ensures told { (bytes : Bytes) → IsTrue (is_message_text bytes) ↔ IsMessage bytes }
{}
