//! The letters that a node sends.
ghost use Rattle.std.specs.Prelude.{◌≡◌, ◌≢◌, [], None, true, IfOk};
ghost use Rattle.sup_tables.specs.States.{State};
ghost use Rattle.sup_wire.specs.Drafts.{IsWhole};
ghost use Rattle.sup_wire.specs.Faults.{IsInRange};
ghost use Rattle.sup_wire.specs.Forms.{IsCount};
ghost use Rattle.sup_wire.specs.RowTexts.{AreRows};
ghost use Rattle.sup_image_text.specs.Messages.{IsStateOfTexts};
ghost use Rattle.sup_replica.specs.Stations.{a_delta, a_push, an_ack};
ghost use Rattle.sup_node.specs.Texts.{IsLetter, IsWholeLetter, IsMessageText};

use std::alloc::{AllocError, Global};
use sup_anti_entropy::Shipment;
use sup_array_text::ArrayText;
use sup_causal::CausalContext;
use sup_image_text::delta_text;
use sup_replica::{Letter, LetterKind, MessageText};
use sup_specs::NodeName;
use sup_tables::Tables;
use sup_wire::{Message, encode};

// What a peer hasn't acknowledged, as a letter.
pub(crate) fn delta_letter(
    alloc: Global,
    from: NodeName,
    to: NodeName,
    shipment: Shipment,
) -> Result<Letter, AllocError>
    requires differ { from ≢ to }
    requires number { IsCount shipment.n }
    ensures { IfOk result (λ letter. IsLetter (a_delta from to shipment.n shipment.whole shipment.delta) letter) }
{
    let Shipment { delta, n, whole } = shipment;
    let kind = if whole {
        LetterKind::Whole(n)
    } else {
        LetterKind::Part(n)
    };
    let message = Message::Delta { from, to, n, delta };
    let bytes = text_of(alloc, &message)?;
    Ok(Letter { to, kind, bytes })
}

// All that a node knows, as a letter: the context of its tables, and the texts of its rows.
pub(crate) fn whole_letter(
    alloc: Global,
    from: NodeName,
    to: NodeName,
    n: u64,
    texts: &ArrayText,
    context: &CausalContext,
) -> Result<Letter, AllocError>
    requires differ { from ≢ to }
    requires number { IsCount n }
    requires fits { (s : State) × IsStateOfTexts texts.now.items context.now s }
    ensures { IfOk result (IsWholeLetter from to n texts.now.items context.now) }
{
    let text = delta_text(alloc, texts, &from, &to, n, context)?;
    Ok(Letter {
        to,
        kind: LetterKind::Whole(n),
        bytes: MessageText::new(text),
    })
}

// An own operation, as a letter.
pub(crate) fn push_letter(
    alloc: Global,
    from: NodeName,
    to: NodeName,
    delta: Tables,
) -> Result<Letter, AllocError>
    requires differ { from ≢ to }
    ensures { IfOk result (λ letter. IsLetter (a_push from to delta) letter) }
{
    let message = Message::Push { from, to, delta };
    let bytes = text_of(alloc, &message)?;
    Ok(Letter {
        to,
        kind: LetterKind::Push,
        bytes,
    })
}

// An acknowledgement, as a letter.
pub(crate) fn ack_letter(
    alloc: Global,
    from: NodeName,
    to: NodeName,
    n: u64,
) -> Result<Letter, AllocError>
    requires differ { from ≢ to }
    requires number { IsCount n }
    ensures { IfOk result (λ letter. IsLetter (an_ack from to n) letter) }
{
    let message = Message::Ack { from, to, n };
    let bytes = text_of(alloc, &message)?;
    Ok(Letter {
        to,
        kind: LetterKind::Ack(n),
        bytes,
    })
}

// The text of a message.
fn text_of(alloc: Global, message: &Message) -> Result<MessageText, AllocError>
    requires { IsInRange message.now }
    ensures { IfOk result (λ text. IsMessageText text message.now) }
{
    let text = encode(alloc, message)?;
    Ok(MessageText::new(text))
}
