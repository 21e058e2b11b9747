//! Ships of all that a node knows, with the texts of its rows at hand and without.
ghost use Rattle.std.specs.Prelude.{IfOk};
ghost use Rattle.sup_wire.specs.RowTexts.{AreRows};
ghost use Rattle.sup_node.specs.Contents.{station_of};

use crate::given::{IMAGE, name, node_by};
use std::alloc::{AllocError, Global};
use std::process::Abort;
use sup_array_text::ArrayText;
use sup_node::{Node, Planned};
use sup_placement::FlatWeigh;
use sup_replica::{Event, LetterKind, Refusal};
use sup_wire::text_of;

const WHOLE: &str = "\
    {\"ctx\":{\"cloud\":[],\"vector\":{\"a\":2}},\"from\":\"a\",\"kind\":\"delta\",\"n\":2,\
    \"rows\":[[\"member\",\"a\",[\"a\",1],{\"label\":\"\",\"status\":\"open\"}],[\"child\",\"web\",\
    [\"a\",2],{\"arg\":\"\",\"kind\":\"worker\",\"restart\":\"permanent\",\"shutdown\":5000}]],\
    \"to\":\"b\",\"v\":2}";

// The texts of the rows that the node knows.
fn row_texts(alloc: Global, node: &Node<FlatWeigh>) -> Result<ArrayText, AllocError>
    ensures { IfOk result (λ t. AreRows (station_of node.now).node.known.rows t.items) }
{
    let image = node.image()?;
    let text = text_of(alloc, &image)?;
    Ok(text)
}

fn is_whole(planned: &Planned) -> bool {
    match &planned.done().out {
        Some(letter) => {
            matches!(letter.kind, LetterKind::Whole(2))
                && letter.bytes.as_slice() == WHOLE.as_bytes()
        }
        None => false,
    }
}

#[test]
fn a_ship_that_copies_its_rows_has_the_text_of_one_that_writes_them(rt: HostRuntime) {
    let node = node_by(&rt, IMAGE);
    let ship = Event::Ship(name(&rt, "b"));
    let written = node.plan(&ship, 0, &FlatWeigh).expect(&rt, "a plan");
    assert!(rt; is_whole(&written));
    let texts = row_texts(rt.alloc(), &node).expect(&rt, "room");
    let copied = node
        .plan_with(&texts, &ship, 0, &FlatWeigh)
        .expect(&rt, "a plan");
    assert!(rt; is_whole(&copied));
    let push = Event::Push(name(&rt, "b"));
    let refused = node.plan_with(&texts, &push, 0, &FlatWeigh).err();
    assert!(rt; refused == Some(Refusal::NothingToPush));
}
