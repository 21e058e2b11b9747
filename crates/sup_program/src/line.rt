//! What one line of a script prints.

ghost use Rattle.std.specs.Prelude.{◌≡◌, ◌++◌, ℕ, List, false, codes, IfOk, string_bytes, vec_items};
ghost use Rattle.std.specs.List.{AllZip};
ghost use Rattle.sup_specs.specs.Values.{Bytes};
ghost use Rattle.sup_model.specs.Worlds.{ModelWorld as Model};
ghost use Rattle.sup_world.specs.CarriedSteps.{has_bytes, seen_at};
ghost use Rattle.sup_world.specs.FollowedSteps.{StandsFor};
ghost use Rattle.sup_world.specs.SeenNodes.{sites_of, CanFail, FailedOnceAtMost};
ghost use Rattle.sup_replica.specs.declared.refusal.Refusal.TheVariants.{UnknownNode};
ghost use Rattle.sup_text.specs.Answers.{refusal_text};
ghost use Rattle.sup_program.specs.PlayedLines.{BringsNoBytes, MaySpeak};
ghost use Rattle.sup_program.specs.Prints.{TellsMessages, TellsNode, image_text, lead_text, message_text, node_text};

use std::alloc::{AllocError, Global};
use sup_lines::Line;
use sup_model::Step;
use sup_node_text::{inspect_text, show_text, where_text};
use sup_placement::Weigh;
use sup_replica::Refusal;
use sup_specs::{Name, NodeName};
use sup_text::{answer_text, refusal_text, settled_text};
use sup_world::World;

/// Does what a line asks for, and gives what it prints: of a step its answer, of settling what was sent and what is to be done,
/// and of the others what is shown, without a step. The peers are the world's nodes by name. A refusal is printed too, also one for
/// want of memory.
///
/// # Errors
///
/// Only where memory for the text was refused. The line's steps are made then, or nothing has changed.
pub fn line_text<G: Weigh>(
    alloc: Global,
    weigher: &G,
    world: &mut World<G>,
    peers: &[NodeName],
    line: &Line,
) -> Result<Vec<u8>, AllocError>
    requires failing { CanFail (sites_of world.old) }
    requires bytes { BringsNoBytes line.now }
    ensures speaks { (model : Model) → StandsFor G.weight_of (sites_of world.old) model → TellsMessages model.is_message
        → MaySpeak vec_items G.weight_of peers.now (record { model = model; sites = sites_of world.old }) line.now (sites_of world.new) result }
    ensures counted { AllZip FailedOnceAtMost (sites_of world.old) (sites_of world.new) }
{
    match line {
        Line::Step(step) => step_text(alloc, world, step),
        Line::Settle => exchange_text(alloc, world),
        Line::Show(node) => node_text(alloc, weigher, world, node),
        Line::Inspect(node) => inspected_text(alloc, weigher, world, peers, node),
        Line::Image(node) => image_text(alloc, world, node),
        Line::Where { node, name } => lead_text(alloc, weigher, world, node, name),
        Line::Message { from, k } => message_text(alloc, world, from, *k),
    }
}

// Makes a step.
fn step_text<G: Weigh>(
    alloc: Global,
    world: &mut World<G>,
    step: &Step,
) -> Result<Vec<u8>, AllocError>
    requires failing { CanFail (sites_of world.old) }
    requires bytes { has_bytes step.now ≡ false }
    ensures speaks { (peers : List Bytes) (model : Model) → StandsFor G.weight_of (sites_of world.old) model → TellsMessages model.is_message
        → MaySpeak vec_items G.weight_of peers (record { model = model; sites = sites_of world.old }) (Line.Step step.now) (sites_of world.new) result }
    ensures counted { AllZip FailedOnceAtMost (sites_of world.old) (sites_of world.new) }
{
    match world.step(step) {
        Ok(answer) => bytes_of(answer_text(alloc, &answer.at, &answer.done, answer.number)),
        Err(refusal) => bytes_of(refusal_text(alloc, refusal)),
    }
}

// Has the nodes exchange all that they know.
fn exchange_text<G: Weigh>(alloc: Global, world: &mut World<G>) -> Result<Vec<u8>, AllocError>
    ensures speaks { (peers : List Bytes) (model : Model) → StandsFor G.weight_of (sites_of world.old) model
        → MaySpeak vec_items G.weight_of peers (record { model = model; sites = sites_of world.old }) Line.Settle (sites_of world.new) result }
    ensures counted { AllZip FailedOnceAtMost (sites_of world.old) (sites_of world.new) }
{
    match world.settle() {
        Ok(settled) => bytes_of(settled_text(alloc, settled.messages, settled.effects.as_slice())),
        Err(refusal) => bytes_of(refusal_text(alloc, refusal)),
    }
}

// What a node shows.
fn node_text<G: Weigh>(
    alloc: Global,
    weigher: &G,
    world: &World<G>,
    name: &NodeName,
) -> Result<Vec<u8>, AllocError>
    ensures { (model : Model) → StandsFor G.weight_of (sites_of world.now) model
        → IfOk result (λ text. text.items ≡ node_text model name.now) }
{
    match world.station(name) {
        Some(station) => bytes_of(show_text(alloc, name, station.node(), weigher)),
        None => unknown_text(alloc),
    }
}

// What is told of a node.
fn inspected_text<G: Weigh>(
    alloc: Global,
    weigher: &G,
    world: &World<G>,
    peers: &[NodeName],
    name: &NodeName,
) -> Result<Vec<u8>, AllocError>
    ensures { IfOk result (λ text. TellsNode G.weight_of peers.now name.now (seen_at (sites_of world.now) name.now) text.items) }
{
    match world.station(name) {
        Some(station) => {
            let text = inspect_text(alloc, name, station.node(), peers, weigher)?;
            Ok(text.into_bytes())
        }
        None => unknown_text(alloc),
    }
}

// The image that a node's keeper keeps.
fn image_text<G: Weigh>(
    alloc: Global,
    world: &World<G>,
    name: &NodeName,
) -> Result<Vec<u8>, AllocError>
    ensures { IfOk result (λ text. text.items ≡ image_text (seen_at (sites_of world.now) name.now)) }
{
    match world.station(name) {
        Some(station) => bytes_line(alloc, station.keeper().stored()),
        None => unknown_text(alloc),
    }
}

// Where a name leads at a node.
fn lead_text<G: Weigh>(
    alloc: Global,
    weigher: &G,
    world: &World<G>,
    node: &NodeName,
    name: &Name,
) -> Result<Vec<u8>, AllocError>
    ensures { (model : Model) → StandsFor G.weight_of (sites_of world.now) model
        → IfOk result (λ text. text.items ≡ lead_text model node.now name.now) }
{
    match world.station(node) {
        Some(station) => bytes_of(where_text(alloc, node, station.node(), name, weigher)),
        None => unknown_text(alloc),
    }
}

// A message that a node sent.
fn message_text<G: Weigh>(
    alloc: Global,
    world: &World<G>,
    from: &NodeName,
    k: u64,
) -> Result<Vec<u8>, AllocError>
    ensures { IfOk result (λ text. text.items ≡ message_text (seen_at (sites_of world.now) from.now) k) }
{
    match world.station(from) {
        Some(_) => match world.message(from, k) {
            Some(bytes) => bytes_line(alloc, bytes),
            None => bytes_of(refusal_text(alloc, Refusal::NoSuchMessage)),
        },
        None => unknown_text(alloc),
    }
}

// There is no such node.
fn unknown_text(alloc: Global) -> Result<Vec<u8>, AllocError>
    ensures { IfOk result (λ text. text.items ≡ refusal_text UnknownNode) }
{
    bytes_of(refusal_text(alloc, Refusal::UnknownNode))
}

// The bytes of a text.
fn bytes_of(text: Result<String, AllocError>) -> Result<Vec<u8>, AllocError>
    ensures { (said : List ℕ) → IfOk text (λ text. string_bytes text ≡ said) → IfOk result (λ bytes. bytes.items ≡ said) }
{
    let text = text?;
    Ok(text.into_bytes())
}

// Bytes, and a line feed.
fn bytes_line(alloc: Global, bytes: &[u8]) -> Result<Vec<u8>, AllocError>
    ensures { IfOk result (λ line. line.items ≡ bytes.now ++ codes "\n") }
{
    let mut line = bytes.to_vec(alloc)?;
    line.push(b'\n')?;
    Ok(line)
}
