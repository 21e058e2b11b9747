//! Lines as the tests tell them: each part of a line by itself.
use std::alloc::{AllocError, Global};
use std::str;
use sup_lines::Line;
use sup_model::Step;
use sup_replica::{Act, Event};
use sup_specs::{ChildSpec, ExitReason, NodeName, Restart, Shutdown};

pub(crate) fn told(alloc: Global, line: &Line) -> Result<String, AllocError> {
    match line {
        Line::Step(step) => told_step(alloc, step),
        Line::Settle => format!(in alloc; "settle"),
        Line::Show(node) => format!(in alloc; "show {node}"),
        Line::Inspect(node) => format!(in alloc; "inspect {node}"),
        Line::Image(node) => format!(in alloc; "image of {node}"),
        Line::Where { node, name } => format!(in alloc; "where {node} {name}"),
        Line::Message { from, k } => format!(in alloc; "message {k} of {from}"),
    }
}

fn told_step(alloc: Global, step: &Step) -> Result<String, AllocError> {
    match step {
        Step::Node {
            at,
            act,
            now,
            saves,
        } => {
            let act = told_act(alloc, act)?;
            let save = told_save(*saves);
            format!(in alloc; "{at}: {act}, at {now}, {save}")
        }
        Step::Deliver {
            from,
            k,
            at,
            drop,
            now,
            saves,
        } => {
            let to = told_receiver(alloc, at)?;
            let save = told_save(*saves);
            format!(in alloc; "{from} {k} to {to} less {drop}, at {now}, {save}")
        }
        Step::Raw { at, bytes } => {
            let word = str::from_utf8(bytes.as_slice()).unwrap_or("no text");
            format!(in alloc; "{at}: bytes {word}")
        }
    }
}

fn told_save(saves: bool) -> &'static str {
    if saves { "saves" } else { "fails" }
}

fn told_receiver(alloc: Global, at: &Option<NodeName>) -> Result<String, AllocError> {
    match at {
        Some(node) => format!(in alloc; "{node}"),
        None => format!(in alloc; "its receiver"),
    }
}

fn told_act(alloc: Global, act: &Act) -> Result<String, AllocError> {
    match act {
        Act::Event(event) => told_event(alloc, event),
        Act::Stop => format!(in alloc; "stop"),
        Act::Restart => format!(in alloc; "restart"),
    }
}

fn told_event(alloc: Global, event: &Event) -> Result<String, AllocError> {
    match event {
        Event::Join(label) => format!(in alloc; "join [{label}]"),
        Event::Leave(member) => format!(in alloc; "leave {member}"),
        Event::Drain(member) => format!(in alloc; "drain {member}"),
        Event::Start(id, spec) => {
            let spec = told_spec(alloc, spec)?;
            format!(in alloc; "start {id} {spec}")
        }
        Event::Replace(id, spec) => {
            let spec = told_spec(alloc, spec)?;
            format!(in alloc; "replace {id} {spec}")
        }
        Event::Delete(id) => format!(in alloc; "delete {id}"),
        Event::Register(name, id) => format!(in alloc; "register {name} for {id}"),
        Event::Unregister(name) => format!(in alloc; "unregister {name}"),
        Event::Exit { id, inc, reason } => {
            let (boot, k) = (inc.boot, inc.k);
            let reason = told_reason(alloc, reason)?;
            format!(in alloc; "exit {id} {boot} {k} {reason}")
        }
        Event::Ship(to) => format!(in alloc; "ship to {to}"),
        Event::Push(to) => format!(in alloc; "push to {to}"),
        Event::Deliver(_) => format!(in alloc; "bytes"),
    }
}

fn told_spec(alloc: Global, spec: &ChildSpec) -> Result<String, AllocError> {
    let (kind, arg) = (spec.kind.as_str(), spec.arg.as_str());
    let restart = match spec.restart {
        Restart::Permanent => "always",
        Restart::Transient => "unless it went well",
        Restart::Temporary => "never",
    };
    match spec.shutdown {
        Shutdown::Brutal => format!(in alloc; "{kind} [{arg}] {restart} killed"),
        Shutdown::Millis(millis) => format!(in alloc; "{kind} [{arg}] {restart} {millis}"),
        Shutdown::Infinity => format!(in alloc; "{kind} [{arg}] {restart} unhurried"),
    }
}

fn told_reason(alloc: Global, reason: &ExitReason) -> Result<String, AllocError> {
    match reason {
        ExitReason::Normal => format!(in alloc; "done"),
        ExitReason::Shutdown => format!(in alloc; "told to"),
        ExitReason::ShutdownWith(label) => format!(in alloc; "told to [{label}]"),
        ExitReason::Failed => format!(in alloc; "gave up"),
        ExitReason::Crash => format!(in alloc; "broke"),
    }
}
