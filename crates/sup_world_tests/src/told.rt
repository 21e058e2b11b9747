//! What is told of a world, as a script's lines print it. Where memory is refused a call is made once more.
use std::process::Abort;
use sup_replica::Refusal;
use sup_test_texts::refused;
use sup_text::{answer_text, settled_text};
use sup_world::{Answer, Settled};

/// Puts a text behind another one.
pub(crate) fn put(rt: &impl Abort, told: &mut String, text: &str) {
    if told.push_str(text).is_err() {
        told.push_str(text).expect(rt, "room");
    }
}

/// What a step is answered.
pub(crate) fn answered(
    rt: &(impl Abort + AllocGlobal),
    answer: &Result<Answer, Refusal>,
) -> String {
    match answer {
        Ok(answer) => done(rt, answer),
        Err(refusal) => refused(rt.alloc(), *refusal).expect(rt, "room"),
    }
}

fn done(rt: &(impl Abort + AllocGlobal), answer: &Answer) -> String {
    answer_text(rt.alloc(), &answer.at, &answer.done, answer.number)
        .or_else(|_| answer_text(rt.alloc(), &answer.at, &answer.done, answer.number))
        .expect(rt, "room")
}

/// What a settling did.
pub(crate) fn settled(
    rt: &(impl Abort + AllocGlobal),
    answer: &Result<Settled, Refusal>,
) -> String {
    match answer {
        Ok(settled) => settled_lines(rt, settled),
        Err(refusal) => refused(rt.alloc(), *refusal).expect(rt, "room"),
    }
}

fn settled_lines(rt: &(impl Abort + AllocGlobal), settled: &Settled) -> String {
    let effects = settled.effects.as_slice();
    settled_text(rt.alloc(), settled.messages, effects)
        .or_else(|_| settled_text(rt.alloc(), settled.messages, effects))
        .expect(rt, "room")
}
