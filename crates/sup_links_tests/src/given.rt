//! Messages and links of the tests. These calls end a test where a call of the crate fails, and promise only that ends stay those of
//! their link.
ghost use Rattle.sup_links.specs.Ends.{AreOneLink, SameIn, SameOut};

use std::alloc::AllocError;
use std::process::Abort;
use std::sync::Wait;
use sup_links::{LinkIn, LinkOut, LinkScript, PutFault, Verdict, image as image_of, link};

// Memory may be refused once in a run, so each call that takes some is tried twice.
pub(crate) fn text(rt: &(impl Abort + AllocGlobal), message: &str) -> Vec<u8> {
    match message.as_bytes().to_vec(rt.alloc()) {
        Ok(text) => text,
        Err(_) => message.as_bytes().to_vec(rt.alloc()).expect(rt, "room"),
    }
}

fn try_texts(
    rt: &(impl Abort + AllocGlobal),
    messages: &[&str],
) -> Result<Vec<Vec<u8>>, AllocError> {
    let mut all = Vec::new(rt.alloc());
    for message in messages {
        all.push(text(rt, message))?;
    }
    Ok(all)
}

pub(crate) fn texts(rt: &(impl Abort + AllocGlobal), messages: &[&str]) -> Vec<Vec<u8>> {
    match try_texts(rt, messages) {
        Ok(all) => all,
        Err(_) => try_texts(rt, messages).expect(rt, "room"),
    }
}

pub(crate) fn script(rt: &(impl Abort + AllocGlobal), verdicts: &[Verdict]) -> LinkScript {
    match verdicts.to_vec(rt.alloc()) {
        Ok(verdicts) => LinkScript(verdicts),
        Err(_) => LinkScript(verdicts.to_vec(rt.alloc()).expect(rt, "room")),
    }
}

pub(crate) fn linked(rt: &(impl Abort + AllocGlobal), verdicts: &[Verdict]) -> (LinkIn, LinkOut)
    ensures { AreOneLink result.0 result.1 }
{
    match link(rt.alloc(), script(rt, verdicts), 16) {
        Ok(ends) => ends,
        Err(_) => link(rt.alloc(), script(rt, verdicts), 16).expect(rt, "room"),
    }
}

// A put that lacks memory leaves the link as it was, so the next one is its first.
pub(crate) fn put(rt: &(impl Abort + AllocGlobal + Wait), entry: &mut LinkIn, message: &str)
    ensures { SameIn entry.old entry.new }
{
    match entry.put(rt, text(rt, message)) {
        Ok(()) => (),
        Err(fault) => {
            assert!(rt; fault == PutFault::OutOfMemory);
            entry.put(rt, text(rt, message)).expect(rt, "an open link");
        }
    }
}

pub(crate) fn put_all(rt: &(impl Abort + AllocGlobal + Wait), entry: &mut LinkIn, messages: &[&str])
    ensures { SameIn entry.old entry.new }
{
    for message in messages {
        put(rt, entry, message);
    }
}

pub(crate) fn expect_taken(
    rt: &(impl Abort + AllocGlobal + Wait),
    exit: &mut LinkOut,
    messages: &[&str],
)
    ensures { SameOut exit.old exit.new }
{
    for message in messages {
        let taken = exit.take(rt).expect(rt, "an open link");
        assert!(rt; taken == Some(text(rt, message)));
    }
}

pub(crate) fn expect_image(
    rt: &(impl Abort + AllocGlobal),
    verdicts: &[Verdict],
    messages: &[&str],
    through: &[&str],
) {
    let script = script(rt, verdicts);
    let sent = texts(rt, messages);
    let image = match image_of(rt.alloc(), &script, &sent) {
        Ok(image) => image,
        Err(_) => image_of(rt.alloc(), &script, &sent).expect(rt, "room"),
    };
    assert!(rt; image == texts(rt, through));
}

// A link with this script lets these through, of those, and then it is at its end.
pub(crate) fn expect_through(
    rt: &(impl Abort + AllocGlobal + Wait),
    verdicts: &[Verdict],
    messages: &[&str],
    through: &[&str],
) {
    let (mut entry, mut exit) = linked(rt, verdicts);
    put_all(rt, &mut entry, messages);
    let sent = entry.end(rt);
    expect_taken(rt, &mut exit, through);
    assert!(rt; exit.take(rt) == Ok(None));
    assert!(rt; exit.take(rt) == Ok(None));
    exit.meet(sent);
    assert!(rt; exit.take(rt) == Ok(None));
}
