//! The program's run, from its words, its streams and its images to its status.

ghost use Rattle.std.specs.Prelude.{◌≡◌, ℕ, List, Some, Err, IfErr, IfOk, map, string_bytes};
ghost use Rattle.std.specs.Process.{exit_status};
ghost use Rattle.sup_about.specs.Answers.{IsAnswer, IsPut};
ghost use Rattle.sup_about.specs.Starts.{RunsAsking};
ghost use Rattle.sup_about.specs.declared.asked.Program.TheVariants as programs;
ghost use Rattle.sup_lines.specs.Words.{texts};
ghost use Rattle.sup_talk.specs.Hosts.{seen_of};
ghost use Rattle.sup_supd.specs.Started.{EndsUnserved, RunsSet, RunsWithout, left_of, new_host};
ghost use Rattle.sup_supd.specs.Words.{set_of, settings_of};
ghost use Rattle.sup_supd.specs.declared.leaves.Leaves.TheVariants.{Images};
ghost use Rattle.sup_supd.specs.declared.unserved.Unserved.TheVariants.{OutOfMemory};

use crate::images::Images;
use crate::late::{LateReader, buffered};
use crate::leaves::Leaves;
use crate::left::Left;
use crate::node::run_filed;
use crate::settings::{Settings, read_settings};
use crate::unserved::{Unserved, refuse, why_for, why_untaken};
use std::alloc::{AllocError, Global};
use std::env::Args;
use std::io::{self, BufReader, Read, Write};
use sup_about::{Beside, Exit, Program, Room, Start, run_asking};
use sup_disk::{DiskKeeper, Unopened};
use sup_jobs::Ended;
use sup_talk::{Host, Streams};

/// The program `supd`, with all images, of which it takes one at most.
#[derive(Drop)]
pub struct Supd<I: Images> {
    pub images: I,
}

// The node that the words set runs until its host, who speaks by the reader and hears by the writer, says no more. Where memory for a
// buffer is refused, nobody is heard or told anything: the reader and the writer are left as they were, and the images.
impl<I: Images, R: Read + Drop, W: Write + Drop, E: Write> Start<R, W, E> for Supd<I> {
    type Left = (
        Leaves<I, I::Disk, Left<DiskKeeper<I::Disk>>>,
        Result<Streams<BufReader<LateReader<R>>, W>, (R, W)>,
    );

    ghost program = { λ _. programs.Supd };

    ghost may_run = { λ _. Unit {0} };

    ghost runs = { λ supd words reader writer before after done. IfOk done.1.1 (λ host.
        RunsSet I.Disk.may_have I.Disk.may_refuse I.takes supd.images (settings_of (map string_bytes words))
        (seen_of (new_host (R.remaining reader) (W.contents writer))) (seen_of host)
        (E.contents before) (E.contents after) (left_of done.1.0) done.0)
        × IfErr done.1.1 (λ both. (both ≡ (reader, writer))
        × EndsUnserved supd.images OutOfMemory (E.contents before) (E.contents after) (left_of done.1.0) done.0) };

    ghost fails = { λ supd error reader writer before after done. IfOk done.1.1 (λ host.
        RunsWithout I.Disk.may_have I.Disk.may_refuse I.takes supd.images error
        (seen_of (new_host (R.remaining reader) (W.contents writer))) (seen_of host)
        (E.contents before) (E.contents after) (left_of done.1.0) done.0)
        × IfErr done.1.1 (λ both. (both ≡ (reader, writer))
        × EndsUnserved supd.images OutOfMemory (E.contents before) (E.contents after) (left_of done.1.0) done.0) };

    ghost rests = { λ supd reader writer left. (left_of left.0 ≡ Images supd.images) × (left.1 ≡ Err (reader, writer)) };

    fn program(&self) -> Program {
        Program::Supd
    }

    fn run(
        self,
        alloc: Global,
        words: io::Result<Vec<String>>,
        reader: R,
        writer: W,
        errors: &mut E,
    ) -> (Ended, Self::Left) {
        match streams_of(alloc, reader, writer) {
            Ok(mut host) => {
                let (ended, left) = run_given(alloc, words, self.images, &mut host, errors);
                (ended, (left, Ok(host)))
            }
            Err(both) => {
                let refused = refuse(errors, Unserved::OutOfMemory);
                (refused, (Leaves::Images(self.images), Err(both)))
            }
        }
    }

    fn rest(self, reader: R, writer: W) -> Self::Left {
        (Leaves::Images(self.images), Err((reader, writer)))
    }
}

/// Runs the program by its arguments, as [`run_asking`] does.
pub fn run_supd<I: Images, M: Room, B: Beside, R: Read + Drop, W: Write + Drop, E: Write>(
    alloc: Global,
    supd: Supd<I>,
    arguments: io::Result<Args>,
    room: M,
    beside: B,
    reader: R,
    writer: W,
    errors: &mut E,
) -> Exit<
    (
        Leaves<I, I::Disk, Left<DiskKeeper<I::Disk>>>,
        Result<Streams<BufReader<LateReader<R>>, W>, (R, W)>,
    ),
>
    ensures code { exit_status result.code ≡ result.ended.status }
    ensures asking { RunsAsking (M.may_lack room)
        (λ error. ⟦<Supd<I> as Start<R, W, E>>⟧.fails supd error reader writer errors.old errors.new (result.ended, result.left))
        (λ words. ⟦<Supd<I> as Start<R, W, E>>⟧.runs supd words reader writer errors.old errors.new (result.ended, result.left))
        (λ asked. (text : List ℕ) × IsAnswer (B.may_be beside) programs.Supd asked text
        × (written : W) × ⟦<Supd<I> as Start<R, W, E>>⟧.rests supd reader written result.left
        × IsPut text (W.contents writer) (W.contents written) (E.contents errors.old) (E.contents errors.new) result.ended)
        programs.Supd arguments }
{
    run_asking(alloc, supd, arguments, room, beside, reader, writer, errors)
}

// An `Err` is want of memory, and gives both back.
fn streams_of<R: Read + Drop, W: Write + Drop>(
    alloc: Global,
    reader: R,
    writer: W,
) -> Result<Streams<BufReader<LateReader<R>>, W>, (R, W)>
    ensures new { IfOk result (λ host. host ≡ new_host (R.remaining reader) (W.contents writer)) }
    ensures reader { IfErr result (λ both. both.0 ≡ reader) }
    ensures writer { IfErr result (λ both. both.1 ≡ writer) }
{
    match buffered(alloc, reader) {
        Ok(buffer) => Ok(Streams::new(buffer, writer)),
        Err(reader) => Err((reader, writer)),
    }
}

/// Runs the node that the words set, over a keeper of its image, until its host says no more: [`run_filed`] has the rest. Answers the exit
/// status: that of the run, or `USAGE` where the words are refused, and 3 where the image can't be taken or read, or memory was refused;
/// and what is left of the images: where no node ran, they are as they were, or an image that can't be read.
pub fn run_given<I: Images, H: Host<DiskKeeper<I::Disk>>, E: Write>(
    alloc: Global,
    words: io::Result<Vec<String>>,
    images: I,
    host: &mut H,
    errors: &mut E,
) -> (Ended, Leaves<I, I::Disk, Left<DiskKeeper<I::Disk>>>)
    ensures runs { IfOk words (λ given. RunsSet I.Disk.may_have I.Disk.may_refuse I.takes images
        (settings_of (map string_bytes given.items)) (H.seen host.old) (H.seen host.new)
        (E.contents errors.old) (E.contents errors.new) (left_of result.1) result.0) }
    ensures fails { IfErr words (λ error. RunsWithout I.Disk.may_have I.Disk.may_refuse I.takes images error
        (H.seen host.old) (H.seen host.new)
        (E.contents errors.old) (E.contents errors.new) (left_of result.1) result.0) }
{
    match words {
        Ok(words) => run_words(alloc, words.as_slice(), images, host, errors),
        Err(error) => {
            let why = why_for(&error, Unserved::Words);
            (refuse(errors, why), Leaves::Images(images))
        }
    }
}

fn run_words<I: Images, H: Host<DiskKeeper<I::Disk>>, E: Write>(
    alloc: Global,
    words: &[String],
    images: I,
    host: &mut H,
    errors: &mut E,
) -> (Ended, Leaves<I, I::Disk, Left<DiskKeeper<I::Disk>>>)
    ensures { RunsSet I.Disk.may_have I.Disk.may_refuse I.takes images (settings_of (map string_bytes words.now)) (H.seen host.old) (H.seen host.new)
        (E.contents errors.old) (E.contents errors.new) (left_of result.1) result.0 }
{
    match texts_of(alloc, words) {
        Ok(texts) => run_texts(alloc, texts.as_slice(), images, host, errors),
        Err(_) => (
            refuse(errors, Unserved::OutOfMemory),
            Leaves::Images(images),
        ),
    }
}

fn texts_of<'a>(alloc: Global, words: &'a [String]) -> Result<Vec<&'a str>, AllocError>
    ensures { IfOk result (λ found. texts found.items ≡ map string_bytes words.entry.now) }
{
    let mut texts = Vec::new(alloc);
    for word in words {
        texts.push(word.as_str())?;
    }
    Ok(texts)
}

fn run_texts<I: Images, H: Host<DiskKeeper<I::Disk>>, E: Write>(
    alloc: Global,
    words: &[&str],
    images: I,
    host: &mut H,
    errors: &mut E,
) -> (Ended, Leaves<I, I::Disk, Left<DiskKeeper<I::Disk>>>)
    ensures { RunsSet I.Disk.may_have I.Disk.may_refuse I.takes images (settings_of (texts words.now)) (H.seen host.old) (H.seen host.new)
        (E.contents errors.old) (E.contents errors.new) (left_of result.1) result.0 }
{
    match read_settings(words) {
        Some(settings) => run_set(alloc, settings, images, host, errors),
        None => (refuse(errors, Unserved::Words), Leaves::Images(images)),
    }
}

fn run_set<I: Images, H: Host<DiskKeeper<I::Disk>>, E: Write>(
    alloc: Global,
    settings: Settings<'_>,
    images: I,
    host: &mut H,
    errors: &mut E,
) -> (Ended, Leaves<I, I::Disk, Left<DiskKeeper<I::Disk>>>)
    ensures { RunsSet I.Disk.may_have I.Disk.may_refuse I.takes images (Some (set_of settings.entry)) (H.seen host.old) (H.seen host.new)
        (E.contents errors.old) (E.contents errors.new) (left_of result.1) result.0 }
{
    let disk = match images.take(alloc, settings.image) {
        Ok(disk) => disk,
        Err(fault) => return (refuse(errors, why_untaken(fault)), Leaves::Nothing),
    };
    let keeper = match DiskKeeper::open(alloc, disk) {
        Ok(keeper) => keeper,
        Err(unopened) => {
            let Unopened { error, disk } = unopened;
            let why = why_for(&error, Unserved::Device);
            return (refuse(errors, why), Leaves::Image(disk));
        }
    };
    let (ended, left) = run_filed(
        alloc,
        settings.name,
        settings.config,
        settings.weighing,
        keeper,
        host,
        errors,
    );
    (ended, Leaves::Station(left))
}
