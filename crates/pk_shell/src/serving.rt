//! Lines from a reader, replies to a writer.

ghost use Rattle.std.specs.Prelude.{◌≡◌, ◌^◌};
ghost use Rattle.pk_shell.specs.Asked.{asked_held};
ghost use Rattle.pk_shell.specs.Called.{EndsByCalls};
ghost use Rattle.pk_shell.specs.Script.{Ends, EndsAs, TakesAtMost};
ghost use Rattle.pk_shell.specs.StoreStep.{StoreStep};
ghost use Rattle.pk_shell.specs.Transcript.{AnswersLine, AnswersLines};

use crate::ending::{Ended, ShellFault};
use crate::engine::Engine;
use crate::line::Line;
use crate::outbox::Outbox;
use crate::reply::answer_held;
use crate::sending::{Unwritten, send};
use memchr::memchr;
use pk_disk::Disk;
use pk_store::Store;
use std::alloc::Global;
use std::io::{Read, Write};

/// After so many reads a session is broken off, so that it always ends.
const MAX_READS: u64 = 1 << 40;

/// The most bytes that one read asks for.
const CHUNK_BYTES: usize = 16_384;

/// How many reads a session makes at the most.
fn most_reads() -> u64
    ensures { result ≡ 2 ^ 40 }
{
    MAX_READS
}

/// What a session holds in memory, taken before the first read.
#[derive(Drop)]
struct Buffers {
    /// The line that is being read.
    line: Line,
    /// The reply that is being built.
    outbox: Outbox,
}

/// Answers what is held of a line, and says whether it was a quit.
fn answer_line<W: Write, E: Engine>(
    alloc: Global,
    line: &Line,
    outbox: &mut Outbox,
    engine: &mut E,
    writer: &mut W,
) -> Result<bool, Unwritten>
    ensures { AnswersLine E.replies (asked_held line.now) engine.old engine.new
        (W.contents writer.old) (W.contents writer.new) result }
{
    let response = answer_held(alloc, engine, line);
    let quits = response.is_bye();
    send(outbox, writer, &response)?;
    Ok(quits)
}

/// Takes in more bytes, answers each line that ends in them, and keeps what follows the last line
/// feed. It stops at a quit, and says whether there was one.
fn answer_lines<W: Write, E: Engine>(
    alloc: Global,
    buffers: &mut Buffers,
    engine: &mut E,
    writer: &mut W,
    chunk: &[u8],
) -> Result<bool, Unwritten>
    ensures { AnswersLines E.replies buffers.old.line engine.old (W.contents writer.old)
        chunk.now result buffers.new.line engine.new (W.contents writer.new) }
{
    let mut rest = chunk;
    'lines: while let Some(end) = memchr(b'\n', rest) {
        buffers.line.extend(&rest[..end]);
        let quits = answer_line(alloc, &buffers.line, &mut buffers.outbox, engine, writer)?;
        buffers.line.clear();
        if quits {
            return Ok(true);
        }
        rest = &rest[end + 1..];
    }
    buffers.line.extend(rest);
    Ok(false)
}

/// Serves a store: as `serve_engine`, each line that asks the store being the next call of it.
pub fn serve<R: Read, W: Write, D: Disk>(
    alloc: Global,
    reader: &mut R,
    writer: &mut W,
    store: &mut Store<D>,
) -> Result<Ended, ShellFault>
    ensures ends { Ends (StoreStep D.Disk) store.old
        (R.remaining reader.old) (R.remaining reader.new)
        (W.contents writer.old) (W.contents writer.new) result store.new }

    // What 2^40 reads of 16,384 bytes give, at the most.
    ensures taken { TakesAtMost (2 ^ 54) (R.remaining reader.old) (R.remaining reader.new) }

    // Each line that asks the store is the next call of it, and each image since a call began holds
    // a prefix of what was accepted that has what was acknowledged before.
    ensures calls { EndsByCalls D.Disk store.old (R.remaining reader.old) (R.remaining reader.new)
        (W.contents writer.old) (W.contents writer.new) result store.new }
{
    serve_engine(alloc, reader, writer, store)
}

/// Answers the lines of the reader until a quit or the end of the input: each line gets its reply
/// line, in their order, however the reader cuts them. It reads 16,384 bytes a call at the most,
/// takes its memory before the first read, and ends after 2^40 reads at the latest.
///
/// What each ending means is `EndsAs`, in specs/: a fault names what was answered before it. How
/// much behind a `quit` was taken from the reader is open, but all in all no more than 2^54 bytes are.
pub fn serve_engine<R: Read, W: Write, E: Engine>(
    alloc: Global,
    reader: &mut R,
    writer: &mut W,
    engine: &mut E,
) -> Result<Ended, ShellFault>
    ensures ends { EndsAs E.replies engine.old
        (R.remaining reader.old) (R.remaining reader.new)
        (W.contents writer.old) (W.contents writer.new) result engine.new }

    // What 2^40 reads of 16,384 bytes give, at the most.
    ensures taken { TakesAtMost (2 ^ 54) (R.remaining reader.old) (R.remaining reader.new) }
{
    let line = Line::new(alloc)?;
    let outbox = Outbox::new(alloc)?;
    let mut buffers = Buffers { line, outbox };
    let mut chunk = [0u8; CHUNK_BYTES];
    for _ in 0..most_reads() {
        match reader.read(&mut chunk) {
            Err(_) => return Err(ShellFault::Input),
            Ok(0) => {
                if buffers.line.is_blank() {
                    return Ok(Ended::InputEnd);
                }
                let quits = answer_line(alloc, &buffers.line, &mut buffers.outbox, engine, writer)?;
                if quits {
                    return Ok(Ended::Quit);
                }
                return Ok(Ended::InputEnd);
            }
            Ok(n) => {
                if answer_lines(alloc, &mut buffers, engine, writer, &chunk[..n])? {
                    return Ok(Ended::Quit);
                }
            }
        }
    }
    Err(ShellFault::TooManyReads)
}
