//! A session that only reads, beside whoever writes.

ghost use Rattle.std.specs.Prelude.{◌≡◌};
ghost use Rattle.pk_command.specs.Reading.{IsBegun, ReadOutcome, reading_words, shared_words};
ghost use Rattle.pk_reader.specs.Held.{file_bytes};

use crate::reporting::{DONE, fail, file_reason, opening_reason, session_reason};
use crate::running::{CACHE_BLOCKS, PAGES};
use pk_filedisk::FileFault;
use pk_reader::{Caches, Open, OpensShared, Reader, SharedFault, Sleeper};
use pk_shell::{Engine, serve_engine};
use pk_snapshot::HeldFile;
use pk_store::OpenFault;
use std::alloc::Global;
use std::io::{Read, Write};
use std::time::Clock;

/// What a reader keeps: as much as a session that writes.
const CACHES: Caches = Caches {
    pages: PAGES,
    blocks: CACHE_BLOCKS,
};

/// Why a file was not opened, as a line.
fn shared_reason(fault: SharedFault) -> &'static str
    ensures { result.now ≡ shared_words fault }
{
    match fault {
        SharedFault::Missing => file_reason(FileFault::Missing),
        SharedFault::Disk => file_reason(FileFault::Disk),
    }
}

/// Why there is nothing to read, as a line. A file that is too small has a bad length.
fn reading_reason(fault: OpenFault) -> &'static str
    ensures { result.now ≡ reading_words fault }
{
    match fault {
        OpenFault::TooSmall => file_reason(FileFault::BadLength),
        _ => opening_reason(fault),
    }
}

/// Answers the lines of the input, from the store in a file that others may write, and then the
/// status: 0 where they were answered to their end or a `quit`, and else 1. The file is opened to be
/// read alone.
pub fn read<'a, F, S, R: Read, W: Write, E: Write>(
    rt: &'a S,
    alloc: Global,
    path: &str,
    input: &mut R,
    output: &mut W,
    faults: &mut E,
) -> u8
where
    F: HeldFile + Drop,
    S: OpensShared<Shared = F> + Clock,
    ensures { ReadOutcome ⟦<Reader<Open<F>, Sleeper<&'a S>> as Engine>⟧.replies
        (λ r. IsBegun F.SharedFile.honest (S.may_share rt.now path.now) (file_bytes r.shown r.file
        F.SharedFile.content (λ s. F.SharedFile.content s.store.volume.disk.disk.file)))
        (R.remaining input.old) (R.remaining input.new)
        (W.contents output.old) (W.contents output.new)
        (E.contents faults.old) (E.contents faults.new) result }
{
    let file = match rt.open_shared(path) {
        Ok(file) => file,
        Err(fault) => return fail(faults, shared_reason(fault)),
    };
    let clock = Sleeper { clock: rt };
    let mut reader = match Reader::<Open<F>, Sleeper<&'a S>>::open(alloc, file, CACHES, clock) {
        Ok(reader) => reader,
        Err(fault) => return fail(faults, reading_reason(fault)),
    };
    match serve_engine(alloc, input, output, &mut reader) {
        Ok(_) => DONE,
        Err(fault) => fail(faults, session_reason(fault)),
    }
}
