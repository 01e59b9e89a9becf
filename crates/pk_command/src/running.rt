//! A session with a store.

ghost use Rattle.std.specs.Prelude.{◌≡◌, ◌+◌};
ghost use Rattle.pk_command.specs.Endings.{FileSessionOutcome, SessionOutcome};
ghost use Rattle.pk_command.specs.Left.{files_in_hand};

use crate::left::Left;
use crate::opening::store_at;
use crate::reporting::{DONE, FAILED, fail, opening_reason, session_reason};
use pk_disk::Disk;
use pk_filedisk::{FileDisk, OpensFiles, RawFile};
use pk_pages::PageCache;
use pk_shell::serve;
use pk_store::Store;
use pk_within::Shortened;
use std::alloc::Global;
use std::io::{Read, Write};

/// The most decoded blocks that the store of a session keeps, as of one that only reads. The other
/// commands keep none.
pub const CACHE_BLOCKS: u32 = 256;

/// The most pages of the file that such a session keeps: 64 MiB.
pub const PAGES: usize = 16_384;

/// Answers the lines of the input, from the store on a disk, and then the status, with the disk as
/// the lines left it.
fn run_on<D: Disk, R: Read, W: Write, E: Write>(
    alloc: Global,
    disk: D,
    input: &mut R,
    output: &mut W,
    faults: &mut E,
) -> (u8, D)
    ensures { SessionOutcome D.Disk disk result.1 (R.remaining input.old) (R.remaining input.new)
        (W.contents output.old) (W.contents output.new)
        (E.contents faults.old) (E.contents faults.new) result.0 }
{
    let mut store = match Store::open_on(alloc, disk, CACHE_BLOCKS) {
        Ok(store) => store,
        Err(refused) => return (fail(faults, opening_reason(refused.why)), refused.disk),
    };
    let served = serve(alloc, input, output, &mut store);
    let disk = store.close();
    match served {
        Ok(_) => (DONE, disk),
        Err(fault) => (fail(faults, session_reason(fault)), disk),
    }
}

/// Answers the lines of the input, from the store in a file, and then the status: 0 where they were
/// answered to their end or a `quit`, and else 1. Pages of the store that were read are kept. It
/// hands back the disk in the file, or the file where it is no disk.
pub fn run<F: RawFile + Drop, S: OpensFiles<File = F>, R: Read, W: Write, E: Write>(
    rt: &mut S,
    alloc: Global,
    path: &str,
    input: &mut R,
    output: &mut W,
    faults: &mut E,
) -> (u8, Left<F, FileDisk<F>>)
    ensures ended { FileSessionOutcome ⟦<FileDisk<F> as Disk>⟧
        ⟦<PageCache<Shortened<FileDisk<F>>> as Disk>⟧ F.RawFile
        (λ p. p.disk.disk) (λ d. d.file) (S.may_hold rt.old path.now) path.now
        (R.remaining input.old) (R.remaining input.new)
        (W.contents output.old) (W.contents output.new)
        (E.contents faults.old) (E.contents faults.new) result.0 result.1 }
    ensures opened { F.honest → S.opened rt.new ≡ S.opened rt.old + files_in_hand result.1 }
{
    let store = match store_at(rt, path, faults) {
        Ok(store) => store,
        Err(left) => return (FAILED, left),
    };
    let disk = PageCache::new(alloc, store, PAGES);
    let (status, disk) = run_on(alloc, disk, input, output, faults);
    (status, Left::Disk(disk.into_inner().into_inner()))
}
