//! A question, asked once of the newest that is in force.

ghost use Rattle.std.specs.Prelude.{◌≡◌, ◌≤◌, ◌+◌, Err, None, IfErr, IfNone, IfOk, IfSome, IsSomeAnd, MatchOption};
ghost use Rattle.pk_manifest.specs.Evolves.{in_force};
ghost use Rattle.pk_model.specs.Views.{reply_of};
ghost use Rattle.pk_reader.specs.Asking.{request_of};
ghost use Rattle.pk_reader.specs.Causes.{HasCause, IsCausedBy};
ghost use Rattle.pk_reader.specs.Held.{held_bytes, held_count};
ghost use Rattle.pk_reader.specs.Outdated.{IsOutdated};
ghost use Rattle.pk_reader.specs.Reading.{ReadStep};
ghost use Rattle.pk_reader.specs.Refused.{RefusedOpening};
ghost use Rattle.pk_reader.specs.Without.{refusal_without};

use crate::opening::{Caches, Open, close, open_file};
use crate::question::Question;
use pk_disk::Disk;
use pk_model::{Refusal, Reply};
use pk_pages::PageCache;
use pk_snapshot::{Refused, SharedFile, SnapshotDisk, SnapshotFault};
use std::alloc::Global;

/// What is held of a file: a store over what is shown of it, or the file alone.
pub type Held<F> = Result<Open<F>, F>;

/// The file that is held.
pub fn file_of<F: SharedFile>(held: Held<F>) -> F
    ensures bytes { F.content result
        ≡ held_bytes held F.content (λ s. F.content s.store.volume.disk.disk.file) }
    ensures count { F.failed result + F.interrupted result
        ≡ held_count held (λ f. F.failed f + F.interrupted f)
        (λ s. F.failed s.store.volume.disk.disk.file
        + F.interrupted s.store.volume.disk.disk.file) }
{
    match held {
        Ok(view) => close(view, SnapshotFault::Changed).file,
        Err(file) => file,
    }
}

// A store over the newest that is in force: the one that is held, if it shows that.
fn newest<F: SharedFile + Drop>(
    alloc: Global,
    caches: Caches,
    held: Held<F>,
) -> Result<Open<F>, Refused<F>>
    ensures fresh { F.honest → IfOk result
        (λ s. in_force (held_bytes held F.content (λ s. F.content s.store.volume.disk.disk.file))
        ≤ in_force (⟦<PageCache<SnapshotDisk<F>> as Disk>⟧.content s.store.volume.disk)) }
    ensures refused { F.honest → IfErr result (λ r. RefusedOpening
        (held_bytes held F.content (λ s. F.content s.store.volume.disk.disk.file))
        (F.content r.file) (F.marked r.file) r.why) }
    ensures cause { F.honest → IfErr result (λ r. IsCausedBy
        (held_bytes held F.content (λ s. F.content s.store.volume.disk.disk.file))
        (F.failed r.file + F.interrupted r.file) r.why) }
{
    match held {
        Err(file) => open_file(alloc, caches, file),
        Ok(view) => renewed(alloc, caches, view),
    }
}

// A store that shows the newest: it, or another.
fn renewed<F: SharedFile + Drop>(
    alloc: Global,
    caches: Caches,
    mut view: Open<F>,
) -> Result<Open<F>, Refused<F>>
    ensures fresh { F.honest → IfOk result
        (λ s. in_force (F.content view.store.volume.disk.disk.file)
        ≤ in_force (⟦<PageCache<SnapshotDisk<F>> as Disk>⟧.content s.store.volume.disk)) }
    ensures refused { F.honest → IfErr result (λ r. RefusedOpening
        (F.content view.store.volume.disk.disk.file)
        (F.content r.file) (F.marked r.file) r.why) }
    ensures cause { F.honest → IfErr result (λ r. IsCausedBy
        (F.content view.store.volume.disk.disk.file)
        (F.failed r.file + F.interrupted r.file) r.why) }
{
    if let Ok(true) = view.is_latest() {
        return Ok(view);
    }
    let Refused { file, .. } = close(view, SnapshotFault::Changed);
    open_file(alloc, caches, file)
}

// What is told where there is no store: nothing where another body took the place meanwhile, or
// where both gates were seen shut one after the other.
fn reply_without(why: SnapshotFault) -> Option<Reply>
    ensures told { MatchOption result (refusal_without why ≡ None)
        (λ reply. IsSomeAnd (refusal_without why) (λ it. reply_of reply ≡ Err it)) }
{
    match why {
        SnapshotFault::Changed | SnapshotFault::NotAStore => None,
        SnapshotFault::Memory => Some(Reply::Refused(Refusal::Memory)),
        SnapshotFault::Damaged => Some(Reply::Refused(Refusal::Damaged)),
        SnapshotFault::TooSmall | SnapshotFault::Disk => Some(Reply::Refused(Refusal::Disk)),
    }
}

/// Asks once, and tells what is held then. There is no reply where what is read is outdated: the
/// question is to be asked again. So `Refusal::Disk` has another cause.
pub fn turn<F: SharedFile + Drop>(
    alloc: Global,
    caches: Caches,
    held: Held<F>,
    question: Question<'_>,
) -> (Option<Reply>, Held<F>)
    ensures step { IfSome result.0 (λ reply. ReadStep F.honest
        (held_bytes held F.content (λ s. F.content s.store.volume.disk.disk.file))
        (request_of question.entry) (reply_of reply)
        (held_bytes result.1 F.content (λ s. F.content s.store.volume.disk.disk.file))) }
    ensures outdated { F.honest → IfNone result.0 (IsOutdated
        (held_bytes held F.content (λ s. F.content s.store.volume.disk.disk.file))
        (held_bytes result.1 F.content (λ s. F.content s.store.volume.disk.disk.file))) }
    ensures cause { F.honest → IfSome result.0 (λ reply. HasCause
        (held_bytes held F.content (λ s. F.content s.store.volume.disk.disk.file))
        (held_count result.1 (λ f. F.failed f + F.interrupted f)
        (λ s. F.failed s.store.volume.disk.disk.file
        + F.interrupted s.store.volume.disk.disk.file)) (reply_of reply)) }
{
    let mut view = match newest(alloc, caches, held) {
        Ok(view) => view,
        Err(Refused { file, why }) => {
            return (reply_without(why), Err(file));
        }
    };
    let reply = view.ask(alloc, question);
    if let Reply::Refused(Refusal::Disk) = reply {
        let Refused { file, why } = close(view, SnapshotFault::Disk);
        return (reply_without(why), Err(file));
    }
    (Some(reply), Ok(view))
}
