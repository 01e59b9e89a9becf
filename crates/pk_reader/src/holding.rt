//! What is asked while no one writes, or between two tries at that.

ghost use Rattle.std.specs.Prelude.{◌≡◌, ◌+◌, false, IfNone, IfSome};
ghost use Rattle.pk_model.specs.Views.{reply_of};
ghost use Rattle.pk_reader.specs.Asking.{request_of};
ghost use Rattle.pk_reader.specs.Causes.{HasCause};
ghost use Rattle.pk_reader.specs.Held.{held_bytes, held_count};
ghost use Rattle.pk_reader.specs.Outdated.{IsOutdated, OutdatedTimes, WasOutdated, most_holds};
ghost use Rattle.pk_reader.specs.Reading.{ReadStep};
ghost use Rattle.pk_reader.specs.Replies.{HasWaited, IsAsked};

use crate::opening::Caches;
use crate::question::Question;
use crate::turning::{Held, file_of, turn};
use crate::waiting::Waits;
use pk_model::{Refusal, Reply};
use pk_snapshot::HeldFile;
use std::alloc::Global;

/// How often writers are asked to stay away, and how many milliseconds are waited after each try: a
/// second in all.
const MOST_HOLDS: u32 = 100;

const WAIT_MILLIS: u64 = 10;

// Asks once while no one writes, and lets writers come then.
fn ask_alone<F: HeldFile + Drop>(
    alloc: Global,
    caches: Caches,
    file: F,
    hold: F::Hold,
    question: Question<'_>,
) -> (Option<Reply>, F)
    ensures step { IfSome result.0 (λ reply. ReadStep F.SharedFile.honest
        (F.SharedFile.content file) (request_of question.entry) (reply_of reply)
        (F.SharedFile.content result.1)) }
    ensures cause { F.SharedFile.honest → IfSome result.0 (λ reply. HasCause
        (F.SharedFile.content file)
        (F.SharedFile.failed result.1 + F.SharedFile.interrupted result.1) (reply_of reply)) }
    ensures outdated { F.SharedFile.honest → IfNone result.0
        (IsOutdated (F.SharedFile.content file) (F.SharedFile.content result.1)) }
    ensures released { F.is_held result.1 ≡ false }
{
    let (reply, held) = turn(alloc, caches, Err(file), question);
    let mut file = file_of(held);
    file.release(hold);
    (reply, file)
}

// Asks once while no one writes, or, where there is a writer, once beside it.
fn ask_again<F: HeldFile + Drop>(
    alloc: Global,
    caches: Caches,
    held: Held<F>,
    question: Question<'_>,
) -> (Option<Reply>, Held<F>)
    ensures step { IfSome result.0 (λ reply. ReadStep F.SharedFile.honest
        (held_bytes held F.SharedFile.content (λ s. F.SharedFile.content s.store.volume.disk.disk.file))
        (request_of question.entry) (reply_of reply)
        (held_bytes result.1 F.SharedFile.content (λ s. F.SharedFile.content s.store.volume.disk.disk.file))) }
    ensures cause { F.SharedFile.honest → IfSome result.0 (λ reply. HasCause
        (held_bytes held F.SharedFile.content (λ s. F.SharedFile.content s.store.volume.disk.disk.file))
        (held_count result.1 (λ f. F.SharedFile.failed f + F.SharedFile.interrupted f)
        (λ s. F.SharedFile.failed s.store.volume.disk.disk.file
        + F.SharedFile.interrupted s.store.volume.disk.disk.file)) (reply_of reply)) }
    ensures outdated { F.SharedFile.honest → IfNone result.0 (WasOutdated F.asked_at
        (held_bytes held F.SharedFile.content (λ s. F.SharedFile.content s.store.volume.disk.disk.file))
        (held_bytes result.1 F.SharedFile.content (λ s. F.SharedFile.content s.store.volume.disk.disk.file))) }
{
    let mut file = file_of(held);
    match file.hold() {
        Some(hold) => {
            let (reply, file) = ask_alone(alloc, caches, file, hold, question);
            (reply, Err(file))
        }
        None => turn(alloc, caches, Err(file), question),
    }
}

/// Asks while no one writes, and beside writers between two tries at that, for a second:
/// `Refusal::Disk` where all that is read is outdated.
pub fn ask_held<F: HeldFile + Drop, C: Waits>(
    alloc: Global,
    caches: Caches,
    clock: &mut C,
    first: Held<F>,
    question: Question<'_>,
) -> (Reply, Held<F>)
    ensures { IsAsked F.SharedFile.honest
        (held_bytes first F.SharedFile.content (λ s. F.SharedFile.content s.store.volume.disk.disk.file))
        (request_of question.entry) (reply_of result.0)
        (held_bytes result.1 F.SharedFile.content (λ s. F.SharedFile.content s.store.volume.disk.disk.file))
        (held_count result.1 (λ f. F.SharedFile.failed f + F.SharedFile.interrupted f)
        (λ s. F.SharedFile.failed s.store.volume.disk.disk.file
        + F.SharedFile.interrupted s.store.volume.disk.disk.file))
        (OutdatedTimes F.asked_at most_holds
        (held_bytes first F.SharedFile.content (λ s. F.SharedFile.content s.store.volume.disk.disk.file))
        (held_bytes result.1 F.SharedFile.content (λ s. F.SharedFile.content s.store.volume.disk.disk.file))
        × HasWaited C.honest (C.waited clock.old) (C.waited clock.new)) }
{
    let mut held = first;
    'tries: for _ in 0..MOST_HOLDS {
        let (reply, now) = ask_again(alloc, caches, held, question);
        held = now;
        if let Some(reply) = reply {
            return (reply, held);
        }
        clock.wait(WAIT_MILLIS);
    }
    (Reply::Refused(Refusal::Disk), held)
}
