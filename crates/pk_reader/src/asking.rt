//! A question, asked until there is a reply.

ghost use Rattle.std.specs.Prelude.{◌+◌};
ghost use Rattle.pk_model.specs.Views.{reply_of};
ghost use Rattle.pk_reader.specs.Asking.{request_of};
ghost use Rattle.pk_reader.specs.Held.{held_bytes, held_count};
ghost use Rattle.pk_reader.specs.Replies.{HasWaited, IsRead};

use crate::holding::ask_held;
use crate::opening::Caches;
use crate::question::Question;
use crate::turning::{Held, turn};
use crate::waiting::Waits;
use pk_model::Reply;
use pk_snapshot::HeldFile;
use std::alloc::Global;

/// How often a file is opened at most for a question, beside its writers.
const MOST_OPENINGS: u32 = 8;

/// Asks until there is a reply: eight times beside writers, and then for a second without them, too.
pub fn ask<F: HeldFile + Drop, C: Waits>(
    alloc: Global,
    caches: Caches,
    clock: &mut C,
    first: Held<F>,
    question: Question<'_>,
) -> (Reply, Held<F>)
    ensures { IsRead F.SharedFile.honest F.asked_at
        (held_bytes first F.SharedFile.content (λ s. F.SharedFile.content s.store.volume.disk.disk.file))
        (request_of question.entry) (reply_of result.0)
        (held_bytes result.1 F.SharedFile.content (λ s. F.SharedFile.content s.store.volume.disk.disk.file))
        (held_count result.1 (λ f. F.SharedFile.failed f + F.SharedFile.interrupted f)
        (λ s. F.SharedFile.failed s.store.volume.disk.disk.file
        + F.SharedFile.interrupted s.store.volume.disk.disk.file))
        (HasWaited C.honest (C.waited clock.old) (C.waited clock.new)) }
{
    let mut held = first;
    'tries: for _ in 0..MOST_OPENINGS {
        let (reply, now) = turn(alloc, caches, held, question);
        held = now;
        if let Some(reply) = reply {
            return (reply, held);
        }
    }
    ask_held(alloc, caches, clock, held, question)
}
