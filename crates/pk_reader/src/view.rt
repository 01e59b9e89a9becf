//! A store over what is shown of a file, and the file.

ghost use Rattle.std.specs.Prelude.{◌≤◌, ◌+◌, ℕ, List, IfErr, IfOk};
ghost use Rattle.pk_manifest.specs.Evolves.{in_force};
ghost use Rattle.pk_model.specs.Views.{reply_of};
ghost use Rattle.pk_reader.specs.Asking.{request_of};
ghost use Rattle.pk_reader.specs.Causes.{IsCausedBy};
ghost use Rattle.pk_reader.specs.Held.{held_bytes, held_count};
ghost use Rattle.pk_reader.specs.Outdated.{IsOutdated, OnOutdated};
ghost use Rattle.pk_reader.specs.Refused.{RefusedOpening};
ghost use Rattle.pk_reader.specs.Replies.{HasWaited, IsRead};
ghost use Rattle.pk_snapshot.specs.declared.fault.SnapshotFault.{SnapshotFault};

use crate::asking::ask;
use crate::opening::{Caches, Open, open_file};
use crate::question::Question;
use crate::waiting::Waits;
use pk_model::Reply;
use pk_snapshot::{HeldFile, Refused};
use std::alloc::Global;

/// A store over what is shown of a file: what a reader holds while it answers.
pub trait View: Sized {
    type File: HeldFile + Drop;

    /// The bytes of the file.
    ghost bytes: { Self → List ℕ };

    /// How many calls of the file failed or were interrupted.
    ghost count: { Self → ℕ };

    /// What it says that a file was not opened for this reason, of the file before and after.
    ghost refuses: { Self.File → Self.File → SnapshotFault → Type 0 };

    /// Opens what is in force on a file. The file is handed back with a refusal.
    fn open(alloc: Global, caches: Caches, file: Self::File) -> Result<Self, Refused<Self::File>>
        ensures fresh { Self.File.SharedFile.honest → IfOk result
            (λ s. in_force (Self.File.SharedFile.content file) ≤ in_force (bytes s)) }
        ensures later { Self.File.SharedFile.honest → IfErr result
            (λ r. in_force (Self.File.SharedFile.content file)
            ≤ in_force (Self.File.SharedFile.content r.file)) }
        ensures refused { IfErr result (λ r. refuses file r.file r.why) }
        ensures outdated { Self.File.SharedFile.honest → IfErr result (λ r. OnOutdated r.why (IsOutdated
            (Self.File.SharedFile.content file) (Self.File.SharedFile.content r.file))) };

    /// Asks until there is a reply: eight times beside writers, and then a hundred times, each after
    /// writers were asked to stay away.
    fn ask<C: Waits>(
        alloc: Global,
        caches: Caches,
        clock: &mut C,
        first: Result<Self, Self::File>,
        question: Question<'_>,
    ) -> (Reply, Result<Self, Self::File>)
        ensures { IsRead Self.File.SharedFile.honest Self.File.asked_at
            (held_bytes first Self.File.SharedFile.content bytes)
            (request_of question.entry) (reply_of result.0)
            (held_bytes result.1 Self.File.SharedFile.content bytes)
            (held_count result.1
            (λ f. Self.File.SharedFile.failed f + Self.File.SharedFile.interrupted f) count)
            (HasWaited C.honest (C.waited clock.old) (C.waited clock.new)) };
}

impl<F: HeldFile + Drop> View for Open<F> {
    type File = F;

    ghost bytes = { λ s. F.SharedFile.content s.store.volume.disk.disk.file };

    ghost count = { λ s. F.SharedFile.failed s.store.volume.disk.disk.file
        + F.SharedFile.interrupted s.store.volume.disk.disk.file };

    ghost refuses = { λ old new why. F.SharedFile.honest → RefusedOpening (F.SharedFile.content old)
        (F.SharedFile.content new) (F.SharedFile.marked new) why × IsCausedBy
        (F.SharedFile.content old) (F.SharedFile.failed new + F.SharedFile.interrupted new) why };

    fn open(alloc: Global, caches: Caches, file: F) -> Result<Open<F>, Refused<F>> {
        open_file(alloc, caches, file)
    }

    fn ask<C: Waits>(
        alloc: Global,
        caches: Caches,
        clock: &mut C,
        first: Result<Open<F>, F>,
        question: Question<'_>,
    ) -> (Reply, Result<Open<F>, F>)
        ensures { IsRead F.SharedFile.honest F.asked_at
            (held_bytes first F.SharedFile.content
            (λ s. F.SharedFile.content s.store.volume.disk.disk.file))
            (request_of question.entry) (reply_of result.0)
            (held_bytes result.1 F.SharedFile.content
            (λ s. F.SharedFile.content s.store.volume.disk.disk.file))
            (held_count result.1 (λ f. F.SharedFile.failed f + F.SharedFile.interrupted f)
            (λ s. F.SharedFile.failed s.store.volume.disk.disk.file
            + F.SharedFile.interrupted s.store.volume.disk.disk.file))
            (HasWaited C.honest (C.waited clock.old) (C.waited clock.new)) }
    {
        ask(alloc, caches, clock, first, question)
    }
}
