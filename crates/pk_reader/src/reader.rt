//! A reader, and its answers.

ghost use Rattle.std.specs.Prelude.{◌≡◌, ◌≤◌, ◌+◌, None, IfErr, IfOk};
ghost use Rattle.pk_manifest.specs.Evolves.{in_force};
ghost use Rattle.pk_model.specs.Views.{reply_of};
ghost use Rattle.pk_reader.specs.Asking.{request_of};
ghost use Rattle.pk_reader.specs.Faults.{lasting_fault};
ghost use Rattle.pk_reader.specs.Held.{file_bytes, file_count};
ghost use Rattle.pk_reader.specs.Replies.{HasWaited, IsRead, ReaderReplies};
ghost use Rattle.pk_reader.specs.Unopened.{WasRefused};
ghost use Rattle.pk_shell.specs.Asked.{is_quit, queries};
ghost use Rattle.pk_shell.specs.Response.{is_bye, response_text};

use crate::opening::Caches;
use crate::question::Question;
use crate::view::View;
use crate::waiting::Waits;
use pk_model::{Refusal, Reply};
use pk_query::parse;
use pk_shell::{Ask, Engine, Response};
use pk_snapshot::{HeldFile, Refused, SnapshotFault};
use pk_store::OpenFault;
use std::alloc::Global;

/// How often a file is opened at most, at first.
const MOST_OPENINGS: u32 = 8;

/// A store in a file that another program may be writing. It holds a store over what is shown of the
/// file, or the file alone.
#[derive(Drop)]
pub struct Reader<V: View, C: Waits> {
    shown: Option<V>,
    file: Option<V::File>,
    caches: Caches,
    clock: C,
    ghost holds: { shown ≡ None → file ≡ None → ⊥ },
}

// Why a file is not opened again at once: none where it may be.
fn lasting_fault(why: SnapshotFault) -> Option<OpenFault>
    ensures { result ≡ lasting_fault why }
{
    match why {
        SnapshotFault::TooSmall => Some(OpenFault::TooSmall),
        SnapshotFault::Damaged => Some(OpenFault::Damaged),
        SnapshotFault::Memory => Some(OpenFault::Memory),
        SnapshotFault::Disk => Some(OpenFault::Disk),
        SnapshotFault::NotAStore | SnapshotFault::Changed => None,
    }
}

impl<V: View + Drop, C: Waits + Drop> Reader<V, C> {
    /// A reader of the store in a file.
    ///
    /// Refused as `TooSmall` where the file has fewer than 64 units, as `Damaged`, as `Memory`, as
    /// `Disk` where a read failed, or as `NotAStore` where eight openings were outdated, and the last
    /// saw both gates shut. Another that was outdated eight times is opened with the first question.
    pub fn open(
        alloc: Global,
        file: V::File,
        caches: Caches,
        clock: C,
    ) -> Result<Reader<V, C>, OpenFault>
        ensures fresh { V.File.SharedFile.honest → IfOk result (λ r. in_force (V.File.SharedFile.content file)
            ≤ in_force (file_bytes r.shown r.file V.File.SharedFile.content V.bytes)) }
        ensures refused { IfErr result (WasRefused V.File.SharedFile.honest
            V.File.SharedFile.content V.refuses file) }
    {
        let mut alone = file;
        let mut last = SnapshotFault::Changed;
        'tries: for _ in 0..MOST_OPENINGS {
            match V::open(alloc, caches, alone) {
                Ok(view) => {
                    return Ok(Reader {
                        shown: Some(view),
                        file: None,
                        caches,
                        clock,
                    });
                }
                Err(Refused { file, why }) => {
                    if let Some(fault) = lasting_fault(why) {
                        return Err(fault);
                    }
                    alone = file;
                    last = why;
                }
            }
        }
        match last {
            SnapshotFault::NotAStore => Err(OpenFault::NotAStore),
            _ => Ok(Reader {
                shown: None,
                file: Some(alone),
                caches,
                clock,
            }),
        }
    }

    // The reply to a question.
    fn reply_to(&mut self, alloc: Global, question: Question<'_>) -> Reply
        ensures { IsRead V.File.SharedFile.honest V.File.asked_at
            (file_bytes self.old.shown self.old.file V.File.SharedFile.content V.bytes)
            (request_of question.entry) (reply_of result)
            (file_bytes self.new.shown self.new.file V.File.SharedFile.content V.bytes)
            (file_count self.new.shown self.new.file
            (λ f. V.File.SharedFile.failed f + V.File.SharedFile.interrupted f) V.count)
            (HasWaited C.honest (C.waited self.old.clock) (C.waited self.new.clock)) }
    {
        let held = match (self.shown.take(), self.file.take()) {
            (Some(view), _) => Ok(view),
            (None, Some(alone)) => Err(alone),
            (None, None) => return Reply::Refused(Refusal::Disk),
        };
        let (reply, held) = V::ask(alloc, self.caches, &mut self.clock, held, question);
        match held {
            Ok(view) => self.shown = Some(view),
            Err(alone) => self.file = Some(alone),
        }
        reply
    }

    // Answers `find`: the query text is judged before the file is looked at.
    fn answer_find(&mut self, alloc: Global, text: &str) -> Response
        ensures reply { ⟦<Reader<V, C> as Engine>⟧.replies self.old (queries text.now)
            (response_text result) self.new }
        ensures bye { is_bye result ≡ is_quit (queries text.now) }
    {
        match parse(alloc, text) {
            Ok(query) => Response::Replied(self.reply_to(alloc, Question::Find(&query))),
            Err(fault) => Response::QueryRefused(fault),
        }
    }
}

/// A reader takes the commands that only read.
impl<V: View + Drop, C: Waits + Drop> Engine for Reader<V, C> {
    ghost use Rattle.std.specs.Prelude.{refl};

    ghost replies = { λ old what reply new. ReaderReplies old what reply new V.File.SharedFile.honest
        V.File.asked_at
        (λ r. file_bytes r.shown r.file V.File.SharedFile.content V.bytes)
        (λ r. file_count r.shown r.file
        (λ f. V.File.SharedFile.failed f + V.File.SharedFile.interrupted f) V.count)
        (λ o n. HasWaited C.honest (C.waited o.clock) (C.waited n.clock)) };

    fn answer(&mut self, alloc: Global, ask: Ask<'_>) -> Response {
        match ask {
            Ask::Find(text) => self.answer_find(alloc, text),
            Ask::Show(number) => Response::Replied(self.reply_to(alloc, Question::Show(number))),
            Ask::Count => Response::Replied(self.reply_to(alloc, Question::Count)),
            Ask::Add(_) | Ask::Delete(_) | Ask::Commit | Ask::Merge | Ask::Tidy => {
                Response::ReadOnly
            }
            Ask::Quit => Response::Bye,
            Ask::Unknown => Response::Unknown,
        }
    }

    ghost refuses_unasked = { λ reader why. (refl, refl) };
}
