//! What a line is answered.

ghost use Rattle.std.specs.Prelude.{◌≡◌};
ghost use Rattle.pk_model.specs.Steps.{add, commit, count, delete, find, merge, show, tidy};
ghost use Rattle.pk_model.specs.Tree.{tree_of};
ghost use Rattle.pk_model.specs.Views.{reply_of};
ghost use Rattle.pk_shell.specs.Asked.{asked_held, asked_short, queries, is_quit};
ghost use Rattle.pk_shell.specs.Script.{IsReply};
ghost use Rattle.pk_shell.specs.Response.{response_text, is_bye};
ghost use Rattle.pk_shell.specs.StoreStep.{StoreStep};

use crate::ask::{Ask, ask_of};
use crate::engine::Engine;
use crate::line::Line;
use pk_disk::Disk;
use pk_model::{DocNo, Query, Reply};
use pk_query::{QueryFault, parse};
use pk_store::Store;
use std::alloc::Global;

/// What a line is answered.
#[derive(Drop)]
pub enum Response {
    /// The line was `quit`.
    Bye,
    /// The line is too long.
    LineTooLong,
    /// The line is no UTF-8 text.
    NotText,
    /// The line asks nothing that is known.
    Unknown,
    /// The line asks to change what is only read.
    ReadOnly,
    /// The query text of a `find` is no query, or there was no memory for it.
    QueryRefused(QueryFault),
    /// What the store replied.
    Replied(Reply),
}

impl Response {
    /// Whether it ends the session.
    pub fn is_bye(&self) -> bool
        ensures { result ≡ is_bye self.now }
    {
        matches!(self, Response::Bye)
    }
}

/// Answers what is held of a line.
pub fn answer_held<E: Engine>(alloc: Global, engine: &mut E, line: &Line) -> Response
    ensures reply { E.replies engine.old (asked_held line.now) (response_text result) engine.new }
    ensures bye { is_bye result ≡ is_quit (asked_held line.now) }
{
    match line.held() {
        Some(bytes) => answer_to(alloc, engine, bytes),
        None => Response::LineTooLong,
    }
}

/// Answers a line that is not too long.
fn answer_to<E: Engine>(alloc: Global, engine: &mut E, line: &[u8]) -> Response
    ensures reply { E.replies engine.old (asked_short line.now) (response_text result) engine.new }
    ensures bye { is_bye result ≡ is_quit (asked_short line.now) }
{
    match str::from_utf8(line) {
        Ok(line) => engine.answer(alloc, ask_of(line)),
        Err(_) => Response::NotText,
    }
}

/// A store takes each command.
impl<D: Disk> Engine for Store<D> {
    ghost use Rattle.std.specs.Prelude.{refl};

    ghost replies = { IsReply (StoreStep D.Disk) };

    fn answer(&mut self, alloc: Global, ask: Ask<'_>) -> Response {
        match ask {
            Ask::Add(text) => Response::Replied(reply_to_add(alloc, self, text)),
            Ask::Delete(number) => Response::Replied(reply_to_delete(alloc, self, number)),
            Ask::Find(text) => answer_find(alloc, self, text),
            Ask::Show(number) => Response::Replied(reply_to_show(alloc, self, number)),
            Ask::Commit => Response::Replied(reply_to_commit(alloc, self)),
            Ask::Merge => Response::Replied(reply_to_merge(alloc, self)),
            Ask::Tidy => Response::Replied(reply_to_tidy(alloc, self)),
            Ask::Count => Response::Replied(reply_to_count(self)),
            Ask::Quit => Response::Bye,
            Ask::Unknown => Response::Unknown,
        }
    }

    ghost refuses_unasked = { λ store why. (refl, refl) };
}

/// The reply to `add`.
fn reply_to_add<D: Disk>(alloc: Global, store: &mut Store<D>, text: &str) -> Reply
    ensures { StoreStep D.Disk store.old (add text.now) (reply_of result) store.new }
{
    match store.add(alloc, text) {
        Ok(number) => Reply::Added(number),
        Err(why) => Reply::Refused(why),
    }
}

/// The reply to `delete`.
fn reply_to_delete<D: Disk>(alloc: Global, store: &mut Store<D>, number: DocNo) -> Reply
    ensures { StoreStep D.Disk store.old (delete number.0) (reply_of result) store.new }
{
    match store.delete(alloc, number) {
        Ok(()) => Reply::Deleted(number),
        Err(why) => Reply::Refused(why),
    }
}

/// Answers `find`: the query text is judged before the store is asked.
fn answer_find<D: Disk>(alloc: Global, store: &mut Store<D>, text: &str) -> Response
    ensures reply { IsReply (StoreStep D.Disk) store.old
        (queries text.now) (response_text result) store.new }
    ensures bye { is_bye result ≡ is_quit (queries text.now) }
{
    match parse(alloc, text) {
        Ok(query) => Response::Replied(reply_to_query(alloc, store, &query)),
        Err(fault) => Response::QueryRefused(fault),
    }
}

/// The reply to a query.
fn reply_to_query<D: Disk>(alloc: Global, store: &mut Store<D>, query: &Query) -> Reply
    ensures { StoreStep D.Disk store.old (find (tree_of query.now)) (reply_of result) store.new }
{
    match store.find(alloc, query) {
        Ok(numbers) => Reply::Found(numbers),
        Err(why) => Reply::Refused(why),
    }
}

/// The reply to `show`.
fn reply_to_show<D: Disk>(alloc: Global, store: &mut Store<D>, number: DocNo) -> Reply
    ensures { StoreStep D.Disk store.old (show number.0) (reply_of result) store.new }
{
    match store.show(alloc, number) {
        Ok(text) => Reply::Text(text),
        Err(why) => Reply::Refused(why),
    }
}

/// The reply to `commit`.
fn reply_to_commit<D: Disk>(alloc: Global, store: &mut Store<D>) -> Reply
    ensures { StoreStep D.Disk store.old commit (reply_of result) store.new }
{
    match store.commit(alloc) {
        Ok(()) => Reply::Committed,
        Err(why) => Reply::Refused(why),
    }
}

/// The reply to `merge`.
fn reply_to_merge<D: Disk>(alloc: Global, store: &mut Store<D>) -> Reply
    ensures { StoreStep D.Disk store.old merge (reply_of result) store.new }
{
    match store.merge(alloc) {
        Ok(()) => Reply::Merged,
        Err(why) => Reply::Refused(why),
    }
}

/// The reply to `tidy`.
fn reply_to_tidy<D: Disk>(alloc: Global, store: &mut Store<D>) -> Reply
    ensures { StoreStep D.Disk store.old tidy (reply_of result) store.new }
{
    match store.tidy(alloc) {
        Ok(()) => Reply::Tidied,
        Err(why) => Reply::Refused(why),
    }
}

/// The reply to `count`.
fn reply_to_count<D: Disk>(store: &Store<D>) -> Reply
    ensures { StoreStep D.Disk store.now count (reply_of result) store.now }
{
    match store.counts() {
        Ok(counts) => Reply::Counted(counts),
        Err(why) => Reply::Refused(why),
    }
}
