//! Lines to replies: the shell of a store.
//!
//! A line is the bytes up to a line feed; bytes after the last line feed, if any, are a line. Each
//! line gets one reply line. [`serve`] reads them from any reader, however it cuts its input, and
//! writes the replies to any writer, each built whole and sent in one call where it is not longer
//! than 65,536 bytes.
//!
//! | line | reply |
//! |---|---|
//! | `add T` | `added N` |
//! | `delete N` | `deleted N` |
//! | `find Q` | `found K:` and the K numbers, each after a space |
//! | `show N` | `text ` and the text, a line feed as `\n`, a backslash as `\\` |
//! | `commit` | `committed`: what was uncommitted is on the disk |
//! | `merge` | `merged`: all segments are one |
//! | `tidy` | `tidied`: eight neighbouring segments are one, or there are fewer than eight |
//! | `count` | `count D next N` |
//! | `quit` | `bye`; what follows is not answered |
//!
//! Anything else is `refused ` and a reason. A line is judged in this order: too long (more than
//! 1,048,640 bytes; what passes that is skipped and never kept), no UTF-8 text, unknown. A refused
//! query is answered before the store is asked, also by a store that is to be opened again.
//!
//! | reason | when the store is asked |
//! |---|---|
//! | `reopen` | a write or a sync failed before: no command is answered until it is opened again |
//! | `text too long`, `buffer full` | the text to add, or all that is uncommitted, is too long |
//! | `numbers used up` | no number is left for a document, or none for what is to be written |
//! | `no such document` | no live document has the number |
//! | `too many segments` | a document is new, and the store has 4,096 segments |
//! | `segment too large` | the segment to be written would pass 1,073,741,824 bytes |
//! | `full need A largest B` | A units in a row are needed, and the longest free run has B |
//! | `memory`, `disk` | a growth of memory was refused, a call of the device failed |
//! | `damaged` | bytes of the disk are no spelling of what should stand there |
//!
//! What is uncommitted lives in memory: it is lost where the session's end drops the store.
//!
//! | `serve` ends with | when | what was written |
//! |---|---|---|
//! | `Quit` | a `quit` was answered | the replies up to `bye` |
//! | `InputEnd` | the reader gave no byte | the replies to all lines |
//! | `ShellFault::Input` | a read failed | the replies to the whole lines read |
//! | `ShellFault::Output` | a write failed or took no byte | a beginning of the replies |
//! | `ShellFault::TooManyReads` | 2^40 bytes or more were read | those to the whole lines read |
//! | `ShellFault::Memory` | its buffers were not to be had | nothing, and nothing was read |
//!
//! [`serve_engine`] serves any [`Engine`], which says itself which replies are right: to what a line
//! asks, and what of it is then (`replies`). Of one that only reads, a line that asks to change
//! something is `refused read only`. [`serve`] serves a store, which takes each command.
//!
//! In specs/, `Asked` says what a line asks, `ReplyText` how a reply is spelled, `Script` what a
//! legal script is and what each ending means. `Script` is said of any engine, by its replies: those
//! of [`serve`] are right by the store's `Steps`, over any disk (`IsReply`). `Called` says the same by
//! calls of the store, and what these leave on the disk.
#![tactic(auto)]

mod ask;
mod ending;
mod engine;
mod line;
mod outbox;
mod reply;
mod sending;
mod serving;

pub use ask::Ask;
pub use ending::{Ended, ShellFault};
pub use engine::Engine;
pub use reply::Response;
pub use sending::{Unwritten, write_all};
pub use serving::{serve, serve_engine};
