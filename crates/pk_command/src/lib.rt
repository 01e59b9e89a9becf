//! What the program does on a command line: a Boolean search engine over lines of text, with its
//! documents in a file. `pk_find` hands it the words, the input and the output of its process.
//!
//! `pk_find create PATH --units N` makes a file of N units of 512 bytes with an empty store in it.
//! `pk_find grow PATH --units N` gives the store in a file N units, and makes the file longer where it
//! has fewer.
//! `pk_find run PATH` opens the store in a file and answers the lines of its standard input, one
//! reply line for each, until `quit` or the end of the input.
//! `pk_find read PATH` does so for the lines that only ask, while others may write the file.
//! `pk_find check PATH` reads all that is committed in the store in a file, compares it byte by byte
//! with what its documents give, and prints `ok D documents next N segments S`.
//!
//! | status | when | standard error |
//! |---|---|---|
//! | 0 | the store is made, has the units, or is sound; help, version | nothing |
//! | 0 | the input is answered to its end or a `quit` | nothing |
//! | 1 | a command failed | `pk_find: ` and one of the reasons below, in one line |
//! | 2 | the command line was refused | why, and how it is to be used; of an argument that is no UTF-8 one line |
//!
//! | reason | when |
//! |---|---|
//! | `exists` | there is something at the path of `create` already; it stays as it is |
//! | `missing` | there is nothing at the path of a command other than `create` |
//! | `bad length` | its file has fewer than 64 whole units, or more than 2,147,483,648 |
//! | `too small`, `already a store` | the disk of a new store is too small, or has one |
//! | `not a store` | the file has no store |
//! | `shorter` | the store has more units than `grow` asks for |
//! | `numbers used up` | there is no generation for the body of a growth |
//! | `damaged` | the store's bytes are not sound: for `grow` the body in force, for `run` and `read` those that opening reads, for `check` all |
//! | `in use` | another program has the file, which is nothing to `read` |
//! | `disk` | the system refused a call of the file |
//! | `memory` | a growth of memory was refused |
//! | `input`, `output` | a read of standard input, or a write of standard output, failed |
//! | `too many reads` | there were 2^40 reads of standard input |
//!
//! The command line is judged first, then the file, then the store, then what is printed. A file
//! that `create` made stays where a later step fails, and one that `grow` made longer stays longer.
//! What a session added and did not commit is lost with its end.
#![tactic(auto)]

mod checking;
mod creating;
mod growing;
mod left;
mod opening;
mod reading;
mod reporting;
mod running;
mod telling;

ghost use Rattle.std.specs.Prelude.{◌≡◌, ◌+◌, map, string_bytes};
ghost use Rattle.pk_command.specs.Commands.{CommandOutcome};
ghost use Rattle.pk_command.specs.Left.{files_in_hand};
ghost use Rattle.pk_command.specs.Reading.{IsBegun};
ghost use Rattle.pk_reader.specs.Held.{file_bytes};

use checking::check;
use creating::create;
use growing::grow;
pub use left::Left;
use pk_arguments::{Asked, asked_by_words};
use pk_disk::Disk;
use pk_filedisk::{FileDisk, FileSystem, RawFile};
use pk_pages::PageCache;
use pk_reader::{Open, OpensShared, Reader, Sleeper};
use pk_shell::Engine;
use pk_snapshot::HeldFile;
use pk_within::Shortened;
use reading::read;
use reporting::refuse;
pub use reporting::refuse_words;
use running::run;
use std::alloc::Global;
use std::io::{Read, Write};
use std::time::Clock;

/// Runs one command line and answers its status: 0 where all was done, 1 where it failed, with a
/// line on `faults`, 2 where the command line was refused. `words` begin with the program's name,
/// and decide which; what came of it then is `CommandOutcome`, in specs/. With the status it hands
/// back what it has of the file: dropped, that closes the file, and frees its lock.
pub fn command<'a, F, G, S, R: Read, W: Write, E: Write>(
    rt: &'a mut S,
    alloc: Global,
    words: &[String],
    input: &mut R,
    output: &mut W,
    faults: &mut E,
) -> (u8, Left<F, FileDisk<F>>)
where
    F: RawFile + Drop,
    G: HeldFile + Drop,
    S: FileSystem<File = F> + OpensShared<Shared = G> + Clock,
    ensures ended { CommandOutcome ⟦<FileDisk<F> as Disk>⟧ ⟦<Shortened<FileDisk<F>> as Disk>⟧
        ⟦<PageCache<Shortened<FileDisk<F>>> as Disk>⟧ F.RawFile (λ s. s.disk) (λ p. p.disk.disk)
        (λ d. d.file) (S.may_hold rt.old) ⟦<Reader<Open<G>, Sleeper<&'a S>> as Engine>⟧.replies
        (λ path r. IsBegun G.SharedFile.honest (S.may_share rt.old path) (file_bytes r.shown r.file
        G.SharedFile.content (λ s. G.SharedFile.content s.store.volume.disk.disk.file))) (map string_bytes words.now)
        (R.remaining input.old) (R.remaining input.new)
        (W.contents output.old) (W.contents output.new)
        (E.contents faults.old) (E.contents faults.new) result.0 result.1 }

    // No file is opened but the one in hand.
    ensures opened { F.honest → S.opened rt.new ≡ S.opened rt.old + files_in_hand result.1 }
{
    match asked_by_words(alloc, words) {
        Ok(Asked::Create { path, units }) => create(rt, alloc, path, units, output, faults),
        Ok(Asked::Grow { path, units }) => grow(rt, alloc, path, units, output, faults),
        Ok(Asked::Run { path }) => run(rt, alloc, path, input, output, faults),
        Ok(Asked::Read { path }) => {
            let status = read(rt, alloc, path, input, output, faults);
            (status, Left::Nothing)
        }
        Ok(Asked::Check { path }) => check(rt, alloc, path, output, faults),
        Err(unasked) => (refuse(output, faults, &unasked), Left::Nothing),
    }
}
