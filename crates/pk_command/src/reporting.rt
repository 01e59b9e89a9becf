//! Statuses, and the lines on standard error.

ghost use Rattle.std.specs.Prelude.{◌≡◌};
ghost use Rattle.pk_command.specs.Endings.{HelpOutcome, IsTold, RefusalOutcome};
ghost use Rattle.pk_command.specs.Reasons.{checking_words, creating_words, file_words};
ghost use Rattle.pk_command.specs.Growing.{growing_words};
ghost use Rattle.pk_command.specs.Reasons.{opening_words, session_words};
ghost use Rattle.pk_command.specs.Unread.{UnreadOutcome};

use pk_arguments::Unasked;
use pk_filedisk::FileFault;
use pk_grow::GrowFault;
use pk_manifest::ManifestFault;
use pk_model::Refusal;
use pk_shell::{ShellFault, write_all};
use pk_store::{CreateFault, OpenFault};
use std::io;
use std::io::Write;

/// All was done, or help was asked for.
pub const DONE: u8 = 0;

/// The command failed.
pub const FAILED: u8 = 1;

/// The command line was refused.
pub const REFUSED: u8 = 2;

/// What is told where a growth of memory was refused.
pub const MEMORY: &str = "pk_find: memory\n";

/// What is told where the system refused a call of the file.
pub const DISK: &str = "pk_find: disk\n";

/// What is told where the output could not be written.
pub const OUTPUT: &str = "pk_find: output\n";

/// What is told where a word of the command line is not text.
const NOT_TEXT: &str = "error: an argument is not text\n";

/// Tells a line or more on standard error. Where that takes nothing, the status tells it alone.
fn tell<E: Write>(faults: &mut E, line: &str)
    ensures { IsTold (E.contents faults.old) (E.contents faults.new) line.now }
{
    let _ = write_all(faults, line.as_bytes());
}

/// Tells why a command failed, in this line.
pub fn fail<E: Write>(faults: &mut E, line: &str) -> u8
    ensures status { result ≡ FAILED }
    ensures told { IsTold (E.contents faults.old) (E.contents faults.new) line.now }
{
    tell(faults, line);
    FAILED
}

/// Tells why the words of a command line could not be read, by the kind of the error, and answers
/// the status: 2 where one of them is not text, and else 1, for want of memory.
pub fn refuse_words<E: Write>(kind: io::ErrorKind, faults: &mut E) -> u8
    ensures { UnreadOutcome kind (E.contents faults.old) (E.contents faults.new) result }
{
    if kind == io::ErrorKind::InvalidData {
        tell(faults, NOT_TEXT);
        return REFUSED;
    }
    fail(faults, MEMORY)
}

/// Tells the help that was asked for, and answers the status.
fn tell_help<W: Write, E: Write>(output: &mut W, faults: &mut E, text: &str) -> u8
    ensures { HelpOutcome text.now (W.contents output.old) (W.contents output.new)
        (E.contents faults.old) (E.contents faults.new) result }
{
    match write_all(output, text.as_bytes()) {
        Ok(()) => DONE,
        Err(_) => fail(faults, OUTPUT),
    }
}

/// Tells why the command line was refused, or the help that was asked for, and answers the status.
pub fn refuse<W: Write, E: Write>(output: &mut W, faults: &mut E, unasked: &Unasked) -> u8
    ensures { RefusalOutcome unasked.now (W.contents output.old) (W.contents output.new)
        (E.contents faults.old) (E.contents faults.new) result }
{
    match unasked {
        Unasked::Help(text) => tell_help(output, faults, text.as_str()),
        Unasked::Refused(text) => {
            tell(faults, text.as_str());
            REFUSED
        }
        Unasked::Memory => fail(faults, MEMORY),
    }
}

/// Why a file is no disk, as a line.
pub fn file_reason(fault: FileFault) -> &'static str
    ensures { result.now ≡ file_words fault }
{
    match fault {
        FileFault::Exists => "pk_find: exists\n",
        FileFault::Missing => "pk_find: missing\n",
        FileFault::BadLength => "pk_find: bad length\n",
        FileFault::InUse => "pk_find: in use\n",
        FileFault::Disk => DISK,
    }
}

/// Why no store was made, as a line.
pub fn creating_reason(fault: CreateFault) -> &'static str
    ensures { result.now ≡ creating_words fault }
{
    match fault {
        CreateFault::TooSmall => "pk_find: too small\n",
        CreateFault::AlreadyAStore => "pk_find: already a store\n",
        CreateFault::Disk => DISK,
        CreateFault::Memory => MEMORY,
    }
}

/// Why a store was not grown, as a line.
pub fn growing_reason(fault: GrowFault) -> &'static str
    ensures { result.now ≡ growing_words fault }
{
    match fault {
        GrowFault::Shorter => "pk_find: shorter\n",
        GrowFault::Store(ManifestFault::NotAStore) => "pk_find: not a store\n",
        GrowFault::Store(ManifestFault::Damaged) => "pk_find: damaged\n",
        GrowFault::Store(ManifestFault::UsedUp) => "pk_find: numbers used up\n",
        GrowFault::Store(ManifestFault::Disk) => DISK,
        GrowFault::Store(ManifestFault::Memory) => MEMORY,
    }
}

/// Why no store was opened, as a line.
pub fn opening_reason(fault: OpenFault) -> &'static str
    ensures { result.now ≡ opening_words fault }
{
    match fault {
        OpenFault::TooSmall => "pk_find: too small\n",
        OpenFault::NotAStore => "pk_find: not a store\n",
        OpenFault::Damaged => "pk_find: damaged\n",
        OpenFault::Disk => DISK,
        OpenFault::Memory => MEMORY,
    }
}

/// Why a store was not checked, as a line. One that was just opened needn't be opened again, so that
/// what is left is the device's.
pub fn checking_reason(why: Refusal) -> &'static str
    ensures { result.now ≡ checking_words why }
{
    match why {
        Refusal::Damaged => "pk_find: damaged\n",
        Refusal::Memory => MEMORY,
        _ => DISK,
    }
}

/// Why a session was broken off, as a line.
pub fn session_reason(fault: ShellFault) -> &'static str
    ensures { result.now ≡ session_words fault }
{
    match fault {
        ShellFault::Input => "pk_find: input\n",
        ShellFault::Output => OUTPUT,
        ShellFault::TooManyReads => "pk_find: too many reads\n",
        ShellFault::Memory => MEMORY,
    }
}
