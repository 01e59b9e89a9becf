//! Why words ask for no command.

ghost use Rattle.std.specs.Prelude.{string_bytes};
ghost use Rattle.pk_arguments.specs.Unasked.{IsOfError};

use clap::Error;
use clap::error::ErrorKind;

/// Why the words of a command line ask for no command.
#[derive(Drop)]
pub enum Unasked {
    /// They ask for help or for the version, which is this text.
    Help(String),
    /// They are refused: the text says why, and how the program is to be used.
    Refused(String),
    /// A growth of memory was refused. What they ask is not known.
    Memory,
}

/// What an error of the parse means, whose text this is.
pub fn unasked_by(error: &Error, text: String) -> Unasked
    ensures { IsOfError error.now (string_bytes text) result }
{
    if error.kind() == ErrorKind::OutOfMemory {
        return Unasked::Memory;
    }
    if error.use_stderr() {
        return Unasked::Refused(text);
    }
    Unasked::Help(text)
}
