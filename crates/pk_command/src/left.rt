//! What a command leaves in hand.

ghost use Rattle.std.specs.Prelude.{◌≡◌};
ghost use Rattle.pk_command.specs.Left.{left_of};

/// What a command leaves in hand of the file at its path. Dropping it closes the file.
#[derive(Drop)]
pub enum Left<F, D> {
    /// No file was opened or made.
    Nothing,
    /// The file, which is no disk, or is one no more.
    File(F),
    /// The disk in the file.
    Disk(D),
}

/// What is left of a file that became no disk, where there is one.
pub fn left_of<F, D>(file: Option<F>) -> Left<F, D>
    ensures { result ≡ left_of file }
{
    match file {
        None => Left::Nothing,
        Some(file) => Left::File(file),
    }
}
