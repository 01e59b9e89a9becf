//! Lines on the output. Where a write fails, a part of the line was written, and nothing else.

ghost use Rattle.std.specs.Prelude.{◌≡◌, ◌++◌, decimal};
ghost use Rattle.pk_command.specs.Endings.{checked_line, created_line};
ghost use Rattle.pk_command.specs.Growing.{growth_front, growth_line};
ghost use Rattle.pk_shell.specs.Sending.{Sent};

use itoa::Buffer;
use pk_grow::Growth;
use pk_shell::{Unwritten, write_all};
use pk_store::Checked;
use std::io::Write;

/// Writes a text and a number in decimal.
fn write_number<W: Write>(output: &mut W, text: &[u8], number: u64) -> Result<(), Unwritten>
    ensures { Sent (W.contents output.old) (W.contents output.new) result
        (text.now ++ decimal number) }
{
    let mut buffer = Buffer::new();
    write_all(output, text)?;
    write_all(output, buffer.format(number).as_bytes())
}

/// Tells that a store of so many units was made.
pub fn tell_made<W: Write>(output: &mut W, units: u64) -> Result<(), Unwritten>
    ensures { Sent (W.contents output.old) (W.contents output.new) result (created_line units) }
{
    write_number(output, b"created ", units)?;
    write_all(output, b" units\n")
}

/// What is told of a growth, up to how many units the store has.
fn growth_front(growth: Growth) -> &'static str
    ensures { result.now ≡ growth_front growth }
{
    match growth {
        Growth::Grown => "grown to ",
        Growth::AsItWas => "has ",
    }
}

/// Tells what a growth to so many units came to.
pub fn tell_growth<W: Write>(output: &mut W, growth: Growth, units: u64) -> Result<(), Unwritten>
    ensures { Sent (W.contents output.old) (W.contents output.new) result (growth_line growth units) }
{
    write_number(output, growth_front(growth).as_bytes(), units)?;
    write_all(output, b" units\n")
}

/// Tells what a store that was checked has.
pub fn tell_checked<W: Write>(output: &mut W, checked: Checked) -> Result<(), Unwritten>
    ensures { Sent (W.contents output.old) (W.contents output.new) result (checked_line checked) }
{
    write_number(output, b"ok ", checked.documents)?;
    write_number(output, b" documents next ", u64::from(checked.next))?;
    write_number(output, b" segments ", u64::from(checked.segments))?;
    write_all(output, b"\n")
}
