//! The reply that is being built.

ghost use Rattle.std.specs.Prelude.{◌≡◌, ◌≤◌, ◌<◌, ◌++◌, [], length, take};
ghost use Rattle.std.specs.Prelude.{IfOk};
ghost use Rattle.std.specs.List.{flat_map};
ghost use Rattle.pk_model.specs.Views.{numbers_in};
ghost use Rattle.pk_shell.specs.ReplyText.{spaced};

use pk_digits::{FourDigits, LeadingDigits, SPACED_BYTES};
use pk_model::DocNo;
use std::alloc::{AllocError, Global};
use std::marker::Model;

/// The most bytes that wait to be written: a reply of this length goes out in one call.
pub const OUTBOX_BYTES: usize = 65_536;

/// Bytes that wait to be written, in memory that is taken once.
#[derive(Drop)]
pub struct Outbox {
    // As many bytes as may wait.
    bytes: Vec<u8>,
    // How many of them wait.
    waiting: usize,
    // By which numbers are written.
    fours: FourDigits,
}

impl Model for Outbox {
    ghost use Rattle.std.specs.Prelude.{◌≡◌, ℕ, List, length, ◌≤◌, take};
    ghost use Rattle.pk_shell.specs.declared.outbox.TheConstants.{OUTBOX_BYTES};

    ghost Value = { List ℕ };

    ghost view = { λ o. take o.waiting o.bytes.items };

    // It takes no memory after it is made.
    ghost invariant = { λ o. (length o.bytes.items ≡ OUTBOX_BYTES) × (o.waiting ≤ OUTBOX_BYTES) };
}

impl Outbox {
    /// An empty one.
    pub fn new(alloc: Global) -> Result<Outbox, AllocError>
        ensures { IfOk result (λ outbox. outbox ≡ []) }
    {
        Ok(Outbox {
            bytes: vec![in alloc; 0; OUTBOX_BYTES]?,
            waiting: 0,
            fours: FourDigits::new(alloc)?,
        })
    }

    /// Puts as many of the bytes at the end as there is room for, and says how many.
    pub fn fill(&mut self, bytes: &[u8]) -> usize
        ensures within { result ≤ length bytes.now }
        ensures filled { self.new ≡ self.old ++ take result bytes.now }
        ensures some { self.old ≡ [] → 0 < length bytes.now → 0 < result }
    {
        let start = self.waiting;
        let filled = bytes.len().min(OUTBOX_BYTES - start);
        self.bytes[start..start + filled].copy_from_slice(&bytes[..filled]);
        self.waiting = start + filled;
        filled
    }

    /// Puts as many of the numbers at the end, each in decimal behind a space, as there is surely
    /// room for, and says how many.
    pub fn fill_numbers(&mut self, numbers: &[DocNo]) -> usize
        ensures within { result ≤ length numbers.now }
        ensures filled { self.new ≡ self.old ++ flat_map spaced (numbers_in (take result numbers.now)) }
    {
        let (filled, end) = write_numbers(&self.fours, numbers, &mut self.bytes, self.waiting);
        self.waiting = end;
        filled
    }

    /// The bytes that wait.
    pub fn as_slice(&self) -> &[u8]
        ensures { result.now ≡ self.now }
    {
        &self.bytes[..self.waiting]
    }

    /// Forgets them all.
    pub fn clear(&mut self)
        ensures { self.new ≡ [] }
    {
        self.waiting = 0;
    }
}

/// Writes numbers, each in decimal behind a space, from `start` on, while there is room for the
/// longest one; how many, and where they end.
fn write_numbers(
    fours: &FourDigits,
    numbers: &[DocNo],
    out: &mut [u8],
    start: usize,
) -> (usize, usize)
    requires { start ≤ length out.old }
    ensures within { result.0 ≤ length numbers.now }
    ensures room { result.1 ≤ length out.new }
    ensures size { length out.new ≡ length out.old }
    ensures written { take result.1 out.new
        ≡ take start out.old ++ flat_map spaced (numbers_in (take result.0 numbers.now)) }
{
    let mut leading = LeadingDigits::new();
    let mut written = 0;
    let mut end = start;
    while written < numbers.len() && out.len() - end >= SPACED_BYTES {
        end += leading.write_spaced(fours, numbers[written].0, &mut out[end..]);
        written += 1;
    }
    (written, end)
}
