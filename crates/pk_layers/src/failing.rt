//! A source that fails, and counts its calls.

ghost use Rattle.std.specs.Prelude.{◌≡◌, ◌≤◌, ◌<◌, ◌^◌, length};
ghost use Rattle.std.proofs.Common.{◌∙◌, refl};

use crate::told::Told;
use pk_posting::{ByteSource, SourceFault};

/// The most bytes of a source.
pub const MOST_BYTES: usize = 100_000_000;

/// A slice as a source whose call after so many others fails, once, and counts it.
#[derive(Drop)]
pub struct Failing<'a> {
    bytes: &'a [u8],
    passes: u64,
    failures: u64,
    asked: u64,
    ghost short: { length bytes.now < 2 ^ 32 },
}

impl<'a> ByteSource for Failing<'a> {
    ghost content = { λ s. s.bytes.now };

    ghost honest = { Unit {0} };

    ghost failures = { λ s. s.failures };

    ghost asked = { λ s. s.asked };

    ghost keeps = { λ a b. b.bytes.now ≡ a.bytes.now };

    ghost keeps_self = { λ _. refl };

    ghost keeps_then = { λ _ _ _ first second. second ∙ first };

    fn len(&self) -> u32 {
        self.bytes.len() as u32
    }

    fn bytes(&mut self, at: u32, n: u32) -> Result<&[u8], SourceFault> {
        self.asked = self.asked.saturating_add(1);
        let start = at as usize;
        let end = start + n as usize;
        if end > self.bytes.len() {
            return Err(SourceFault::Damaged);
        }
        if self.passes == 0 || self.failures == u64::MAX {
            self.passes = u64::MAX;
            self.failures = self.failures.saturating_add(1);
            return Err(SourceFault::Disk);
        }
        self.passes -= 1;
        Ok(&self.bytes[start..end])
    }

    fn asked(&self) -> u64 {
        self.asked
    }
}

impl<'a> Failing<'a> {
    /// The source that fails after so many calls. More bytes than a source may have are none.
    pub(crate) fn after(bytes: &'a [u8], passes: u64) -> Failing<'a> {
        if bytes.len() > MOST_BYTES {
            return Failing::of(&[], passes);
        }
        Failing::of(bytes, passes)
    }

    /// The same of few enough bytes.
    fn of(bytes: &'a [u8], passes: u64) -> Failing<'a>
        requires { length bytes.now ≤ 100000000 }
    {
        Failing {
            bytes,
            passes,
            failures: 0,
            asked: 0,
        }
    }

    /// Tells how often it was asked, and how often it failed.
    pub(crate) fn tell(&self, told: &mut Told) {
        told.number(self.asked);
        told.number(self.failures);
    }
}
