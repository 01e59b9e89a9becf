//! The digits of all numbers below 10,000, in a table.

ghost use Rattle.std.specs.Prelude.{◌≡◌, ◌+◌, ◌<◌, ◌≤◌, ◌++◌, length, take, IfOk};
ghost use Rattle.pk_digits.specs.Digits.{four_digits};
ghost use Rattle.pk_digits.specs.Fours.{AreFours};

use crate::digits::write_four;
use std::alloc::{AllocError, Global};
use std::simd::prelude::*;

/// The four digits of each number below 10,000, with leading zeros: 40,000 bytes.
#[derive(Drop)]
pub struct FourDigits {
    digits: Vec<[u8; 4]>,
    ghost all: { AreFours 10000 digits.items },
}

impl FourDigits {
    /// Takes the memory of the table.
    pub fn new(alloc: Global) -> Result<FourDigits, AllocError>
        ensures { IfOk result (λ fours. AreFours 10000 fours.digits.items) }
    {
        let mut digits = Vec::with_capacity(alloc, 10_000)?;
        for number in 0..10_000 {
            let mut text = [0; 4];
            write_four(number, &mut text, 0);
            digits.push(text)?;
        }
        Ok(FourDigits { digits })
    }

    /// Writes the four digits of a number below 10,000, and returns where they end.
    #[inline(always)]
    pub(crate) fn write(&self, number: u32, out: &mut [u8], at: usize) -> usize
        requires low { number < 10000 }
        requires room { at + 4 ≤ length out.old }
        ensures end { result ≡ at + 4 }
        ensures written { take result out.new ≡ take at out.old ++ four_digits number }
        ensures size { length out.new ≡ length out.old }
    {
        u8x4::from_array(self.digits[number as usize]).copy_to_slice(&mut out[at..]);
        at + 4
    }
}
