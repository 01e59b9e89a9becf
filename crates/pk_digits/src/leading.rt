//! The leading digits that numbers share, and numbers written by them.

ghost use Rattle.std.specs.Prelude.{◌≡◌, ◌+◌, ◌/◌, ◌<◌, ◌≤◌, ◌++◌, ◌↔◌, IsTrue, length, take};
ghost use Rattle.std.specs.Prelude.{codes, decimal};
ghost use Rattle.pk_digits.specs.declared.leading.TheConstants.{SPACED_BYTES};

use crate::digits::{write_short, write_six};
use crate::fours::FourDigits;
use std::marker::Model;
use std::simd::prelude::*;

/// The most bytes of a number behind a space: ten digits.
pub const SPACED_BYTES: usize = 11;

/// The digits before the last four of a number from 10,000 on, behind a space. A contract sees them
/// as the number that they are of.
#[derive(Drop)]
pub struct LeadingDigits {
    // The number that they are of.
    number: u32,
    // The least number that has them.
    least: u32,
    // A space and its digits, and spaces.
    text: u8x8,
    // Where its digits end.
    end: usize,
}

impl Model for LeadingDigits {
    ghost use Rattle.std.specs.Prelude.{◌≡◌, ℕ, ◌+◌, ◌*◌, ◌≤◌, ◌++◌, length, take, codes, decimal};

    ghost Value = { ℕ };

    ghost view = { λ l. l.number };

    ghost invariant = { λ l. (1 ≤ l.number) × (l.number ≤ 429496) × (l.least ≡ 10000 * l.number)
        × (l.end ≡ 1 + length (decimal l.number)) × (length l.text ≡ 8)
        × (take l.end l.text ≡ codes " " ++ decimal l.number) };
}

impl LeadingDigits {
    /// Those of 10,000.
    pub fn new() -> LeadingDigits
        ensures { result ≡ 1 }
    {
        LeadingDigits::of(1)
    }

    // Those of a number that is `number` without its last four digits.
    fn of(number: u32) -> LeadingDigits
        requires least { 1 ≤ number }
        requires most { number ≤ 429496 }
        ensures { result ≡ number }
    {
        let mut text = [b' '; 8];
        let end = write_six(number, &mut text, 1);
        LeadingDigits {
            number,
            least: number * 10_000,
            text: u8x8::from_array(text),
            end,
        }
    }

    // Whether they are those of a number from 10,000 on: told by how far it is from the least one
    // that has them.
    #[inline(always)]
    fn lead(&self, number: u32) -> bool
        ensures { IsTrue result ↔ number / 10000 ≡ self.now }
    {
        u64::from(number).wrapping_sub(u64::from(self.least)) < 10_000
    }

    // Writes a space and a number that they lead at the beginning of the bytes.
    #[inline(always)]
    fn write_led(&self, fours: &FourDigits, number: u32, out: &mut [u8]) -> usize
        requires led { number / 10000 ≡ self.now }
        requires room { SPACED_BYTES ≤ length out.old }
        ensures end { result ≡ 1 + length (decimal number) }
        ensures within { result ≤ SPACED_BYTES }
        ensures written { take result out.new ≡ codes " " ++ decimal number }
        ensures size { length out.new ≡ length out.old }
    {
        self.text.copy_to_slice(out);
        fours.write(number - self.least, out, self.end)
    }

    /// Writes a space and a number in decimal at the beginning of the bytes, and returns where they
    /// end. What lies behind, up to `SPACED_BYTES`, may be other bytes than before.
    #[inline(always)]
    pub fn write_spaced(&mut self, fours: &FourDigits, number: u32, out: &mut [u8]) -> usize
        requires { SPACED_BYTES ≤ length out.old }
        ensures end { result ≡ 1 + length (decimal number) }
        ensures within { result ≤ SPACED_BYTES }
        ensures written { take result out.new ≡ codes " " ++ decimal number }
        ensures size { length out.new ≡ length out.old }
        ensures kept { number < 10000 → self.new ≡ self.old }
        ensures next { 10000 ≤ number → self.new ≡ number / 10000 }
    {
        if self.lead(number) {
            return self.write_led(fours, number, out);
        }
        if number < 10_000 {
            out[0] = b' ';
            return write_short(number, out, 1);
        }
        *self = LeadingDigits::of(number / 10_000);
        self.write_led(fours, number, out)
    }
}
