//! Digits of a number, written from the first to the last.

ghost use Rattle.std.specs.Prelude.{◌≡◌, ◌+◌, ◌<◌, ◌≤◌, ◌∷◌, [], ◌++◌, length, take, decimal};
ghost use Rattle.pk_digits.specs.Digits.{two_digits, four_digits};

// The two digits of each number below 100.
static PAIRS: [u8; 200] =
    *b"00010203040506070809101112131415161718192021222324252627282930313233343536373839404142434445464748495051525354555657585960616263646566676869707172737475767778798081828384858687888990919293949596979899";

// Writes the digit of a number below 10, and returns where it ends.
#[inline(always)]
fn write_digit(number: u32, out: &mut [u8], at: usize) -> usize
    requires low { number < 10 }
    requires room { at + 1 ≤ length out.old }
    ensures end { result ≡ at + 1 }
    ensures written { take result out.new ≡ take at out.old ++ (48 + number) ∷ [] }
    ensures size { length out.new ≡ length out.old }
{
    out[at] = b'0' + number as u8;
    at + 1
}

// Writes the two digits of a number below 100, and returns where they end.
#[inline(always)]
fn write_pair(number: u32, out: &mut [u8], at: usize) -> usize
    requires low { number < 100 }
    requires room { at + 2 ≤ length out.old }
    ensures end { result ≡ at + 2 }
    ensures written { take result out.new ≡ take at out.old ++ two_digits number }
    ensures size { length out.new ≡ length out.old }
{
    let from = number as usize * 2;
    let (tens, ones) = (PAIRS[from], PAIRS[from + 1]);
    out[at] = tens;
    out[at + 1] = ones;
    at + 2
}

/// Writes the four digits of a number below 10,000, and returns where they end.
#[inline(always)]
pub fn write_four(number: u32, out: &mut [u8], at: usize) -> usize
    requires low { number < 10000 }
    requires room { at + 4 ≤ length out.old }
    ensures end { result ≡ at + 4 }
    ensures written { take result out.new ≡ take at out.old ++ four_digits number }
    ensures size { length out.new ≡ length out.old }
{
    let at = write_pair(number / 100, out, at);
    write_pair(number % 100, out, at)
}

/// Writes a number below 10,000 without leading zeros, and returns where it ends.
pub fn write_short(number: u32, out: &mut [u8], at: usize) -> usize
    requires low { number < 10000 }
    requires room { at + 4 ≤ length out.old }
    ensures end { result ≡ at + length (decimal number) }
    ensures written { take result out.new ≡ take at out.old ++ decimal number }
    ensures size { length out.new ≡ length out.old }
{
    if number < 10 {
        return write_digit(number, out, at);
    }
    if number < 100 {
        return write_pair(number, out, at);
    }
    if number < 1000 {
        let at = write_digit(number / 100, out, at);
        return write_pair(number % 100, out, at);
    }
    write_four(number, out, at)
}

/// Writes a number below 1,000,000 without leading zeros, and returns where it ends.
pub fn write_six(number: u32, out: &mut [u8], at: usize) -> usize
    requires low { number < 1000000 }
    requires room { at + 6 ≤ length out.old }
    ensures end { result ≡ at + length (decimal number) }
    ensures written { take result out.new ≡ take at out.old ++ decimal number }
    ensures size { length out.new ≡ length out.old }
{
    if number < 10_000 {
        return write_short(number, out, at);
    }
    let at = write_short(number / 10_000, out, at);
    write_four(number % 10_000, out, at)
}
