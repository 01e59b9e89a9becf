//! Numbers put into variable bytes, and taken out.

ghost use Rattle.std.specs.Prelude.{◌≡◌, ◌<◌, ◌≤◌, ◌^◌, ◌++◌};
ghost use Rattle.std.specs.Prelude.{ℕ, List, length, take, drop, IfOk, IfErr, MatchResult};
ghost use Rattle.pk_vbyte.specs.VariableByte.{vbyte, Refuses, Takes, taken};

/// Why no number could be taken. The kinds are judged in this order.
#[derive(Clone, Copy, Debug, PartialEq, Eq)]
pub enum VFault {
    /// The first byte is `00`: a leading zero.
    Padded,
    /// Fewer than five bytes, and none of them is a last byte.
    Short,
    /// Five bytes without a last byte, or a value of 2^32 or more.
    TooLarge,
}

/// Writes the variable bytes of `n` to the front, and answers how many they are: one to five.
pub fn put(n: u32, out: &mut [u8; 5]) -> usize
    ensures long { result ≡ length (vbyte n) }
    ensures most { result ≤ 5 }
    ensures bytes { take result out.new ≡ vbyte n }
    ensures rest { drop result out.new ≡ drop result out.old }
{
    let low = (n % 128) as u8 + 128;
    if n < 128 {
        out[0] = low;
        return 1;
    }
    let second = (n / 128 % 128) as u8;
    if n < 16_384 {
        out[0] = second;
        out[1] = low;
        return 2;
    }
    let third = (n / 16_384 % 128) as u8;
    if n < 2_097_152 {
        out[0] = third;
        out[1] = second;
        out[2] = low;
        return 3;
    }
    let fourth = (n / 2_097_152 % 128) as u8;
    if n < 268_435_456 {
        out[0] = fourth;
        out[1] = third;
        out[2] = second;
        out[3] = low;
        return 4;
    }
    out[0] = (n / 268_435_456) as u8;
    out[1] = fourth;
    out[2] = third;
    out[3] = second;
    out[4] = low;
    5
}

/// The number that the first bytes spell, and how many they are. What follows them is not judged.
pub fn take(bytes: &[u8]) -> Result<(u32, usize), VFault>
    ensures taken { IfOk result (λ r. Takes bytes.now r.0 r.1) }
    ensures only { (v : ℕ) (rest : List ℕ) → v < 2 ^ 32 → bytes.now ≡ vbyte v ++ rest
        → MatchResult result (λ r. (r.0 ≡ v) × (r.1 ≡ length (vbyte v))) (λ _. ⊥) }
    ensures fault { IfErr result (Refuses bytes.now) }
    ensures exact { result ≡ taken bytes.now }
{
    let len = bytes.len();
    if len > 0 && bytes[0] == 0 {
        return Err(VFault::Padded);
    }
    let end = len.min(5);
    let mut n: u64 = 0;
    for i in 0..end {
        let b = bytes[i];
        if b >= 128 {
            let value = n * 128 + (b - 128) as u64;
            if value >= 4_294_967_296 {
                return Err(VFault::TooLarge);
            }
            return Ok((value as u32, i + 1));
        }
        n = n * 128 + b as u64;
    }
    if len < 5 {
        return Err(VFault::Short);
    }
    Err(VFault::TooLarge)
}
