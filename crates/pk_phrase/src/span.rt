//! Bytes of a segment that are lent at once, where texts stand near each other.
ghost use Rattle.std.specs.Prelude.{◌≡◌, ◌≤◌, ◌+◌, ℕ, List, length, take, drop, IfSome, IsSome};
ghost use Rattle.pk_phrase.specs.Spans.{IsSpanOf};

/// Bytes that a source lends, from a place of it on.
#[derive(Clone, Copy)]
pub(crate) struct Span<'a> {
    pub(crate) start: u32,
    pub(crate) bytes: &'a [u8],
}

impl<'a> Span<'a> {
    /// The `len` bytes from a place of the source on, where they lie in the span.
    pub(crate) fn part(&self, start: u32, len: u32) -> Option<&[u8]>
        ensures value { (bytes : List ℕ) → IsSpanOf bytes self.now
            → IfSome result (λ part. part.now ≡ take len (drop start bytes)) }
        ensures long { IfSome result (λ part. length part.now ≡ len) }
        ensures some { self.now.start ≤ start
            → start + len ≤ self.now.start + length self.now.bytes.now → IsSome result }
    {
        if start < self.start {
            return None;
        }
        let from = (start - self.start) as usize;
        let end = from + len as usize;
        if end > self.bytes.len() {
            return None;
        }
        Some(&self.bytes[from..end])
    }
}
