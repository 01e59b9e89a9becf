//! The header of a segment: 24 bytes.

ghost use Rattle.std.specs.Prelude.{
  ◌≡◌,
  ◌≤◌,
  ◌<◌,
  ◌+◌,
  ◌↔◌,
  length,
  IfOk,
  IsOk,
  IsErrOf,
};
ghost use Rattle.pk_posting.specs.Frames.{IsRead};
ghost use Rattle.pk_segment.specs.Fields.{IsHeader, header_field, is_sound, number_at};

use crate::directory::ENTRY_BYTES;
use crate::kind::PLAIN;
use pk_posting::{ByteSource, SourceFault};

/// How many bytes a header has.
pub const HEADER_BYTES: u32 = 24;

/// The six numbers of a header.
#[derive(Clone, Copy)]
pub struct Header {
    /// The kind of the segment.
    pub kind: u32,
    /// How many documents.
    pub count: u32,
    /// The bytes of all texts.
    pub texts: u32,
    /// The bytes of the postings: 0 in kind 1.
    pub postings: u32,
    /// The bytes of the dictionary: 0 in kind 1.
    pub dictionary: u32,
    /// The number of terms: 0 in kind 1.
    pub terms: u32,
}

impl Header {
    /// Whether it is of that kind, has a document, and its lengths add up to so many bytes.
    pub fn is_sound(self, bytes: u32, kind: u32) -> bool
        ensures { result ≡ is_sound bytes kind self }
    {
        self.kind == kind
            && 1 <= self.count
            && u64::from(HEADER_BYTES)
                + u64::from(ENTRY_BYTES) * u64::from(self.count)
                + u64::from(self.texts)
                + u64::from(self.postings)
                + u64::from(self.dictionary)
                == u64::from(bytes)
            && (kind != PLAIN || self.postings == 0 && self.dictionary == 0 && self.terms == 0)
    }
}

// Reads the header.
pub fn header_of<S: ByteSource>(source: &mut S) -> Result<Header, SourceFault>
    ensures value { S.honest → IfOk result (IsHeader (header_field (S.content source.old))) }
    ensures inside { IsOk result → 24 ≤ length (S.content source.old) }
    ensures damaged { IsErrOf result SourceFault.Damaged ↔ (length (S.content source.old) < 24) }
    ensures left { IsRead S.ByteSource 1 result source.old source.new }
{
    let field = source.bytes(0, HEADER_BYTES)?;
    Ok(Header {
        kind: u32_at(field, 0),
        count: u32_at(field, 4),
        texts: u32_at(field, 8),
        postings: u32_at(field, 12),
        dictionary: u32_at(field, 16),
        terms: u32_at(field, 20),
    })
}

// The number of 32 bits at an offset.
pub fn u32_at(bytes: &[u8], at: usize) -> u32
    requires { at + 4 ≤ length bytes.now }
    ensures { result ≡ number_at at bytes.now }
{
    let field = &bytes[at..at + 4];
    u32::from_le_bytes([field[0], field[1], field[2], field[3]])
}
