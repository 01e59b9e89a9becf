//! Header and directory of a segment, as they are written.

ghost use Rattle.std.specs.Prelude.{◌≡◌, ◌<◌, ◌^◌, ◌++◌, OnOk};
ghost use Rattle.pk_segment.specs.Planning.{size_in};
ghost use Rattle.pk_segment.specs.Spelling.{header, le32};

use crate::directory::{ENTRY_BYTES, Entry};
use crate::header::{HEADER_BYTES, Header};
use std::alloc::AllocError;

impl Header {
    /// How many bytes the segment has.
    pub fn size(self) -> u32
        requires { size_in self < 2 ^ 32 }
        ensures { result ≡ size_in self }
    {
        HEADER_BYTES + ENTRY_BYTES * self.count + self.texts + self.postings + self.dictionary
    }
}

/// Puts a header behind bytes.
#[tactic(auto, unfolding(crate::specs::Spelling::header))]
pub fn put_header(out: &mut Vec<u8>, h: Header) -> Result<(), AllocError>
    ensures { OnOk result (out.new.items
        ≡ out.old.items ++ header h.kind h.count h.texts h.postings h.dictionary h.terms) }
{
    put_u32(out, h.kind)?;
    put_u32(out, h.count)?;
    put_u32(out, h.texts)?;
    put_u32(out, h.postings)?;
    put_u32(out, h.dictionary)?;
    put_u32(out, h.terms)
}

/// Puts an entry of the directory behind bytes.
pub fn put_entry(out: &mut Vec<u8>, entry: Entry) -> Result<(), AllocError>
    ensures { OnOk result (out.new.items
        ≡ out.old.items ++ (le32 entry.number ++ le32 entry.at ++ le32 entry.len)) }
{
    put_u32(out, entry.number)?;
    put_u32(out, entry.at)?;
    put_u32(out, entry.len)
}

#[tactic(auto, unfolding(crate::specs::Spelling::le32))]
fn put_u32(out: &mut Vec<u8>, n: u32) -> Result<(), AllocError>
    ensures { OnOk result (out.new.items ≡ out.old.items ++ le32 n) }
{
    out.extend_from_slice(&n.to_le_bytes())
}
