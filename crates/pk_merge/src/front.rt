//! The header and the directory of a merge, in memory.

ghost use Rattle.std.specs.Prelude.{◌≡◌, ◌<◌, ◌+◌, ◌*◌, ◌^◌, ◌++◌, length, IfOk, OnOk};
ghost use Rattle.pk_merge.specs.Keeping.{kept_bytes, kept_directory};
ghost use Rattle.pk_segment.specs.Spelling.{header};

use crate::kept::Kept;
use pk_segment::{ENTRY_BYTES, Entry, HEADER_BYTES, Header, put_entry, put_header};
use std::alloc::{AllocError, Global};

fn put_directory(out: &mut Vec<u8>, documents: &[Kept]) -> Result<(), AllocError>
    requires { kept_bytes documents.now < 2 ^ 32 }
    ensures { OnOk result (out.new.items ≡ out.old.items ++ kept_directory 0 documents.now) }
{
    let mut at = 0;
    for kept in documents {
        let entry = Entry {
            number: kept.number,
            at,
            len: kept.len,
        };
        put_entry(out, entry)?;
        at += kept.len;
    }
    Ok(())
}

/// The header and the directory of documents that are kept, in memory that is taken once.
pub(crate) fn front_of(alloc: Global, h: Header, documents: &[Kept]) -> Result<Vec<u8>, AllocError>
    requires { kept_bytes documents.now < 2 ^ 32 }
    ensures bytes { IfOk result (λ v. v.items
        ≡ header h.kind h.count h.texts h.postings h.dictionary h.terms
        ++ kept_directory 0 documents.now) }
    ensures long { IfOk result (λ v. length v.items ≡ 24 + 12 * length documents.now) }
{
    let mut front = Vec::with_capacity(
        alloc,
        (HEADER_BYTES as usize).saturating_add(
            documents.len().saturating_mul(ENTRY_BYTES as usize),
        ),
    )?;
    put_header(&mut front, h)?;
    put_directory(&mut front, documents)?;
    Ok(front)
}
