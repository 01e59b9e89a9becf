//! A body, checked: what its entries stand for is what its disk holds.

ghost use Rattle.std.specs.Prelude.{IfOk};
ghost use Rattle.pk_check.specs.Holding.{ChecksBodyAs, IsOfBody};
ghost use Rattle.pk_manifest.specs.Current.{HasBody, units_of_disk};
ghost use Rattle.pk_manifest.specs.Sound.{IsBody};
ghost use Rattle.pk_manifest.specs.Spelling.{view};
ghost use Rattle.pk_manifest.specs.declared.half.Half.{Half};
ghost use Rattle.pk_segment.specs.OnlyRead.{ReadsDisk};
ghost use Rattle.pk_segment.specs.Reading.{CountsReads};

use crate::entries::check_entries;
use pk_disk::Disk;
use pk_manifest::Manifest;
use pk_segment::ReadFault;
use std::alloc::Global;

/// What a disk was found to hold.
#[derive(Clone, Copy, Debug, PartialEq, Eq)]
pub struct Checked {
    /// How many documents are committed and not deleted.
    pub documents: u64,
    /// The next number that is committed.
    pub next: u32,
    /// How many segments there are.
    pub segments: u32,
}

/// What a disk holds whose body in force says this, once each segment and each deletion list was
/// read and compared with the bytes that its documents and its numbers have. The disk is only read.
///
/// `Damaged` exactly where the disk holds no collection; `Disk` exactly where a read failed, or
/// `Memory`.
pub fn check_body<D: Disk>(
    alloc: Global,
    disk: &mut D,
    body: &Manifest,
) -> Result<Checked, ReadFault>
    requires { IsBody (units_of_disk (D.content disk.old)) (view body.now) }
    ensures checked { D.honest → (half : Half)
        → HasBody (D.content disk.old) half (view body.now)
        → ChecksBodyAs (D.content disk.old) result }
    ensures body { IfOk result (IsOfBody (view body.now)) }
    ensures left { ReadsDisk D.Disk CountsReads result disk.old disk.new }
{
    let documents = check_entries(alloc, disk, &body.entries, body.next_number)?;
    Ok(Checked {
        documents,
        next: body.next_number,
        segments: body.entries.len() as u32,
    })
}
