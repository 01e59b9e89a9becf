//! Pieces: bytes, and the places where they belong.
ghost use Rattle.std.specs.Prelude.{◌≡◌, length, map, OnErr, OnOk};
ghost use Rattle.pk_disk.specs.Disk.{Rose};
ghost use Rattle.pk_disk.specs.Frames.{KeepsReads};
ghost use Rattle.pk_replace.specs.Claims.{AreApart, Each, IsAmong, IsInside, IsThere};
ghost use Rattle.pk_replace.specs.Claims.{claim_of, places};
ghost use Rattle.pk_replace.specs.Laws.{far_places};
ghost use Rattle.pk_replace.specs.Writing.{WritesOnly};

use crate::stream::{StreamFault, WritesExtent};
use pk_disk::{Disk, DiskFault};

/// Bytes, and the position where the first of them belongs.
#[derive(Drop)]
pub struct Piece {
    pub at: u64,
    pub bytes: Vec<u8>,
}

/// Writes the pieces in their order, one write each.
///
/// They lie behind the bodies and share no position.
pub(crate) fn put_all<D: Disk>(disk: &mut D, pieces: &[Piece]) -> Result<(), DiskFault>
    requires inside { Each (IsInside (length (D.content disk.old))) (map claim_of pieces.now) }
    requires apart { AreApart (map claim_of pieces.now) }

    // The places of the pieces alone are written, whatever is answered.
    ensures only { WritesOnly D.Disk (places (map claim_of pieces.now)) disk.old disk.new }

    // After Ok the pieces are there.
    ensures there { D.honest → OnOk result
        (Each (IsThere (D.content disk.new)) (map claim_of pieces.now)) }

    // Sizes and counts, on every disk.
    ensures keeps { KeepsReads D.Disk disk.old disk.new }
    ensures cause { OnErr result (Rose (D.failed_writes disk.old) (D.failed_writes disk.new)) }
    ensures writes { OnOk result (D.failed_writes disk.new ≡ D.failed_writes disk.old) }
{
    for piece in pieces {
        disk.write(piece.at, &piece.bytes)?;
    }
    Ok(())
}

/// Bytes in memory, written in their order, one write each.
#[derive(Drop)]
pub struct Pieces<'a>(pub &'a [Piece]);

impl<'a> WritesExtent for Pieces<'a> {
    ghost can_write = { λ w size. Each (IsInside size) (map claim_of w.0.now)
        × AreApart (map claim_of w.0.now) };

    ghost touches = { λ w. places (map claim_of w.0.now) };

    ghost promises = { λ w bytes c. IsAmong c (map claim_of w.0.now) };

    ghost is_sound = { λ w bytes. Unit {0} };

    ghost reads_nothing = { λ w. Unit {0} };

    fn write_into<D: Disk>(self, disk: &mut D) -> Result<(), StreamFault> {
        let Ok(()) = put_all(disk, self.0) else {
            return Err(StreamFault::Write);
        };
        Ok(())
    }

    ghost is_far = { λ w size can. far_places size (map claim_of w.0.now) can.0 };

    ghost promises_stay = { λ w bytes bytes' c agree is. is };

    ghost sound_stays = { λ w bytes bytes' agree is. tt };
}
