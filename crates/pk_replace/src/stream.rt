//! What writes the claims of a body that is to come.
ghost use Rattle.std.specs.Prelude.{◌≡◌, Bool, List, ℕ, length, OnOk};
ghost use Rattle.pk_manifest.specs.Firm.{IsFar};
ghost use Rattle.pk_replace.specs.Cause.{IsCause, IsUndamaged, StopsAtWrites};
ghost use Rattle.pk_replace.specs.Claims.{AgreeBehind, Claim, IsThere};
ghost use Rattle.pk_replace.specs.Writing.{WritesOnly};

use pk_disk::Disk;

/// What stopped a writer, or a replacement. No call follows the one that failed.
#[derive(Clone, Copy, Debug, PartialEq, Eq)]
pub enum StreamFault {
    /// A read failed. The body in force stays, with its claims.
    Read,
    /// A write or a sync failed. Each image has the body in force or the one to come.
    Write,
    /// No call failed, and what was read isn't what the writer needs. The body in force stays, with
    /// its claims.
    Damaged,
}

/// A writer of bytes at places of a disk behind the bodies, which it may read from the same disk
/// as it goes.
pub trait WritesExtent: Drop {
    /// It can write to a disk of so many bytes.
    ghost can_write: { Self → ℕ → Type 0 };

    /// The positions that it writes.
    ghost touches: { Self → ℕ → Bool };

    /// Begun on a disk of these bytes, it puts this claim there.
    ghost promises: { Self → List ℕ → Claim → Type 0 };

    /// Begun on an honest disk of these bytes, it meets no damage.
    ghost is_sound: { Self → List ℕ → Type 0 };

    /// It reads nothing, so that a write alone may stop it.
    ghost reads_nothing: { Self → Type 0 };

    /// Writes. It makes no sync.
    fn write_into<D: Disk>(self, disk: &mut D) -> Result<(), StreamFault>
        requires { can_write self (length (D.content disk.old)) }

        // Its positions alone are written, whatever is answered.
        ensures writes { WritesOnly D.Disk (touches self) disk.old disk.new }

        // After Ok what it promised is there.
        ensures there { D.honest → OnOk result
            ((c : Claim) → promises self (D.content disk.old) c
            → IsThere (D.content disk.new) c) }
        ensures undamaged { D.honest → is_sound self (D.content disk.old)
            → IsUndamaged result }
        ensures unread { reads_nothing self → StopsAtWrites result }

        // Sizes and counts, on every disk.
        ensures size { length (D.content disk.new) ≡ length (D.content disk.old) }
        ensures cause { IsCause D.Disk disk.old disk.new result };

    /// What it writes lies behind the bodies.
    ghost is_far: { (writer : Self) (size : ℕ) → can_write writer size → IsFar (touches writer) };

    /// What it promises rests on no byte of gates and bodies.
    ghost promises_stay: { (writer : Self) (bytes bytes' : List ℕ) (c : Claim)
        → AgreeBehind bytes bytes' → promises writer bytes c → promises writer bytes' c };

    /// Nor does its soundness.
    ghost sound_stays: { (writer : Self) (bytes bytes' : List ℕ)
        → AgreeBehind bytes bytes' → is_sound writer bytes → is_sound writer bytes' };
}
