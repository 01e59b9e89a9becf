//! Another body put in force, with what a writer puts there for it: the five steps of the crate's
//! page.
ghost use Rattle.std.specs.Prelude.{◌≡◌, ◌⊎◌, ◌≤◌, ◌<◌, List, ℕ, length, OnOk};
ghost use Rattle.pk_disk.specs.Disk.{IsChangedOnly, nowhere};
ghost use Rattle.pk_disk.specs.Frames.{KeepsDisk};
ghost use Rattle.pk_disk.specs.Since.{OnlyNew};
ghost use Rattle.pk_manifest.specs.Bodies.{bodies_end, body_of, body_size, generation_of};
ghost use Rattle.pk_manifest.specs.Bodies.{has_open_gate, other};
ghost use Rattle.pk_manifest.specs.Firm.{IsFirm, IsShut};
ghost use Rattle.pk_replace.specs.Cause.{IsCause, IsUndamaged, OnKept, OnRead, StopsAtWrites};
ghost use Rattle.pk_replace.specs.Claims.{Claim, Each, IsUntouched};
ghost use Rattle.pk_replace.specs.Course.{IsAfter, IsBefore, touched_by};
ghost use Rattle.pk_replace.specs.Evolving.{EvolvesBy, IsBeside};
ghost use Rattle.pk_replace.specs.Held.{Has, IsHeld, IsNext};

use crate::stream::{StreamFault, WritesExtent};
use pk_disk::Disk;
use pk_manifest::{Half, finish, gate_open, shut_spare};

// Shuts the spare gate where it reads as open, lets the writer write, and puts the body in force.
fn install<D: Disk, W: WritesExtent>(
    disk: &mut D,
    spare: Half,
    is_open: bool,
    writer: W,
    body: &[u8],
) -> Result<(), StreamFault>
    requires size { bodies_end ≤ length (D.content disk.old) }
    requires body { length body.now ≡ body_size }
    requires can { W.can_write writer (length (D.content disk.old)) }
    requires firm { D.honest → IsFirm (D.content disk.old) (D.is_open disk.old) spare }
    requires told { D.honest → has_open_gate (D.content disk.old) spare ≡ is_open }
    requires greater { D.honest
        → generation_of (body_of (D.content disk.old) (other spare)) < generation_of body.now }

    // Each image since the start is one from before the new body takes force, or from after.
    ensures any_moment { D.honest → OnlyNew D.moment D.images_since disk.old disk.new
        (λ image. IsBefore (D.content disk.old) (D.is_open disk.old) spare (W.touches writer) image
        ⊎ IsAfter (D.content disk.old) spare body.now (W.touches writer)
        (W.promises writer (D.content disk.old)) image) }

    // Where no write failed, a fault leaves the old half in force behind a shut gate.
    ensures kept { D.honest → OnKept result
        (IsShut (D.content disk.new) (D.is_open disk.new) spare
        (body_of (D.content disk.old) (other spare))
        × IsChangedOnly (D.content disk.old) (D.is_open disk.old)
        (touched_by spare (W.touches writer)) (D.content disk.new) (D.is_open disk.new)) }
    ensures still { D.honest → OnKept result (OnlyNew D.moment D.images_since disk.old disk.new
        (IsBefore (D.content disk.old) (D.is_open disk.old) spare (W.touches writer))) }

    // After Ok the new body is in force, and nothing is open.
    ensures done { D.honest → OnOk result (IsAfter (D.content disk.old) spare body.now
        (W.touches writer) (W.promises writer (D.content disk.old)) (D.content disk.new)) }
    ensures closed { D.honest → OnOk result (D.is_open disk.new ≡ nowhere) }
    ensures undamaged { D.honest → W.is_sound writer (D.content disk.old) → IsUndamaged result }
    ensures unread { W.reads_nothing writer → StopsAtWrites result }

    // Who reads beside it meets bytes that evolve, whatever is answered.
    ensures evolves { D.honest
        → IsBeside (D.content disk.old) spare (W.touches writer) body.now
        → EvolvesBy result (D.content disk.old) (D.content disk.new) spare body.now }

    // Sizes and counts, on every disk.
    ensures size { length (D.content disk.new) ≡ length (D.content disk.old) }
    ensures cause { IsCause D.Disk disk.old disk.new result }
{
    let Ok(()) = shut_spare(disk, spare, is_open) else {
        return Err(StreamFault::Write);
    };
    writer.write_into(disk)?;
    let Ok(()) = finish(disk, spare, body) else {
        return Err(StreamFault::Write);
    };
    Ok(())
}

/// Puts a body of a greater generation in force in place of the one that is, with what a writer
/// puts there for it.
///
/// What each image has is said for any claims of the old body that nothing touches, and any of the
/// new one that it takes over or that the writer promised (`IsNext`). A caller may run over a disk
/// that holds nothing, so that the old body and its claims are held (`IsHeld`) is a premise of
/// these clauses.
///
/// # Errors
///
/// `Read` where the read of the spare gate failed, or one of the writer's, and `Damaged` where the
/// writer met damage: the old body is held with its claims, as at the start. `Write` where a write
/// or a sync failed: each image has the old body with its claims, or the new one with its own.
pub fn replace_with<D: Disk, W: WritesExtent>(
    disk: &mut D,
    spare: Half,
    writer: W,
    body: &[u8],
) -> Result<(), StreamFault>
    requires size { bodies_end ≤ length (D.content disk.old) }
    requires body { length body.now ≡ body_size }
    requires can { W.can_write writer (length (D.content disk.old)) }
    requires firm { D.honest → IsFirm (D.content disk.old) (D.is_open disk.old) spare }
    requires greater { D.honest
        → generation_of (body_of (D.content disk.old) (other spare)) < generation_of body.now }

    // Each image since the start has the old body with its claims, or the new one with its own.
    ensures any_moment { D.honest → (old_body : List ℕ) (claims new_claims : List Claim)
        → IsHeld (D.content disk.old) (D.is_open disk.old) spare old_body claims
        → IsNext spare (W.touches writer) (W.promises writer (D.content disk.old)) claims new_claims
        → OnlyNew D.moment D.images_since disk.old disk.new
        (λ image. (length image ≡ length (D.content disk.old))
        × (Has image old_body claims ⊎ Has image body.now new_claims)) }

    // After Ok the new body is held with its claims, and nothing is open.
    ensures done { D.honest → (old_body : List ℕ) (claims new_claims : List Claim)
        → IsHeld (D.content disk.old) (D.is_open disk.old) spare old_body claims
        → IsNext spare (W.touches writer) (W.promises writer (D.content disk.old)) claims new_claims
        → OnOk result (IsHeld (D.content disk.new) (D.is_open disk.new) (other spare)
        body.now new_claims) }
    ensures closed { D.honest → OnOk result (D.is_open disk.new ≡ nowhere) }

    // Where no write failed, a fault leaves the old body held with its claims, and each image since
    // the start has them. So a replacement may begin again.
    ensures kept { D.honest → (old_body : List ℕ) (claims : List Claim)
        → IsHeld (D.content disk.old) (D.is_open disk.old) spare old_body claims
        → Each (IsUntouched (touched_by spare (W.touches writer))) claims
        → OnKept result (IsHeld (D.content disk.new) (D.is_open disk.new) spare old_body claims) }
    ensures still { D.honest → (old_body : List ℕ) (claims : List Claim)
        → IsHeld (D.content disk.old) (D.is_open disk.old) spare old_body claims
        → Each (IsUntouched (touched_by spare (W.touches writer))) claims
        → OnKept result (OnlyNew D.moment D.images_since disk.old disk.new
        (λ image. (length image ≡ length (D.content disk.old)) × Has image old_body claims)) }

    // With a writer that reads nothing, a failed read leaves the disk as it was.
    ensures unwritten { W.reads_nothing writer → OnRead result
        (KeepsDisk D.Disk disk.old disk.new) }

    // Damage is met by a writer that reads, on bytes that aren't sound for it.
    ensures undamaged { D.honest → W.is_sound writer (D.content disk.old) → IsUndamaged result }
    ensures unread { W.reads_nothing writer → IsUndamaged result }

    // Who reads beside it meets bytes that evolve, whatever is answered.
    ensures evolves { D.honest
        → IsBeside (D.content disk.old) spare (W.touches writer) body.now
        → EvolvesBy result (D.content disk.old) (D.content disk.new) spare body.now }

    // Sizes and counts, on every disk.
    ensures size { length (D.content disk.new) ≡ length (D.content disk.old) }
    ensures cause { IsCause D.Disk disk.old disk.new result }
{
    let Ok(is_open) = gate_open(disk, spare) else {
        return Err(StreamFault::Read);
    };
    install(disk, spare, is_open, writer, body)
}
