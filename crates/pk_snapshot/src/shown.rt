//! The extents that are looked at, in the order of their places.

ghost use Rattle.std.specs.Prelude.{◌≡◌, ◌<◌, ◌+◌, ◌++◌, ◌^◌, length, IfOk, OnOk, is_err};
ghost use Rattle.std.specs.List.Sorted.{IsPermutation};
ghost use Rattle.pk_manifest.specs.Evolves.{Evolves};
ghost use Rattle.pk_manifest.specs.Sound.{IsBody, named};
ghost use Rattle.pk_manifest.specs.Spelling.{view};
ghost use Rattle.pk_snapshot.specs.Counted.{FailsByCalls};
ghost use Rattle.pk_snapshot.specs.Order.{AreMet, IsRising};
ghost use Rattle.pk_snapshot.specs.Shared.{IsFilled};
ghost use Rattle.pk_snapshot.specs.Shown.{own_extents};

use crate::filling::{fill, stop_of};
use crate::shared::SharedFile;
use pk_disk::{DiskFault, Extent};
use pk_manifest::{Half, Manifest};
use std::alloc::{AllocError, Global};

/// The gate and the body of a half, and the extents that this names.
#[derive(Drop)]
pub struct Shown {
    // In the order of their places, so that those which meet a range lie side by side.
    extents: Vec<Extent>,
    ghost rising: { IsRising extents.items },
}

// The extents that a manifest names, and the gate and the body of its half.
fn extents_of(alloc: Global, half: Half, manifest: &Manifest) -> Result<Vec<Extent>, AllocError>
    ensures { IfOk result
        (λ v. v.items ≡ named (view manifest.now) ++ own_extents half) }
{
    let mut extents = manifest.extents(alloc)?;
    let (gate, body) = match half {
        Half::A => (0, 2),
        Half::B => (1, 18),
    };
    extents.push(Extent {
        first: gate,
        units: 1,
        bytes: 1,
    })?;
    extents.push(Extent {
        first: body,
        units: 16,
        bytes: 8_192,
    })?;
    Ok(extents)
}

impl Shown {
    // What is shown of a half that a sound manifest stands in.
    pub fn of(alloc: Global, half: Half, manifest: &Manifest) -> Result<Shown, AllocError>
        requires { IsBody (view manifest.now).units (view manifest.now) }
        ensures { IfOk result (λ s.
            IsPermutation (named (view manifest.now) ++ own_extents half) s.extents.items) }
    {
        let mut extents = extents_of(alloc, half, manifest)?;
        extents.sort_by_key(|e| e.first)?;
        Ok(Shown { extents })
    }

    // Those that meet a range, found by halving: from the first that stops behind the range's start,
    // up to the first that starts at or past its end.
    fn meeting(&self, at: u64, to: u64) -> &[Extent]
        ensures { AreMet at to self.now.extents.items result.now }
    {
        let extents = self.extents.as_slice();
        let first = extents.partition_point(|e| stop_of(*e) <= at);
        let rest = &extents[first..];
        let count = rest.partition_point(|e| e.start() < to);
        &rest[..count]
    }

    // Fills `out` with the bytes from a position on: those that are shown, and zeros beside them.
    pub fn fill<F: SharedFile>(
        &self,
        file: &mut F,
        at: u64,
        out: &mut [u8],
    ) -> Result<(), DiskFault>
        requires { at + length out.old < 2 ^ 64 }
        ensures given { F.honest → OnOk result (IsFilled (F.content file.old)
            (F.content file.new) self.now.extents.items at out.new) }
        ensures evolves { F.honest → Evolves (F.content file.old) (F.content file.new) }
        ensures marked { F.honest → F.marked file.new ≡ F.marked file.old }
        ensures fails { F.honest → FailsByCalls F.failed F.interrupted (length out.old)
            (is_err result) file.old file.new }
    {
        let met = self.meeting(at, at + out.len() as u64);
        fill(file, met, at, out)
    }
}
