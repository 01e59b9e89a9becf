//! The body that is to be shown: chosen, read and confirmed.

ghost use Rattle.std.specs.Prelude.{◌≡◌, ◌≤◌, ◌^◌, ℕ, length, false, IfErr, IfNone, IfOk, IfSome, IsTrue, OnOk, is_err};
ghost use Rattle.pk_manifest.specs.Bodies.{bodies_end, body_size};
ghost use Rattle.pk_disk.specs.declared.units.Extent.{Extent};
ghost use Rattle.pk_manifest.specs.Current.{units_of_disk};
ghost use Rattle.pk_manifest.specs.Sound.{IsBody};
ghost use Rattle.pk_manifest.specs.Spelling.{view};
ghost use Rattle.pk_manifest.specs.Evolves.{Evolves, in_force};
ghost use Rattle.pk_manifest.specs.Found.{IsFound};
ghost use Rattle.pk_snapshot.specs.Another.{SawAnother};
ghost use Rattle.pk_snapshot.specs.Changed.{SawChange};
ghost use Rattle.pk_snapshot.specs.Counted.{FailsByCalls, is_disk_err};
ghost use Rattle.pk_snapshot.specs.Found.{IsOfBody, IsOfConfirm, RefusedAs, SaysPlace};
ghost use Rattle.pk_snapshot.specs.Latest.{IsSnapshot};
ghost use Rattle.pk_snapshot.specs.Shared.{Confirms, IsChosen, SawOther, SawShut};
ghost use Rattle.pk_snapshot.specs.Shown.{ShowsBody, shown_bytes};

use crate::fault::SnapshotFault;
use crate::reading::{is_still, length_of, read_whole, stamp_behind, stamp_of};
use crate::shared::SharedFile;
use crate::shown::Shown;
use pk_disk::{DiskFault, Extent, LEAST_UNITS, UNIT, units_in};
use pk_manifest::{BODY_SIZE, Half, Manifest, decode, table_place, u32_at};
use std::alloc::Global;

// The place of the units in a body.
const UNITS_FIELD: usize = 16;

/// A half whose gate reads as open, and the generation behind it: the greater one, where both do.
#[derive(Clone, Copy, Drop)]
pub struct Chosen {
    pub half: Half,
    pub generation: u64,
}

// Looks at both gates.
pub fn choose<F: SharedFile>(file: &mut F) -> Result<Option<Chosen>, DiskFault>
    ensures given { F.honest → IfOk result (λ found. IfSome found
        (λ c. IsChosen (F.content file.old) (F.content file.new) c.half c.generation)) }
    ensures none { F.honest → IfOk result (λ found. IfNone found
        (SawShut (F.content file.old) (F.content file.new) Half.A
        × SawShut (F.content file.old) (F.content file.new) Half.B)) }
    ensures evolves { F.honest → Evolves (F.content file.old) (F.content file.new) }
    ensures marked { F.honest → F.marked file.new ≡ F.marked file.old }
    ensures fails { F.honest
        → FailsByCalls F.failed F.interrupted 0 (is_err result) file.old file.new }
{
    let first = stamp_behind(file, Half::A)?;
    let second = stamp_behind(file, Half::B)?;
    Ok(match (first, second) {
        (None, None) => None,
        (Some(generation), None) => Some(Chosen {
            half: Half::A,
            generation,
        }),
        (None, Some(generation)) => Some(Chosen {
            half: Half::B,
            generation,
        }),
        (Some(a), Some(b)) => {
            if a < b {
                Some(Chosen {
                    half: Half::B,
                    generation: b,
                })
            } else {
                Some(Chosen {
                    half: Half::A,
                    generation: a,
                })
            }
        }
    })
}

// Whether no other body than that of a half, behind this generation, is in force. A generation that
// was in force is never written again: so where neither body says a greater one, none is in force,
// whatever the gates are. A greater one may be that of a body that is being made ready.
pub fn is_latest<F: SharedFile>(
    file: &mut F,
    half: Half,
    generation: u64,
) -> Result<bool, DiskFault>
    ensures latest { F.honest → generation ≤ in_force (F.content file.old) → IfOk result
        (λ is. IsTrue is → in_force (F.content file.old) ≤ generation) }
    ensures denied { F.honest → IfOk result (λ is. is ≡ false
        → SawAnother (F.content file.old) (F.content file.new) half generation) }
    ensures evolves { F.honest → Evolves (F.content file.old) (F.content file.new) }
    ensures marked { F.honest → F.marked file.new ≡ F.marked file.old }
    ensures fails { F.honest
        → FailsByCalls F.failed F.interrupted 0 (is_err result) file.old file.new }
{
    let beside = stamp_of(file, half.other())?;
    if beside <= generation {
        return Ok(stamp_of(file, half)? == generation);
    }
    match stamp_behind(file, half.other())? {
        None => is_still(file, half, generation),
        Some(_) => Ok(false),
    }
}

// Refuses what is not the same any more.
pub fn confirm<F: SharedFile>(
    file: &mut F,
    half: Half,
    generation: u64,
) -> Result<(), SnapshotFault>
    ensures given { F.honest → OnOk result
        (Confirms (F.content file.old) (F.content file.new) half generation) }
    ensures fault { IfErr result IsOfConfirm }
    ensures changed { F.honest → IfErr result (λ why. why ≡ SnapshotFault.Changed
        → SawOther (F.content file.old) (F.content file.new) half generation) }
    ensures evolves { F.honest → Evolves (F.content file.old) (F.content file.new) }
    ensures marked { F.honest → F.marked file.new ≡ F.marked file.old }
    ensures fails { F.honest
        → FailsByCalls F.failed F.interrupted 0 (is_disk_err result) file.old file.new }
{
    match is_still(file, half, generation) {
        Ok(true) => Ok(()),
        Ok(false) => Err(SnapshotFault::Changed),
        Err(_) => Err(SnapshotFault::Disk),
    }
}

// What a body says of its store, before it is known to be sound.
struct Said {
    units: u32,
    table: Extent,
}

// The units that a body says, and where its table is: if a store may have as many in a file of no more
// than `most`, and the table may lie there.
#[tactic(auto, unfolding(pk_manifest::specs::Said::units_said_in))]
fn said_of(body: &[u8], most: u32) -> Option<Said>
    requires { length body.now ≡ body_size }
    ensures found { IfSome result
        (λ s. SaysPlace most body.now s.units s.table) }
    ensures none { IfNone result ((units : ℕ) (table : Extent)
        → SaysPlace most body.now units table → ⊥) }
{
    let units = u32_at(body, UNITS_FIELD);
    if units < LEAST_UNITS || most < units {
        return None;
    }
    let table = table_place(body, units)?;
    Some(Said { units, table })
}

// What the body of a half says, read with its table and confirmed, in a file of so many units.
pub fn read_manifest<F: SharedFile>(
    alloc: Global,
    file: &mut F,
    half: Half,
    generation: u64,
    units: u32,
) -> Result<Manifest, SnapshotFault>
    requires size { F.honest → bodies_end ≤ length (F.content file.old) }
    requires units { F.honest → units ≡ units_of_disk (F.content file.old) }
    ensures found { F.honest → generation ≤ in_force (F.content file.old) → IfOk result
        (λ m. IsFound (F.content file.old) half generation (view m)) }
    ensures refused { F.honest → generation ≤ in_force (F.content file.old) → IfErr result
        (IsOfBody (F.content file.old) half generation) }
    ensures changed { F.honest → IfErr result (λ why. why ≡ SnapshotFault.Changed
        → SawOther (F.content file.old) (F.content file.new) half generation) }
    ensures sound { IfOk result (λ m. IsBody (view m).units (view m)) }
    ensures marked { F.honest → F.marked file.new ≡ F.marked file.old }
    ensures fails { F.honest
        → FailsByCalls F.failed F.interrupted (2 ^ 32) (is_disk_err result) file.old file.new }
{
    let mut bytes = [0u8; BODY_SIZE];
    let Ok(()) = read_whole(file, half.body(), &mut bytes) else {
        return Err(SnapshotFault::Disk);
    };
    let Some(Said { units, table }) = said_of(&bytes, units) else {
        confirm(file, half, generation)?;
        return Err(SnapshotFault::Damaged);
    };
    let Ok(mut entries) = vec![in alloc; 0u8; table.bytes as usize] else {
        return Err(SnapshotFault::Memory);
    };
    let Ok(()) = read_whole(file, table.start(), &mut entries) else {
        return Err(SnapshotFault::Disk);
    };
    confirm(file, half, generation)?;
    let Ok(decoded) = decode(alloc, &bytes, &entries, units) else {
        return Err(SnapshotFault::Memory);
    };
    match decoded {
        None => Err(SnapshotFault::Damaged),
        Some(manifest) => Ok(manifest),
    }
}

/// What is to be shown of a file.
#[derive(Drop)]
pub struct Looked {
    // The bytes of the units that the body says.
    pub len: u64,
    pub half: Half,
    pub generation: u64,
    pub shown: Shown,
}

// Looks at a file, and marks it.
pub fn look<F: SharedFile>(alloc: Global, file: &mut F) -> Result<Looked, SnapshotFault>
    ensures fresh { F.honest → IfOk result
        (λ l. in_force (F.content file.old) ≤ l.generation) }
    ensures shows { F.honest → IfOk result (λ l. ShowsBody (F.marked file.new)
        (shown_bytes l.len l.shown.extents.items (F.marked file.new)) l.half l.generation) }
    ensures snapshot { F.honest → IfOk result
        (λ l. IsSnapshot (F.marked file.new) l.half l.generation l.len l.shown.extents.items) }
    ensures refused { F.honest → IfErr result
        (RefusedAs (F.content file.old) (F.content file.new) (F.marked file.new)) }
    ensures changed { F.honest → IfErr result (λ why. why ≡ SnapshotFault.Changed
        → SawChange (F.content file.old) (F.content file.new)) }
    ensures evolves { F.honest → Evolves (F.content file.old) (F.content file.new) }
    ensures fails { F.honest
        → FailsByCalls F.failed F.interrupted (2 ^ 32) (is_disk_err result) file.old file.new }
{
    let Ok(len) = length_of(file) else {
        return Err(SnapshotFault::Disk);
    };
    if units_in(len) < LEAST_UNITS {
        return Err(SnapshotFault::TooSmall);
    }
    let Ok(chosen) = choose(file) else {
        return Err(SnapshotFault::Disk);
    };
    let Some(Chosen { half, generation }) = chosen else {
        return Err(SnapshotFault::NotAStore);
    };
    confirm(file, half, generation)?;
    file.mark();
    let Ok(len) = length_of(file) else {
        return Err(SnapshotFault::Disk);
    };
    let manifest = read_manifest(alloc, file, half, generation, units_in(len))?;
    let Ok(shown) = Shown::of(alloc, half, &manifest) else {
        return Err(SnapshotFault::Memory);
    };
    Ok(Looked {
        len: UNIT * u64::from(manifest.units),
        half,
        generation,
        shown,
    })
}
