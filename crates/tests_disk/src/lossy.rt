//! A disk that changes what is read and drops writes: each call returns, and no store is guessed.
ghost use Rattle.std.specs.Prelude.{◌≡◌, ◌≤◌, ◌*◌, [], IfOk, length, map};
ghost use Rattle.pk_manifest.specs.Spelling.{no_extent};
ghost use Rattle.pk_replace.specs.Claims.{AreApart, Each, IsInside, claim_of};

use pk_disk::{Disk, LossyDisk};
use pk_manifest::{Half, Manifest, NO_TABLE, gate_open, install, read_current};
use pk_replace::{CopyExtent, Piece, Pieces, replace_with};
use std::alloc::{AllocError, Global};
use std::process::Abort;
use std::test::Fail;

// The bytes of a disk of 64 units.
const SIZE: usize = 32_768;

// The number of disks that are tried, each by another rule.
const DISKS: u64 = 200;

// How many bytes are that of a lossy disk.
fn changed(bytes: &[u8]) -> usize {
    bytes.iter().filter(|b| **b == 0x5A).count()
}

// Eight zeros, of which each read gives one changed.
#[test]
fn a_lossy_disk_reads_other_bytes(rt: HostRuntime) -> Result<(), Fail> {
    let mut disk = LossyDisk::of_bytes(Vec::from_array(rt.alloc(), [0u8; 8])?, 1);
    assert!(rt; disk.len() == 8);
    let mut out = [0u8; 8];
    let answers = [disk.read(0, &mut out), disk.write(0, &[1, 2]), disk.sync()];
    assert_eq!(rt; answers, [Ok(()), Ok(()), Ok(())]);
    assert!(rt; changed(&out) == 1);
    Ok(())
}

// The manifest of a new store.
fn empty(alloc: Global) -> Manifest
    ensures version { result.version ≡ 2 }
    ensures none { result.entries.items ≡ [] }
    ensures table { result.table ≡ no_extent }
{
    Manifest {
        version: 2,
        generation: 1,
        units: 64,
        next_number: 1,
        next_segment: 1,
        table: NO_TABLE,
        entries: Vec::new(alloc),
    }
}

// What a lossy disk gives is answered too.
fn install_on(rt: &impl Abort, alloc: Global, seed: u64) -> Result<(), Fail> {
    let mut disk = LossyDisk::of_bytes(vec![in alloc; 0u8; SIZE]?, seed);
    assert!(rt; read_current(alloc, &mut disk).is_err());
    assert!(rt; install(alloc, &mut disk, &empty(alloc), Half::B) == Ok(()));
    assert!(rt; gate_open(&mut disk, Half::A).is_ok());
    Ok(())
}

#[test]
fn bodies_on_a_disk_that_is_not_honest_are_answered(rt: HostRuntime) -> Result<(), Fail> {
    for seed in 0..DISKS {
        install_on(&rt, rt.alloc(), seed)?;
    }
    Ok(())
}

// So many bytes from a unit on, filled with its number.
fn piece(alloc: Global, unit: u8, n: usize) -> Result<Piece, AllocError>
    ensures at { IfOk result (λ p. p.at ≡ 512 * unit) }
    ensures long { IfOk result (λ p. length p.bytes.items ≡ n) }
{
    Ok(Piece {
        at: 512 * u64::from(unit),
        bytes: vec![in alloc; unit; n]?,
    })
}

// A segment of 600 bytes at a unit, and a deletion list of 9 bytes six units on.
fn pieces(alloc: Global, unit: u8) -> Result<Vec<Piece>, AllocError>
    requires low { 34 ≤ unit }
    requires high { unit ≤ 57 }
    ensures inside { IfOk result (λ v. Each (IsInside 32768) (map claim_of v.items)) }
    ensures apart { IfOk result (λ v. AreApart (map claim_of v.items)) }
{
    let segment = piece(alloc, unit, 600)?;
    let list = piece(alloc, unit + 6, 9)?;
    Ok(Vec::from_array(alloc, [segment, list])?)
}

// No call of a lossy disk fails, so none is answered, whatever its reads give.
fn replace_on(rt: &impl Abort, alloc: Global, seed: u64) -> Result<(), Fail> {
    let mut disk = LossyDisk::of_bytes(vec![in alloc; 0u8; SIZE]?, seed);
    let body = empty(alloc).spell(alloc)?;
    let pieces = pieces(alloc, 43)?;
    assert!(rt; replace_with(&mut disk, Half::B, Pieces(&pieces), &body) == Ok(()));
    let copy = CopyExtent::new(alloc, 17_408, 26_624, 4_500)?;
    assert!(rt; replace_with(&mut disk, Half::B, copy, &body) == Ok(()));
    Ok(())
}

#[test]
fn replacements_on_a_disk_that_is_not_honest_are_answered(rt: HostRuntime) -> Result<(), Fail> {
    for seed in 0..DISKS {
        replace_on(&rt, rt.alloc(), seed)?;
    }
    Ok(())
}
