//! Bodies: their bytes, what is read of them, and what puts one in force.

ghost use Rattle.std.specs.Prelude.{
  ◌≡◌,
  ◌≤◌,
  ◌<◌,
  ◌+◌,
  ◌^◌,
  ℕ,
  false,
  true,
  IfOk,
  IfSome,
  IsTrue,
  length,
  map,
};
ghost use Rattle.pk_manifest.specs.Bodies.{bodies_end};
ghost use Rattle.pk_manifest.specs.Sound.{is_table};
ghost use Rattle.pk_manifest.specs.Spelling.{table_size, view};
ghost use Rattle.pk_replace.specs.Claims.{AreApart, Each, IsInside, claim_of, places};
ghost use Rattle.pk_replace.specs.Copying.{CanCopy};

use crate::told::{Fault, Told};
use crate::tried::Tried;
use crate::words::{Words, halves, number};
use pk_disk::{Disk, Extent, units_in};
use pk_manifest::{
    BODY_SIZE, Half, Manifest, NO_TABLE, Part, establish, gate_open, install, read_current,
};
use pk_replace::{CopyExtent, Followed, Piece, Pieces, StreamFault, WritesExtent, replace_with};
use std::alloc::{AllocError, Global};

/// Where the bodies end.
const BODIES_END: u64 = 17_408;

/// What may not be spelled as a body.
const NO_BODY: Fault = Fault("no body");

/// The body that was spelled last, and what it says.
#[derive(Drop)]
pub struct Bodies {
    manifest: Manifest,
    body: Vec<u8>,
}

impl Bodies {
    /// One without entries, whose bytes were not spelled.
    pub(crate) fn new(alloc: Global) -> Bodies {
        Bodies {
            manifest: Manifest {
                version: 2,
                generation: 1,
                units: 64,
                next_number: 1,
                next_segment: 1,
                table: NO_TABLE,
                entries: Vec::new(alloc),
            },
            body: Vec::new(alloc),
        }
    }
}

/// An extent of so many bytes from a unit on, which are the first two parts of a word; and its
/// other parts.
fn extent(word: &str) -> (Extent, &str) {
    let (first, rest) = halves(word);
    let (bytes, rest) = halves(rest);
    (Extent::of_bytes(number(first), number(bytes)), rest)
}

/// An entry: id, unit and bytes, kind, and unit and bytes of a deletion list.
fn part(word: &str) -> Part {
    let (segment, rest) = halves(word);
    let (place, rest) = extent(rest);
    let (kind, dead) = halves(rest);
    Part {
        segment: u64::from(number(segment)),
        extent: place,
        kind: number(kind),
        dead: if dead.is_empty() {
            None
        } else {
            Some(extent(dead).0)
        },
    }
}

/// A manifest: version, generation, units, next number, next id, the table's place, the entries.
fn manifest(alloc: Global, words: &mut Words<'_>) -> Result<Manifest, AllocError> {
    let mut manifest = Manifest {
        version: words.number(),
        generation: words.long(),
        units: words.number(),
        next_number: words.number(),
        next_segment: words.long(),
        table: extent(words.next()).0,
        entries: Vec::new(alloc),
    };
    for word in words.each() {
        manifest.entries.push(part(word))?;
    }
    Ok(manifest)
}

/// The extent, behind what was told.
fn tell_extent(extent: Extent, told: &mut Told) {
    told.number(u64::from(extent.first));
    told.number(u64::from(extent.units));
    told.number(u64::from(extent.bytes));
}

/// An entry.
fn tell_part(part: &Part, told: &mut Told) {
    told.word("segment");
    told.number(part.segment);
    tell_extent(part.extent, told);
    told.number(u64::from(part.kind));
    if let Some(dead) = part.dead {
        tell_extent(dead, told);
    }
}

/// What a manifest says, and where its extents begin.
fn tell_manifest(alloc: Global, manifest: &Manifest, told: &mut Told) -> Result<(), AllocError> {
    told.number(u64::from(manifest.version));
    told.number(manifest.generation);
    told.number(u64::from(manifest.units));
    told.number(u64::from(manifest.next_number));
    told.number(manifest.next_segment);
    tell_extent(manifest.table, told);
    for part in &manifest.entries {
        tell_part(part, told);
    }
    told.word("extents");
    for extent in &manifest.extents(alloc)? {
        told.number(u64::from(extent.first));
    }
    Ok(())
}

/// Spells a manifest, which is kept, and tells its body and its table.
fn tell_spelled(
    alloc: Global,
    bodies: &mut Bodies,
    words: &mut Words<'_>,
    told: &mut Told,
) -> Result<(), Fault> {
    let manifest = manifest(alloc, words)?;
    let most = if manifest.version == 1 { 64 } else { 4096 };
    if manifest.version > 2 || manifest.entries.len() > most {
        return Err(NO_BODY);
    }
    let body = manifest.spell(alloc)?;
    told.bytes(&body);
    told.bytes(&manifest.spell_table(alloc)?);
    *bodies = Bodies { manifest, body };
    Ok(())
}

/// The half of a name.
fn half(words: &mut Words<'_>) -> Half {
    if words.next() == "A" {
        Half::A
    } else {
        Half::B
    }
}

/// Its name.
fn half_name(half: Half) -> &'static str {
    match half {
        Half::A => "A",
        Half::B => "B",
    }
}

/// Tells what is in force.
fn tell_current(alloc: Global, disk: &mut Tried, told: &mut Told) -> Result<(), Fault>
    requires { bodies_end ≤ length (⟦<Tried as Disk>⟧.content disk.old) }
{
    let (found, half) = read_current(alloc, disk)?;
    told.word(half_name(half));
    tell_manifest(alloc, &found, told)?;
    Ok(())
}

/// Whether a table of so many entries may be on a disk of some units.
fn has_table(manifest: &Manifest, units: u32) -> bool
    requires version { manifest.now.version ≡ 2 }
    ensures { IsTrue result → is_table units (table_size (view manifest.now)) manifest.now.table ≡ true }
{
    let n = manifest.entries.len();
    if n == 0 || n > 4096 {
        return n == 0 && manifest.table == NO_TABLE;
    }
    let fitted = Extent::of_bytes(manifest.table.first, 40 * n as u32);
    manifest.table == fitted && fitted.lies_within(units)
}

/// Puts the kept body in force by way of a half, its table before it.
fn put_in_force(
    alloc: Global,
    disk: &mut Tried,
    manifest: &Manifest,
    half: Half,
) -> Result<(), Fault>
    requires { bodies_end ≤ length (⟦<Tried as Disk>⟧.content disk.old) }
{
    let few = manifest.entries.len() <= 4096;
    if manifest.version != 2 || !few || !has_table(manifest, units_in(disk.len())) {
        return Err(NO_BODY);
    }
    install(alloc, disk, manifest, half)?;
    Ok(())
}

/// A piece of a body that is to be put in force.
fn piece(words: &mut Words<'_>) -> Result<Piece, AllocError>
    ensures { IfOk result (λ p. p.at < 2 ^ 32) }
{
    Ok(Piece {
        at: u64::from(words.number()),
        bytes: words.bytes()?,
    })
}

/// A piece from a place on, inside a disk of so many bytes.
fn list(alloc: Global, words: &mut Words<'_>, least: u64, size: u64) -> Result<Vec<Piece>, Fault>
    requires { bodies_end ≤ least }
    ensures inside { IfOk result (λ v. Each (IsInside size) (map claim_of v.items)) }
    ensures apart { IfOk result (λ v. AreApart (map claim_of v.items)) }
    ensures behind { IfOk result (λ v. (p : ℕ) → p < least
        → places (map claim_of v.items) p ≡ false) }
{
    let piece = piece(words)?;
    if piece.at < least || piece.at + piece.bytes.len() as u64 > size {
        return Err(NO_BODY);
    }
    Ok(Vec::from_array(alloc, [piece])?)
}

/// Two pieces, one behind the other, inside a disk of so many bytes.
fn two(alloc: Global, words: &mut Words<'_>, size: u64) -> Result<Vec<Piece>, Fault>
    ensures inside { IfOk result (λ v. Each (IsInside size) (map claim_of v.items)) }
    ensures apart { IfOk result (λ v. AreApart (map claim_of v.items)) }
{
    let first = piece(words)?;
    let second = piece(words)?;
    if first.at < BODIES_END || first.at + first.bytes.len() as u64 > second.at {
        return Err(NO_BODY);
    }
    if second.at + second.bytes.len() as u64 > size {
        return Err(NO_BODY);
    }
    Ok(Vec::from_array(alloc, [first, second])?)
}

/// A copy of so many bytes to a place behind them, inside a disk of so many bytes.
fn copy(alloc: Global, from: u32, to: u32, bytes: u32, size: u64) -> Result<CopyExtent, Fault>
    ensures can { IfOk result (λ w. CanCopy w.from w.to w.bytes size) }
    ensures to { IfOk result (λ w. w.to ≡ to) }
    ensures bytes { IfOk result (λ w. w.bytes ≡ bytes) }
{
    let (from, to, bytes) = (u64::from(from), u64::from(to), u64::from(bytes));
    if from + bytes > to || to < BODIES_END || to + bytes > size {
        return Err(NO_BODY);
    }
    Ok(CopyExtent::new(alloc, from, to, bytes)?)
}

/// Puts the kept body in force with a writer, and once more with another, if there is one, where a
/// read failed.
fn replace_or_again<W: WritesExtent>(
    disk: &mut Tried,
    spare: Half,
    writer: W,
    again: Option<W>,
    body: &[u8],
) -> Result<(), Fault>
    requires size { bodies_end ≤ length (⟦<Tried as Disk>⟧.content disk.old) }
    requires can { W.can_write writer (length (⟦<Tried as Disk>⟧.content disk.old)) }
    requires can_again { IfSome again (λ w.
        W.can_write w (length (⟦<Tried as Disk>⟧.content disk.old))) }
{
    if body.len() != BODY_SIZE {
        return Err(NO_BODY);
    }
    let answer = replace_with(disk, spare, writer, body);
    if answer == Err(StreamFault::Read) {
        if let Some(second) = again {
            replace_with(disk, spare, second, body)?;
            return Ok(());
        }
    }
    answer?;
    Ok(())
}

/// Replaces what is in force, by the half, by pieces.
fn replace_by_pieces(
    alloc: Global,
    disk: &mut Tried,
    body: &[u8],
    words: &mut Words<'_>,
) -> Result<(), Fault>
    requires { bodies_end ≤ length (⟦<Tried as Disk>⟧.content disk.old) }
{
    let spare = half(words);
    let is_again = words.number() == 1;
    let pieces = two(alloc, words, disk.len())?;
    let second = if is_again {
        Some(Pieces(&pieces))
    } else {
        None
    };
    replace_or_again(disk, spare, Pieces(&pieces), second, body)
}

/// By a copy.
fn replace_by_copy(
    alloc: Global,
    disk: &mut Tried,
    body: &[u8],
    words: &mut Words<'_>,
) -> Result<(), Fault>
    requires { bodies_end ≤ length (⟦<Tried as Disk>⟧.content disk.old) }
{
    let spare = half(words);
    let is_again = words.number() == 1;
    let (from, to, bytes) = (words.number(), words.number(), words.number());
    let second = if is_again {
        Some(copy(alloc, from, to, bytes, disk.len())?)
    } else {
        None
    };
    let first = copy(alloc, from, to, bytes, disk.len())?;
    replace_or_again(disk, spare, first, second, body)
}

/// By a copy with a piece behind it.
fn replace_by_both(
    alloc: Global,
    disk: &mut Tried,
    body: &[u8],
    words: &mut Words<'_>,
) -> Result<(), Fault>
    requires { bodies_end ≤ length (⟦<Tried as Disk>⟧.content disk.old) }
{
    let spare = half(words);
    let is_again = words.number() == 1;
    let (from, to, bytes) = (words.number(), words.number(), words.number());
    let first = copy(alloc, from, to, bytes, disk.len())?;
    let least = u64::from(to) + u64::from(bytes);
    if least < BODIES_END {
        return Err(NO_BODY);
    }
    let pieces = list(alloc, words, least, disk.len())?;
    let second = if is_again {
        Some(Followed {
            first: copy(alloc, from, to, bytes, disk.len())?,
            pieces: &pieces,
        })
    } else {
        None
    };
    let writer = Followed {
        first,
        pieces: &pieces,
    };
    replace_or_again(disk, spare, writer, second, body)
}

/// Puts the kept bytes of a body in force, on a disk that has none.
fn establish_kept(disk: &mut Tried, body: &[u8]) -> Result<(), Fault>
    requires { bodies_end ≤ length (⟦<Tried as Disk>⟧.content disk.old) }
{
    if body.len() != BODY_SIZE {
        return Err(NO_BODY);
    }
    Ok(establish(disk, body)?)
}

/// Changes what is in force, as a line asks.
fn change(
    alloc: Global,
    disk: &mut Tried,
    bodies: &Bodies,
    name: &str,
    words: &mut Words<'_>,
) -> Result<(), Fault>
    requires { bodies_end ≤ length (⟦<Tried as Disk>⟧.content disk.old) }
{
    match name {
        "install" => put_in_force(alloc, disk, &bodies.manifest, half(words)),
        "establish" => establish_kept(disk, &bodies.body),
        "replace" => replace_by_pieces(alloc, disk, &bodies.body, words),
        "copy" => replace_by_copy(alloc, disk, &bodies.body, words),
        "follow" => replace_by_both(alloc, disk, &bodies.body, words),
        _ => Err(Fault("no such line")),
    }
}

/// Tells the generation behind that of a manifest.
fn tell_next(manifest: &Manifest, told: &mut Told) -> Result<(), Fault> {
    told.number(manifest.next_generation()?);
    Ok(())
}

/// Tells whether the gate of a half is open.
fn tell_gate(disk: &mut Tried, words: &mut Words<'_>, told: &mut Told) -> Result<(), Fault>
    requires { bodies_end ≤ length (⟦<Tried as Disk>⟧.content disk.old) }
{
    told.truth(gate_open(disk, half(words))?);
    Ok(())
}

/// Tells what is asked of bodies on a disk.
pub(crate) fn tell_body(
    alloc: Global,
    disk: &mut Tried,
    bodies: &mut Bodies,
    name: &str,
    words: &mut Words<'_>,
    told: &mut Told,
) -> Result<(), Fault> {
    if disk.len() < BODIES_END {
        return Err(Fault("no bodies"));
    }
    match name {
        "manifest" => tell_spelled(alloc, bodies, words, told),
        "current" => tell_current(alloc, disk, told),
        "next" => tell_next(&bodies.manifest, told),
        "gate" => tell_gate(disk, words, told),
        _ => {
            change(alloc, disk, bodies, name, words)?;
            told.word("ok");
            Ok(())
        }
    }
}
