//! Which block a seek goes to, told by the skip entries.

ghost use Rattle.std.specs.Prelude.{◌+◌, ◌*◌, ◌-◌, ◌<◌, ◌≤◌, ◌^◌};
ghost use Rattle.std.specs.Prelude.{ℕ, List, length, IfOk, MatchResult, ◌≡◌};
ghost use Rattle.pk_posting.specs.Parts.{Fits, HasShape, LiesIn, bytes_at};
ghost use Rattle.pk_posting.specs.Frames.{ReadsSource};
ghost use Rattle.pk_posting.specs.Source.{CountsFaults};
ghost use Rattle.pk_cursor.specs.Seeking.{Between, IsGalloped, block_end};

use pk_posting::{ByteSource, ListPlace, Shape, SourceFault, last_in};

// The first block after one that ends below the target which doesn't, or the count of blocks.
pub(crate) fn find_block<S: ByteSource>(
    source: &mut S,
    place: ListPlace,
    shape: Shape,
    from: u32,
    target: u32,
) -> Result<u32, SourceFault>
    requires lies { LiesIn place (length (S.content source.old)) }
    requires fits { Fits shape place }
    requires from { from < shape.blocks }
    ensures found { S.honest → (xs : List ℕ)
        → HasShape (bytes_at (S.content source.old) place) shape xs → block_end xs from < target
        → MatchResult result (λ j. Between xs shape.blocks target (j - 1) j)
        (λ e. e ≡ SourceFault.Disk) }
    ensures order { IfOk result (λ j. (from < j) × (j ≤ shape.blocks)) }
    ensures asks { IfOk result (λ j. (k : ℕ) → j - from < 2 ^ k
        → S.asked source.new ≤ S.asked source.old + 2 * k) }
    ensures most { S.asked source.new ≤ S.asked source.old + 42 }
    ensures left { ReadsSource S.ByteSource CountsFaults result source.old source.new }
{
    let (low, high) = gallop(source, place, shape, from, target)?;
    let j = narrow(source, place, shape, low, high, target)?;
    Ok(j)
}

// Doubles its step until a block doesn't end below the target: the last block that does, and that
// one, or the count of blocks.
fn gallop<S: ByteSource>(
    source: &mut S,
    place: ListPlace,
    shape: Shape,
    from: u32,
    target: u32,
) -> Result<(u32, u32), SourceFault>
    requires lies { LiesIn place (length (S.content source.old)) }
    requires fits { Fits shape place }
    requires from { from < shape.blocks }
    ensures found { S.honest → (xs : List ℕ)
        → HasShape (bytes_at (S.content source.old) place) shape xs → block_end xs from < target
        → MatchResult result (λ r. Between xs shape.blocks target r.0 r.1)
        (λ e. e ≡ SourceFault.Disk) }
    ensures order { IfOk result (λ r. (from ≤ r.0) × (r.0 < r.1) × (r.1 ≤ shape.blocks)) }
    ensures asks { IfOk result
        (λ r. IsGalloped from r.0 r.1 (S.asked source.old) (S.asked source.new)) }
    ensures most { S.asked source.new ≤ S.asked source.old + 21 }
    ensures left { ReadsSource S.ByteSource CountsFaults result source.old source.new }
{
    let mut low = from;
    let mut step: u32 = 1;
    while step < shape.blocks - low {
        let next = low + step;
        let last = last_in(source, place, shape, next)?;
        if target <= last {
            return Ok((low, next));
        }
        low = next;
        step *= 2;
    }
    Ok((low, shape.blocks))
}

// Halves the stretch between a block that ends below the target and one that doesn't.
fn narrow<S: ByteSource>(
    source: &mut S,
    place: ListPlace,
    shape: Shape,
    start: u32,
    end: u32,
    target: u32,
) -> Result<u32, SourceFault>
    requires lies { LiesIn place (length (S.content source.old)) }
    requires fits { Fits shape place }
    requires order { (start < end) × (end ≤ shape.blocks) }
    ensures found { S.honest → (xs : List ℕ)
        → HasShape (bytes_at (S.content source.old) place) shape xs
        → Between xs shape.blocks target start end
        → MatchResult result (λ j. Between xs shape.blocks target (j - 1) j)
        (λ e. e ≡ SourceFault.Disk) }
    ensures order { IfOk result (λ j. (start < j) × (j ≤ shape.blocks)) }
    ensures asks { (t : ℕ) → end - start ≤ 2 ^ t
        → S.asked source.new ≤ S.asked source.old + t }
    ensures left { ReadsSource S.ByteSource CountsFaults result source.old source.new }
{
    let mut low = start;
    let mut high = end;
    while 1 < high - low {
        let middle = low + (high - low) / 2;
        let last = last_in(source, place, shape, middle)?;
        if target <= last {
            high = middle;
            continue;
        }
        low = middle;
    }
    Ok(high)
}
