//! A list that lies in a source, taken out block after block.

ghost use Rattle.std.specs.Prelude.{◌≡◌, ◌+◌, ◌*◌, ◌-◌, ◌/◌, ◌%◌, ◌<◌, ◌≤◌, ◌∷◌, ◌++◌};
ghost use Rattle.std.specs.Prelude.{ℕ, List, [], length, take, slice_index};
ghost use Rattle.std.specs.Prelude.{IfOk, IfErr, IsErr, IsErrOf, IsOk, MatchResult, OnOk};
ghost use Rattle.pk_posting.specs.Posting.{IsRightBlock, Rises, Spells, base};
ghost use Rattle.pk_posting.specs.Parts.{IsWithin, LiesIn, bytes_at};
ghost use Rattle.pk_posting.specs.Reading.{Breaks};
ghost use Rattle.pk_posting.specs.Frames.{IsRead};
ghost use Rattle.pk_posting.specs.Limits.{longest_list};

use crate::decoding::{ends_with, is_padded, is_right_block, least_length};
use crate::fields::{LONGEST_LIST, ListPlace, word_at};
use crate::lent::word_in;
use crate::packed::PackedPlace;
use crate::parts::read_tail_in;
use crate::source::{ByteSource, SourceFault};
use pk_lanes::unpack_sums;

/// How far a list that lies in a source is decoded: as strictly as `decode` does it of a slice, and
/// without memory. The blocks are given in their order, and then the tail. What was given is what
/// the bytes spell so far; with the tail they spell a list, and it is that.
#[derive(Drop)]
pub struct ListDecoder {
    place: ListPlace,
    // How many numbers the list has,
    count: u32,
    // and how many of its whole blocks were given.
    given: u32,
    // Where what follows these begins, counted from the list's start.
    at: u32,
    // The widths of the metablock of the block that was given last.
    widths: [u8; 16],
    // The four numbers given last, 0 where there are none.
    seed: [u32; 4],
    ghost most: { count ≤ longest_list },
    ghost some: { given ≤ count / 128 },
    ghost head: { base (count / 128) ≤ place.bytes },
    ghost room: { at ≤ place.bytes },
    ghost order: { (i : ℕ) → i < 3 → slice_index seed i ≤ slice_index seed (i + 1) },
}

// Where the packed bytes of a block begin, counted from the list's start, and the widths of its
// metablock.
#[derive(Clone, Copy)]
struct BlockStart {
    at: u32,
    widths: [u8; 16],
}

impl ListDecoder {
    ghost use Rattle.pk_posting.specs.Decoder.{AreWidths, Begins, HasGiven, IsEntry};
    ghost use Rattle.pk_posting.specs.Decoder.{blocks_given, blocks_of, last_given, place_of};
    ghost use Rattle.pk_posting.specs.Decoder.{tail_count};

    /// The decoder of the list that lies at a place of a source, which has given nothing yet, by
    /// one stretch at most. It is Damaged where the place goes past the source's end, or its bytes
    /// have no room for as many numbers as they count.
    pub fn open<S: ByteSource>(source: &mut S, place: ListPlace) -> Result<ListDecoder, SourceFault>
        ensures given { S.honest
            → IfOk result (λ d. HasGiven (bytes_at (S.content source.old) place) d []) }
        ensures spelled { S.honest → (xs : List ℕ)
            → place.at + place.bytes ≤ length (S.content source.old)
            → Spells (bytes_at (S.content source.old) place) xs
            → IfErr result (λ e. e ≡ SourceFault.Disk) }
        ensures lies { IsOk result → LiesIn place (length (S.content source.old)) }
        ensures place { IfOk result (λ d. place_of d ≡ place) }
        ensures none { IfOk result (λ d. blocks_given d ≡ 0) }
        ensures last { IfOk result (λ d. last_given d ≡ 0) }
        ensures left { IsRead S.ByteSource 1 result source.old source.new }
    {
        if u64::from(source.len()) < u64::from(place.at) + u64::from(place.bytes) {
            return Err(SourceFault::Damaged);
        }
        let count = word_in(source, place, 0)?;
        if count > LONGEST_LIST {
            return Err(SourceFault::Damaged);
        }
        let blocks = count / 128;
        if (place.bytes as usize) < least_length(blocks as usize, (count % 128) as usize) {
            return Err(SourceFault::Damaged);
        }
        Ok(ListDecoder {
            place,
            count,
            given: 0,
            at: 4 + 20 * blocks,
            widths: [0; 16],
            seed: [0; 4],
        })
    }

    /// How many whole blocks of 128 numbers the list has.
    pub fn blocks(&self) -> u32
        ensures { result ≡ blocks_of self.now }
    {
        self.count / 128
    }

    /// Puts the numbers of the next block into `xs`, by three stretches at most. It is Damaged where
    /// all blocks were given, or the bytes spell no list. After a refusal the decoder is as before,
    /// and nothing is known of `xs`.
    pub fn next_block<S: ByteSource>(
        &mut self,
        source: &mut S,
        xs: &mut [u32; 128],
    ) -> Result<(), SourceFault>
        requires lies { LiesIn (place_of self.old) (length (S.content source.old)) }
        ensures given { S.honest → (numbers : List ℕ)
            → HasGiven (bytes_at (S.content source.old) (place_of self.old)) self.old numbers
            → OnOk result (HasGiven (bytes_at (S.content source.old) (place_of self.old))
            self.new (numbers ++ xs.new)) }
        ensures spelled { S.honest → (numbers ys : List ℕ)
            → HasGiven (bytes_at (S.content source.old) (place_of self.old)) self.old numbers
            → blocks_given self.old < blocks_of self.old
            → Spells (bytes_at (S.content source.old) (place_of self.old)) ys
            → IfErr result (λ e. e ≡ SourceFault.Disk) }
        // Whatever the bytes are, numbers that are given rise.
        ensures rises { IsOk result → (i : ℕ) → i < 128
            → slice_index (last_given self.old ∷ xs.new) i < slice_index xs.new i }
        ensures last { IsOk result → last_given self.new ≡ slice_index xs.new 127 }
        ensures there { IsOk result → blocks_given self.old < blocks_of self.old }
        ensures more { IsOk result → blocks_given self.new ≡ blocks_given self.old + 1 }
        ensures blocks { blocks_of self.new ≡ blocks_of self.old }
        ensures tail { tail_count self.new ≡ tail_count self.old }
        ensures place { place_of self.new ≡ place_of self.old }
        ensures stays { IsErr result → self.new ≡ self.old }
        ensures left { IsRead S.ByteSource 3 result source.old source.new }
    {
        if self.given >= self.blocks() {
            return Err(SourceFault::Damaged);
        }
        let start = self.start_in(source)?;
        let width = u32::from(start.widths[(self.given % 16) as usize]);
        if 16 * width > (self.place.bytes - start.at).min(512) {
            return Err(SourceFault::Damaged);
        }
        let packed = PackedPlace {
            seed: self.seed,
            at: start.at,
            width,
        };
        right_in(source, self.place, packed, xs)?;
        self.entry_in(source, start.at, xs)?;
        self.given += 1;
        self.at = start.at + 16 * width;
        self.widths = start.widths;
        self.seed = [xs[124], xs[125], xs[126], xs[127]];
        Ok(())
    }

    /// Puts the numbers after the whole blocks into the front of `xs`, by one stretch at most, and
    /// says how many they are: fewer than 128. It is Damaged where a block was not given yet, or the
    /// bytes spell no list. After a refusal nothing is known of `xs`.
    pub fn tail<S: ByteSource>(
        &self,
        source: &mut S,
        xs: &mut [u32; 128],
    ) -> Result<usize, SourceFault>
        requires lies { LiesIn (place_of self.now) (length (S.content source.old)) }
        ensures whole { S.honest → (numbers : List ℕ)
            → HasGiven (bytes_at (S.content source.old) (place_of self.now)) self.now numbers
            → IfOk result (λ n. Spells (bytes_at (S.content source.old) (place_of self.now))
            (numbers ++ take n xs.new)) }
        ensures spelled { S.honest → (numbers ys : List ℕ)
            → HasGiven (bytes_at (S.content source.old) (place_of self.now)) self.now numbers
            → blocks_given self.now ≡ blocks_of self.now
            → Spells (bytes_at (S.content source.old) (place_of self.now)) ys
            → IfErr result (λ e. e ≡ SourceFault.Disk) }
        // Whatever the bytes are, numbers that are given rise.
        ensures rises { IfOk result (λ n. (i : ℕ) → i < n
            → slice_index (last_given self.now ∷ xs.new) i < slice_index xs.new i) }
        ensures count { IfOk result (λ n. n ≡ tail_count self.now) }
        ensures there { IsOk result → blocks_given self.now ≡ blocks_of self.now }
        ensures left { IsRead S.ByteSource 1 result source.old source.new }
    {
        if self.given < self.blocks() {
            return Err(SourceFault::Damaged);
        }
        let count = (self.count % 128) as usize;
        if count == 0 && self.at == self.place.bytes {
            return Ok(0);
        }
        read_tail_in(source, self.place, self.at, self.seed[3], count, xs)?;
        Ok(count)
    }

    // Where the next block begins, and the widths of its metablock.
    fn start_in<S: ByteSource>(&self, source: &mut S) -> Result<BlockStart, SourceFault>
        requires lies { LiesIn (place_of self.now) (length (S.content source.old)) }
        requires one { blocks_given self.now < blocks_of self.now }
        ensures begins { S.honest → (numbers : List ℕ)
            → (g : HasGiven (bytes_at (S.content source.old) (place_of self.now)) self.now numbers)
            → IfOk result (λ r. Begins (bytes_at (S.content source.old) (place_of self.now))
            self.now g.row r.at r.widths) }
        ensures breaks { S.honest → IsErrOf result SourceFault.Damaged
            → Breaks (bytes_at (S.content source.old) (place_of self.now)) (blocks_of self.now)
            (blocks_given self.now) self.now.at }
        ensures inside { IfOk result (λ r. r.at ≤ self.now.place.bytes) }
        ensures left { IsRead S.ByteSource 1 result source.old source.new }
    {
        if self.given % 16 != 0 {
            return Ok(BlockStart {
                at: self.at,
                widths: self.widths,
            });
        }
        let widths = self.widths_in(source)?;
        Ok(BlockStart {
            at: self.at + 16,
            widths,
        })
    }

    // The widths of the metablock that the next block begins.
    fn widths_in<S: ByteSource>(&self, source: &mut S) -> Result<[u8; 16], SourceFault>
        requires lies { LiesIn (place_of self.now) (length (S.content source.old)) }
        requires one { blocks_given self.now < blocks_of self.now }
        requires first { blocks_given self.now % 16 ≡ 0 }
        ensures widths { S.honest → IfOk result
            (AreWidths (bytes_at (S.content source.old) (place_of self.now)) (blocks_of self.now)
            (blocks_given self.now) self.now.at) }
        ensures breaks { S.honest → IsErrOf result SourceFault.Damaged
            → Breaks (bytes_at (S.content source.old) (place_of self.now)) (blocks_of self.now)
            (blocks_given self.now) self.now.at }
        ensures inside { IsOk result → self.now.at + 16 ≤ self.now.place.bytes }
        ensures left { IsRead S.ByteSource 1 result source.old source.new }
    {
        if self.place.bytes - self.at < 16 {
            return Err(SourceFault::Damaged);
        }
        let stretch = source.bytes(self.place.at + self.at, 16)?;
        if !is_padded(stretch, self.given as usize, self.blocks() as usize) {
            return Err(SourceFault::Damaged);
        }
        let mut widths = [0u8; 16];
        widths.copy_from_slice(stretch);
        Ok(widths)
    }

    // Finds the entry of the next block to be that of a block that begins at a place and has these
    // numbers.
    fn entry_in<S: ByteSource>(
        &self,
        source: &mut S,
        at: u32,
        xs: &[u32; 128],
    ) -> Result<(), SourceFault>
        requires lies { LiesIn (place_of self.now) (length (S.content source.old)) }
        requires one { blocks_given self.now < blocks_of self.now }
        ensures is { S.honest → OnOk result
            (IsEntry (bytes_at (S.content source.old) (place_of self.now)) (blocks_of self.now)
            (blocks_given self.now) at xs.now) }
        ensures only { S.honest
            → IsEntry (bytes_at (S.content source.old) (place_of self.now)) (blocks_of self.now)
            (blocks_given self.now) at xs.now
            → IfErr result (λ e. e ≡ SourceFault.Disk) }
        ensures left { IsRead S.ByteSource 1 result source.old source.new }
    {
        let base = 4 + 20 * self.blocks() as usize;
        let entry = source.bytes(self.place.at + (4 + 20 * self.given), 20)?;
        if word_at(entry, 0) as usize + base != at as usize {
            return Err(SourceFault::Damaged);
        }
        if !ends_with(entry, 4, xs) {
            return Err(SourceFault::Damaged);
        }
        Ok(())
    }
}

// The numbers that a block's packed bytes restore, if these make it right.
fn right_in<S: ByteSource>(
    source: &mut S,
    place: ListPlace,
    packed: PackedPlace,
    xs: &mut [u32; 128],
) -> Result<(), SourceFault>
    requires lies { LiesIn place (length (S.content source.old)) }
    requires inside { IsWithin place.bytes packed }
    requires order { (i : ℕ) → i < 3
        → slice_index packed.seed i ≤ slice_index packed.seed (i + 1) }
    ensures right { S.honest → OnOk result (IsRightBlock
        (bytes_at (S.content source.old) place) packed.at packed.width packed.seed xs.new) }
    ensures only { S.honest → (ys : List ℕ)
        → IsRightBlock (bytes_at (S.content source.old) place) packed.at packed.width packed.seed ys
        → MatchResult result (λ _. xs.new ≡ ys) (λ e. e ≡ SourceFault.Disk) }
    ensures rises { IsOk result → Rises packed.seed xs.new }
    ensures left { IsRead S.ByteSource 1 result source.old source.new }
{
    let stretch = source.bytes(place.at + packed.at, 16 * packed.width)?;
    unpack_sums(stretch, packed.width, &packed.seed, xs);
    if !is_right_block(stretch, 0, packed.width as usize, &packed.seed, xs) {
        return Err(SourceFault::Damaged);
    }
    Ok(())
}
