//! The fixed fields of a list: its head and its skip entries.

ghost use Rattle.std.specs.Prelude.{◌≡◌, ◌+◌, ◌*◌, ◌/◌, ◌<◌, ◌≤◌, ◌∷◌};
ghost use Rattle.std.specs.Prelude.{ℕ, List, length, slice_index, Some, IfSome};
ghost use Rattle.pk_posting.specs.Posting.{Spells, tail_place, word};
ghost use Rattle.pk_posting.specs.Limits.{longest_list};

/// How many numbers a list has at most: 2^27.
pub const LONGEST_LIST: u32 = 134_217_728;

/// Where a list's bytes stand, counted from the start of what they stand in.
#[derive(Clone, Copy, Debug, PartialEq, Eq)]
pub struct ListPlace {
    /// The place of its first byte.
    pub at: u32,
    /// How many bytes it has.
    pub bytes: u32,
}

/// The parts of a list's bytes.
#[derive(Clone, Copy, Debug, PartialEq, Eq)]
pub struct Shape {
    /// How many numbers it has.
    pub count: u32,
    /// How many whole blocks of 128 numbers these are.
    pub blocks: u32,
    /// The place of the numbers left, in bytes from the list's start.
    pub tail: u32,
}

/// The skip entry of a block.
#[derive(Clone, Copy, Debug, PartialEq, Eq)]
pub struct Skip {
    /// The place of the block's packed bytes, counted from the start of the first metablock.
    pub offset: u32,
    /// The block's last four numbers.
    pub last: [u32; 4],
}

impl Shape {
    /// The parts of the list that the bytes spell, read from a few of the bytes. `None` where these
    /// show that no list is spelled; where another byte is wrong, parts that lie within the bytes.
    pub fn of(bytes: &[u8]) -> Option<Shape>
        ensures spelled { (xs : List ℕ) → Spells bytes.now xs → result ≡ Some (record {
          count = length xs;
          blocks = length xs / 128;
          tail = tail_place bytes.now (length xs / 128);
        }) }
        ensures count { IfSome result (λ shape. shape.count ≡ word bytes.now 0) }
        ensures blocks { IfSome result (λ shape. shape.blocks ≡ shape.count / 128) }
        ensures inside { IfSome result (λ shape. shape.tail ≤ length bytes.now) }
    {
        if bytes.len() < 4 {
            return None;
        }
        let count = word_at(bytes, 0);
        if count > LONGEST_LIST {
            return None;
        }
        let blocks = count / 128;
        match tail_of(bytes, blocks as usize) {
            Some(tail) => Some(Shape {
                count,
                blocks,
                tail,
            }),
            None => None,
        }
    }
}

/// The skip entry that twenty bytes are.
pub fn skip_of(bytes: &[u8]) -> Skip
    requires { length bytes.now ≡ 20 }
    ensures offset { result.offset ≡ word bytes.now 0 }
    ensures last { (c : ℕ) → c < 4 → slice_index result.last c ≡ word bytes.now (4 + 4 * c) }
{
    Skip {
        offset: word_at(bytes, 0),
        last: [
            word_at(bytes, 4),
            word_at(bytes, 8),
            word_at(bytes, 12),
            word_at(bytes, 16),
        ],
    }
}

// Where the packed blocks end: after the last of them.
fn tail_of(bytes: &[u8], blocks: usize) -> Option<u32>
    requires { blocks ≤ longest_list / 128 }
    ensures spelled { (xs : List ℕ) → Spells bytes.now xs → length xs / 128 ≡ blocks
        → result ≡ Some (tail_place bytes.now blocks) }
    ensures inside { IfSome result (λ tail. tail ≤ length bytes.now) }
{
    let base = 4 + 20 * blocks;
    if bytes.len() < base {
        return None;
    }
    if blocks == 0 {
        return Some(4);
    }
    let last = blocks - 1;
    let row = word_at(bytes, 4 + 20 * (16 * (last / 16))) as usize;
    let width_at = base + row + last % 16;
    if row < 16 || width_at - 16 >= bytes.len() {
        return None;
    }
    let end = word_at(bytes, 4 + 20 * last) as usize + 16 * bytes[width_at - 16] as usize;
    let tail = base + end;
    if tail > bytes.len() || tail > u32::MAX as usize {
        return None;
    }
    Some(tail as u32)
}

// Four bytes as a number, the lowest first.
#[inline(always)]
pub fn word_at(bytes: &[u8], at: usize) -> u32
    requires { at + 4 ≤ length bytes.now }
    ensures { result ≡ word bytes.now at }
{
    u32::from_le_bytes([bytes[at], bytes[at + 1], bytes[at + 2], bytes[at + 3]])
}

// The last number, 0 where there is none.
pub fn last_number(xs: &[u32]) -> u32
    ensures { result ≡ slice_index (0 ∷ xs.now) (length xs.now) }
{
    match xs {
        [] => 0,
        [.., last] => *last,
    }
}
