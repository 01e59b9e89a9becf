//! The keys in the middles of the ranges that halvings come to.

ghost use Rattle.std.specs.Prelude.{◌≡◌, ◌≤◌, ◌<◌, length};
ghost use Rattle.pk_keys.specs.Keys.{decided, kept, pivot_at};

/// Where the keys that are known leave a word, among so many.
#[derive(Clone, Copy)]
pub struct Bounds {
    /// How many words have a lesser key.
    pub low: u32,
    /// The place of the first word that has a greater key, of those that are known.
    pub high: u32,
    /// The place in the table of the range between both.
    pub node: usize,
}

// The key that is known of the word in the middle of a range; 0 where none is.
fn pivot_of(pivots: &[u64], node: usize) -> u64
    ensures value { result ≡ pivot_at pivots.now node }
    ensures inside { 0 < result → node < length pivots.now }
{
    if node < pivots.len() {
        return pivots[node];
    }
    0
}

/// The range of so many words that a halving for the key comes to, as long as the key of the word
/// in the middle is known, and another one.
pub fn around(pivots: &[u64], words: u32, key: u64) -> Bounds
    ensures value { result ≡ decided words pivots.now key 0 words 1 }
    ensures order { result.low ≤ result.high }
    ensures within { result.high ≤ words }
{
    let mut low: u32 = 0;
    let mut high = words;
    let mut node: usize = 1;
    while low < high {
        let pivot = pivot_of(pivots, node);
        if pivot == 0 || pivot == key {
            return Bounds { low, high, node };
        }
        let middle = low + (high - low) / 2;
        if key < pivot {
            high = middle;
            node = 2 * node;
        } else {
            low = middle + 1;
            node = 2 * node + 1;
        }
    }
    Bounds { low, high, node }
}

/// Puts the key of the word in the middle of a range into the table, at the range's place; past the
/// table's end, and at 0, nothing is put.
pub fn keep(pivots: &mut [u64], node: usize, key: u64)
    ensures { pivots.new ≡ kept pivots.old node key }
{
    if 0 < node && node < pivots.len() {
        pivots[node] = key;
    }
}
