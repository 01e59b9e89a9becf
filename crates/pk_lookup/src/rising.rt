//! Whether numbers rise that are taken out block by block.
ghost use Rattle.std.specs.Prelude.{◌≡◌, ◌↔◌, IsTrue, length};
ghost use Rattle.std.specs.List.Sorted.{IsStrictlyIncreasing};
ghost use Rattle.pk_lookup.specs.Blocks.{RisesInBlocks};

// Whether numbers rise of which each block of 128 does: by the first number of each block and the one
// before it.
fn blocks_rise(numbers: &[u32]) -> bool
    requires { RisesInBlocks numbers.now }
    ensures { IsTrue result ↔ IsStrictlyIncreasing numbers.now }
{
    for block in 0..numbers.len() / 128 {
        let next = 128 * block + 128;
        if next < numbers.len() && numbers[next] <= numbers[next - 1] {
            return false;
        }
    }
    true
}

/// Whether numbers of which each block of 128 rises are a list of so many: all of them rise.
pub(crate) fn is_list_of(numbers: &[u32], count: u32) -> bool
    requires { RisesInBlocks numbers.now }
    ensures { IsTrue result
        ↔ ((length numbers.now ≡ count) × IsStrictlyIncreasing numbers.now) }
{
    numbers.len() == count as usize && blocks_rise(numbers)
}
