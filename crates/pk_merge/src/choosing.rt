//! Which of many segments are merged, where not all are.

ghost use Rattle.std.specs.Prelude.{◌≡◌, ◌≤◌, ◌+◌, length};
ghost use Rattle.pk_model.specs.Limits.{tidy_run};
ghost use Rattle.pk_merge.specs.Choosing.{ChoosesAs};
ghost use Rattle.pk_state.specs.Runs.{sum_of_run};

use pk_model::limits::TIDY_RUN;

/// The place of the first of eight neighbouring sizes: of those eight with the least sum, the first
/// of such eight. None where there are fewer than eight sizes. It takes no memory.
pub fn choose(sizes: &[u32]) -> Option<usize>
    ensures { ChoosesAs sizes.now result }
{
    if sizes.len() < TIDY_RUN {
        return None;
    }
    let mut chosen = 0;
    let mut least = sum_at(sizes, 0);
    for place in 1..=sizes.len() - TIDY_RUN {
        let sum = sum_at(sizes, place);
        if sum < least {
            chosen = place;
            least = sum;
        }
    }
    Some(chosen)
}

// The sum of the eight sizes from a place on.
fn sum_at(sizes: &[u32], place: usize) -> u64
    requires { place + tidy_run ≤ length sizes.now }
    ensures { result ≡ sum_of_run sizes.now place }
{
    let mut sum = 0;
    for size in &sizes[place..place + TIDY_RUN] {
        sum += u64::from(*size);
    }
    sum
}
