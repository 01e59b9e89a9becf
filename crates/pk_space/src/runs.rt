//! Runs of free units, and the first that fits.
ghost use Rattle.std.specs.Prelude.{◌≡◌, ◌≤◌, ℕ, true, IfOk};
ghost use Rattle.std.specs.List.{list_all, list_any};
ghost use Rattle.pk_disk.specs.Units.{first_unit, lies_within};
ghost use Rattle.pk_space.specs.Free.{IsPlace, has_unit};
ghost use Rattle.pk_space.specs.Runs.{are_spaced, gaps, is_in_run};

use pk_disk::{Extent, FIRST_UNIT};
use std::alloc::{AllocError, Global};

/// Free units in a row.
#[derive(Clone, Copy, Debug, PartialEq, Eq)]
pub struct Run {
    /// The first of them.
    pub first: u32,
    /// How many; there may be none.
    pub count: u32,
}

/// No run of free units is long enough.
#[derive(Clone, Copy, Debug, PartialEq, Eq)]
pub struct Full {
    /// The units that were asked for.
    pub need: u32,
    /// The units of the longest free run.
    pub largest: u32,
}

/// The same units, in fewer extents: one that begins where the one before ends goes with it. Of segments
/// that were written one behind the other few are left to be sorted.
pub fn joined(alloc: Global, extents: &[Extent]) -> Result<Vec<Extent>, AllocError>
    requires { list_all (lies_within 4294967295) extents.now ≡ true }
    ensures within { IfOk result (λ v. (units : ℕ)
        → list_all (lies_within units) extents.now ≡ true
        → list_all (lies_within units) v.items ≡ true) }
    ensures units { IfOk result (λ v. (u : ℕ)
        → list_any (has_unit u) v.items ≡ list_any (has_unit u) extents.now) }
{
    let mut joined = Vec::new(alloc);
    let Some((first, rest)) = extents.split_first() else {
        return Ok(joined);
    };
    let mut last = *first;
    for e in rest {
        if last.first + last.units == e.first {
            last.units += e.units;
        } else {
            joined.push(last)?;
            last = *e;
        }
    }
    joined.push(last)?;
    Ok(joined)
}

/// The runs between extents that rise by their first units, up to `units`.
pub fn runs_between(alloc: Global, extents: &[Extent], units: u32) -> Result<Vec<Run>, AllocError>
    requires { list_all (lies_within units) extents.now ≡ true }
    ensures { IfOk result (λ v. v.items ≡ gaps first_unit units extents.now) }
{
    let mut runs = Vec::new(alloc);
    let mut low = FIRST_UNIT;
    for e in extents {
        if low < e.first {
            runs.push(Run {
                first: low,
                count: e.first - low,
            })?;
        }
        low = low.max(e.first + e.units);
    }
    if low < units {
        runs.push(Run {
            first: low,
            count: units - low,
        })?;
    }
    Ok(runs)
}

/// Takes the front of the first run that is long enough.
pub fn take_first(runs: &mut [Run], need: u32) -> Result<u32, Full>
    requires some { 1 ≤ need }
    requires spaced { are_spaced 0 4294967295 runs.old ≡ true }
    ensures place { IsPlace (is_in_run runs.old) (is_in_run runs.new) need result }
    ensures spaced { are_spaced 0 4294967295 runs.new ≡ true }
{
    let mut largest = 0u32;
    for i in 0..runs.len() {
        let run = runs[i];
        if run.count >= need {
            runs[i] = Run {
                first: run.first + need,
                count: run.count - need,
            };
            return Ok(run.first);
        }
        largest = largest.max(run.count);
    }
    Err(Full { need, largest })
}
