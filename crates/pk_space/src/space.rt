//! The free units of a disk.
ghost use Rattle.std.specs.Prelude.{◌≡◌, true};
ghost use Rattle.pk_space.specs.Runs.{are_spaced};

use crate::runs::{Full, Run, joined, runs_between, take_first};
use pk_disk::Extent;
use std::alloc::{AllocError, Global};

/// The free units of a disk.
#[derive(Drop)]
pub struct Space {
    // In rising order, with a gap between each two.
    runs: Vec<Run>,
    ghost spaced: { are_spaced 0 4294967295 runs.items ≡ true },
}

impl Space {
    ghost use Rattle.std.specs.Prelude.{◌≤◌, ℕ, IfOk};
    ghost use Rattle.std.specs.List.{list_all};
    ghost use Rattle.pk_disk.specs.Units.{lies_within};
    ghost use Rattle.pk_space.specs.Free.{IsPlace, free_at};
    ghost use Rattle.pk_space.specs.Space.{is_free};

    /// The units of a disk of `units` units, from 34 on, that lie in none of these extents. The
    /// extents lie within these units themselves.
    pub fn of(alloc: Global, units: u32, extents: &[Extent]) -> Result<Space, AllocError>
        requires { list_all (lies_within units) extents.now ≡ true }
        ensures { IfOk result (λ space. (u : ℕ) → is_free space u ≡ free_at units extents.now u) }
    {
        let mut sorted = joined(alloc, extents)?;
        sorted.sort_by_key(|e| e.first)?;
        let runs = runs_between(alloc, &sorted, units)?;
        Ok(Space { runs })
    }

    /// Takes the first run of `units` free units, at least one, and answers its first unit. `Full`
    /// exactly where no run is long enough; then nothing changed. It takes no memory.
    pub fn take(&mut self, units: u32) -> Result<u32, Full>
        requires { 1 ≤ units }
        ensures { IsPlace (is_free self.old) (is_free self.new) units result }
    {
        take_first(&mut self.runs, units)
    }
}
