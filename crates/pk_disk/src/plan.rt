//! Which calls of a fault disk fail.
ghost use Rattle.std.specs.Prelude.{◌≡◌, ◌≤◌, ◌+◌, ℕ};
ghost use Rattle.pk_disk.specs.Fault.{fails_at};

/// Which of the calls to come fail, the next one being the first.
#[derive(Clone, Copy, Debug, PartialEq, Eq)]
pub enum Plan {
    /// That one and all later ones.
    From(u64),
    /// That one alone.
    Once(u64),
    /// None.
    Never,
}

impl Plan {
    /// Whether the next call fails. The plan goes on with the call after it.
    pub fn fails(&mut self) -> bool
        ensures now { result ≡ fails_at self.old 1 }
        ensures later { (k : ℕ) → 1 ≤ k → fails_at self.new k ≡ fails_at self.old (k + 1) }
    {
        match *self {
            Plan::From(first) => {
                if first <= 1 {
                    return true;
                }
                *self = Plan::From(first - 1);
                false
            }
            Plan::Once(only) => {
                if only == 1 {
                    *self = Plan::Never;
                    return true;
                }
                *self = Plan::Once(only.saturating_sub(1));
                false
            }
            Plan::Never => false,
        }
    }
}
