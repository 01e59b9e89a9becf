//! A law of readers, the contract of a function with nothing to do.

ghost use Rattle.std.specs.Prelude.{◌≤◌, ℕ, List};
ghost use Rattle.pk_manifest.specs.Evolves.{in_force};
ghost use Rattle.pk_reader.specs.Outdated.{OutdatedTimes};

/// However often what was read was outdated, the generation in force did not fall.
pub fn outdated_tries_lose_nothing()
    ensures { (n : ℕ) (first now : List ℕ) → OutdatedTimes (λ bytes. Unit {0}) n first now
        → in_force first ≤ in_force now }
{}
