//! Laws of places, each the contract of a function with nothing to do.
ghost use Rattle.std.specs.Prelude.{◌≡◌, ◌⊎◌, ◌<◌, Bool, List, true, ℕ};
ghost use Rattle.pk_disk.specs.declared.units.Extent.{Extent};
ghost use Rattle.pk_space.specs.Free.{IsFirstFit, IsFullAt};
ghost use Rattle.pk_space.specs.Places.{FullAs, PlacedAs};

/// Of so many units either a first run is free, or none is and there is a longest.
pub fn a_run_fits_or_none()
    ensures { (units : ℕ) (free : ℕ → Bool) (n : ℕ) → ((u : ℕ) → free u ≡ true → u < units)
        → ((first : ℕ) × IsFirstFit free n first) ⊎ ((largest : ℕ) × IsFullAt free n largest) }
{}

/// Lengths are placed, or one of them finds no room; never both.
pub fn lengths_are_placed_or_full()
    ensures either { (units : ℕ) (taken : List Extent) (lengths : List ℕ)
        → ((extents : List Extent) × PlacedAs units taken lengths extents)
        ⊎ ((need : ℕ) × (largest : ℕ) × FullAs units taken lengths need largest) }
    ensures never_both { (units : ℕ) (taken : List Extent) (lengths : List ℕ)
        (extents : List Extent) (need largest : ℕ) → PlacedAs units taken lengths extents
        → FullAs units taken lengths need largest → ⊥ }
{}

/// Where lengths lie is determined, and so are the numbers that say which finds no room.
pub fn places_are_determined()
    ensures placed { (units : ℕ) (taken : List Extent) (lengths : List ℕ)
        (extents others : List Extent) → PlacedAs units taken lengths extents
        → PlacedAs units taken lengths others → extents ≡ others }
    ensures full { (units : ℕ) (taken : List Extent) (lengths : List ℕ)
        (need largest need' largest' : ℕ) → FullAs units taken lengths need largest
        → FullAs units taken lengths need' largest' → (need ≡ need') × (largest ≡ largest') }
    ensures shorter { (units : ℕ) (taken : List Extent) (lengths : List ℕ) (need largest : ℕ)
        → FullAs units taken lengths need largest → largest < need }
{}
