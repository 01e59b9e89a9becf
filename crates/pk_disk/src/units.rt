//! Units of 512 bytes, and extents of them.
ghost use Rattle.std.specs.Prelude.{◌≡◌, ◌*◌, ◌+◌, ◌<◌};
ghost use Rattle.pk_disk.specs.Units.{IsFitted, end_of, lies_within, overlap, start_of, units_in};

/// The bytes of a unit.
pub const UNIT: u64 = 512;

/// The fewest units of a disk that holds a store.
pub const LEAST_UNITS: u32 = 64;

/// The most units that are used of a disk; bytes past them are never touched.
pub const MAX_UNITS: u64 = 2_147_483_648;

/// The first unit that an extent may take. Those before it are of gates and bodies.
pub const FIRST_UNIT: u32 = 34;

/// The whole units of a disk of `size` bytes.
pub fn units_in(size: u64) -> u32
    ensures { result ≡ units_in size }
{
    (size / UNIT).min(MAX_UNITS) as u32
}

/// Neighbouring units of a disk, of which the first `bytes` bytes count.
#[derive(Clone, Copy, Debug, PartialEq, Eq)]
pub struct Extent {
    /// The first unit.
    pub first: u32,
    /// How many units: `bytes` divided by 512, rounded up.
    pub units: u32,
    /// The length in bytes.
    pub bytes: u32,
}

impl Extent {
    /// The extent of `bytes` bytes from unit `first` on.
    pub fn of_bytes(first: u32, bytes: u32) -> Extent
        ensures first { result.first ≡ first }
        ensures bytes { result.bytes ≡ bytes }
        ensures fitted { IsFitted result }
    {
        Extent {
            first,
            units: bytes.div_ceil(512),
            bytes,
        }
    }

    /// The position of its first byte.
    pub fn start(self) -> u64
        ensures { result ≡ start_of self }
    {
        UNIT * u64::from(self.first)
    }

    /// The unit behind its last one.
    pub fn end(self) -> u64
        ensures { result ≡ end_of self }
    {
        u64::from(self.first) + u64::from(self.units)
    }

    /// Whether it has a unit and lies within those that extents may take, of a disk of `units`
    /// units.
    pub fn lies_within(self, units: u32) -> bool
        ensures { result ≡ lies_within units self }
    {
        FIRST_UNIT <= self.first && 0 < self.units && self.end() <= u64::from(units)
    }

    /// Whether the two share a unit.
    pub fn overlaps(self, other: Extent) -> bool
        ensures { result ≡ overlap self other }
    {
        u64::from(self.first) < other.end() && u64::from(other.first) < self.end()
    }
}
