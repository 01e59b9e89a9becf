//! A segment that is open, with its entry, and which of its documents are deleted.
ghost use Rattle.std.specs.Prelude.{◌≡◌};
ghost use Rattle.pk_open.specs.Opened.{left_of, pends};

use pk_dead::Dead;
use pk_manifest::Part;
use pk_segment::Segment;

/// An open segment, and which of its documents are deleted.
#[derive(Drop)]
pub struct OpenSegment {
    /// Its entry: its id, where it lies, its kind, and where its deletion list lies, if it has one.
    pub entry: Part,
    /// What opening read of it.
    pub segment: Segment,
    /// The numbers of its deletion list.
    pub dead: Dead,
    /// Those, and the numbers whose deletion no commit has taken.
    pub deleted: Dead,
}

impl OpenSegment {
    /// Whether there is a deletion that no commit has taken.
    pub fn is_pending(&self) -> bool
        ensures { result ≡ pends self.now }
    {
        self.deleted.len() != self.dead.len()
    }

    // How many of its documents are not deleted.
    pub(crate) fn left(&self) -> u64
        ensures { result ≡ left_of self.now }
    {
        u64::from(self.segment.count()).saturating_sub(self.deleted.len() as u64)
    }
}
