//! What look-ups keep of the dictionaries of segments.

use crate::filters::SegmentFilters;
use crate::pivots::PivotTables;
use std::alloc::Global;

/// Tables by which words are looked up, kept from find to find: the pivots of the dictionaries of
/// the first large segments, and filters of the words of small ones.
///
/// The filters are believed: let them agree with the open segments, then they do so after a look-up
/// too; new ones do.
#[derive(Drop)]
pub struct WordTables {
    pub pivots: PivotTables,
    pub(crate) filters: SegmentFilters,
}

impl WordTables {
    ghost use Rattle.std.specs.Prelude.{◌≡◌, []};
    ghost use Rattle.pk_lookup.specs.Counted.{AreCounted};
    ghost use Rattle.pk_lookup.specs.FilterBytes.{KeepsLimit};
    ghost use Rattle.pk_lookup.specs.Filtered.{filters_of};

    /// No table and no filter yet. Their memory is taken as segments are searched.
    pub fn new(alloc: Global) -> WordTables
        ensures filters { filters_of result ≡ [] }
        ensures limit { KeepsLimit result.filters }
        ensures counted { AreCounted result.filters }
    {
        WordTables {
            pivots: PivotTables::new(alloc),
            filters: SegmentFilters::new(alloc),
        }
    }
}
