//! Tables of the pivots of dictionaries, by which look-ups spare the first steps of a halving.
ghost use Rattle.std.specs.Prelude.{IsTrue, OnErr, OnOk, length, max, vec_len, ◌<◌, ◌≤◌, ◌+◌};

use pk_manifest::Part;
use pk_posting::MOST_LENT;
use std::alloc::{AllocError, Global};

// How many tables are kept at most. The first so many segments have one: a find asks all in their
// order.
const MOST_TABLES: usize = 64;

// How many keys a table has: those of the first twelve steps of a halving.
const TABLE_KEYS: usize = 4096;

// How many bytes a segment has at least that has a table: eight times those of the table.
const SMALLEST: u32 = 1 << 18;

/// The table of a segment.
#[derive(Drop)]
pub(crate) struct SegmentPivots {
    /// The segment's id; 0 where there is none.
    pub(crate) segment: u64,
    /// None of a small segment.
    pub(crate) keys: Vec<u64>,
}

/// Tables of pivots (pk_keys), each for the dictionary of one segment: of the first 64 segments. A
/// small segment has an empty one.
///
/// Where memory for one is wanting, words are looked up without it: that costs reads and nothing else.
#[derive(Drop)]
pub struct PivotTables {
    /// Each at the place of its segment. So none is sought for; where the id is another, the segment
    /// has none yet, or it stands behind.
    pub(crate) tables: Vec<SegmentPivots>,
    /// Where long stretches of dictionaries stand while they are lent, so that no find has to clear
    /// an array for them; none before the first. What it holds means nothing. It lies by itself,
    /// since a reader moves its store with each question.
    pub(crate) long: Option<Box<[u8; MOST_LENT]>>,
}

impl PivotTables {
    ghost use Rattle.pk_lookup.specs.Few.{AreFew};
    ghost use Rattle.pk_lookup.specs.Pivots.{HasNoTable};

    /// No tables yet. Their memory is taken as segments are first searched.
    pub(crate) fn new(alloc: Global) -> PivotTables
        ensures { HasNoTable result }
    {
        PivotTables {
            tables: Vec::new(alloc),
            long: None,
        }
    }

    // Whether what stands at a place is of this segment.
    #[inline(always)]
    fn is_at(&self, place: usize, segment: u64) -> bool
        ensures { IsTrue result → place < vec_len self.now.tables }
    {
        place < self.tables.len() && self.tables[place].segment == segment
    }

    // Where the table of a segment stands, from a place on.
    fn place_from(&self, from: usize, segment: u64) -> Option<usize> {
        for at in from..self.tables.len() {
            if self.tables[at].segment == segment {
                return Some(at);
            }
        }
        None
    }

    // Puts a table to the others, as far behind as its place at the least.
    fn put(
        &mut self,
        alloc: Global,
        place: usize,
        table: SegmentPivots,
    ) -> Result<usize, AllocError>
        ensures ok { OnOk result (length self.new.tables.items
            ≤ max (length self.old.tables.items) place + 1) }
        ensures err { OnErr result (length self.new.tables.items
            ≤ max (length self.old.tables.items) place) }
    {
        for _ in self.tables.len()..place {
            self.tables.push(SegmentPivots {
                segment: 0,
                keys: Vec::new(alloc),
            })?;
        }
        let at = self.tables.len();
        self.tables.push(table)?;
        Ok(at)
    }

    // Puts the table for the segment of an entry, which stands at this place of its body, at that
    // place: an empty one where there is none yet.
    #[cold]
    fn prepare(&mut self, alloc: Global, place: usize, entry: &Part) -> Result<(), AllocError>
        ensures few { AreFew self.old → AreFew self.new }
    {
        if place >= MOST_TABLES {
            return Ok(());
        }
        let at = match self.place_from(place, entry.segment) {
            Some(at) => at,
            None => {
                let mut keys = Vec::new(alloc);
                if entry.extent.bytes >= SMALLEST {
                    keys.resize(TABLE_KEYS, 0)?;
                }
                let segment = entry.segment;
                self.put(alloc, place, SegmentPivots { segment, keys })?
            }
        };
        if place < self.tables.len() && at < self.tables.len() {
            self.tables.swap(place, at);
        }
        self.tables.truncate(MOST_TABLES);
        Ok(())
    }

    // The table for the segment of an entry, which stands at this place of its body: an empty one
    // where it has none. Beside it the array for long stretches, for which there has to be memory.
    pub(crate) fn table_of(
        &mut self,
        alloc: Global,
        place: usize,
        entry: &Part,
    ) -> Result<(&mut [u64], &mut [u8; MOST_LENT]), AllocError> {
        if !self.is_at(place, entry.segment) {
            let _ = self.prepare(alloc, place, entry);
        }
        if self.long.is_none() {
            self.long = Some(Box::new(alloc, [0; MOST_LENT])?);
        }
        let is_at = self.is_at(place, entry.segment);
        let Some(long) = &mut self.long else {
            return Err(AllocError);
        };
        if is_at {
            return Ok((&mut self.tables[place].keys, &mut **long));
        }
        Ok((&mut [], &mut **long))
    }
}
