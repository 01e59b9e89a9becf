//! Filters of the words of segments, kept from find to find.
ghost use Rattle.std.specs.Prelude.{◌≡◌, ◌+◌, ◌-◌, ◌^◌, ◌≤◌, ◌<◌, [], List};
ghost use Rattle.std.specs.Prelude.{IfErr, IfOk, IfSome, IsTrue, MatchResult, get_or, min};
ghost use Rattle.std.specs.Prelude.{vec_len};
ghost use Rattle.pk_filter.specs.Filter.{HasAll};
ghost use Rattle.pk_model.specs.Collection.{Doc};
ghost use Rattle.pk_posting.specs.Frames.{ReadsSource};
ghost use Rattle.pk_segment.specs.Indexed.{items_of};
ghost use Rattle.pk_segment.specs.Listing.{dictionary_place};
ghost use Rattle.pk_segment.specs.Reading.{CountsReads};
ghost use Rattle.pk_segment.specs.Spelling.{IndexSpells};

use pk_dict::DictPlace;
use pk_filter::WordFilter;
use pk_open::OpenSegment;
use pk_posting::ByteSource;
use pk_segment::ReadFault;
use std::alloc::Global;

// How many bytes a dictionary has at most that gets a filter.
const LONGEST_DICTIONARY: u32 = 1_048_576;

// How many bytes all filters take at most.
const MOST_FILTER_BYTES: usize = 1 << 22;

// A dictionary gets its filter once as many finds looked into it as it has stretches of so many
// bytes, but two at the least: so the filter is to cost no more than they did.
const BYTES_A_LOOK: u32 = 256;

const FEWEST_LOOKS: u32 = 2;

// Behind so many bytes of dictionaries a find makes no more filters: later ones do.
const MOST_READ_AT_ONCE: u32 = 1_048_576;

// The looks of a segment that has its filter, or that gets none.
const DECIDED: u32 = u32::MAX;

/// What is kept of a segment.
#[derive(Drop)]
pub(crate) struct SegmentFilter {
    /// The segment's id.
    pub(crate) segment: u64,
    /// How many finds looked into it, until it is decided whether it gets a filter.
    pub(crate) looks: u32,
    /// The filter of its words, if it has one.
    pub(crate) filter: Option<WordFilter>,
}

impl SegmentFilter {
    ghost use Rattle.pk_lookup.specs.FilterBytes.{bytes_of};

    // How many bytes its filter takes.
    fn bytes(&self) -> usize
        ensures { result ≡ bytes_of self.now.filter }
    {
        match &self.filter {
            Some(filter) => filter.bytes(),
            None => 0,
        }
    }
}

/// Filters of the words of segments (pk_filter). A segment gets one once enough finds looked into
/// it, as long as all filters together keep their limit.
///
/// Where memory for one is wanting, or the dictionary is damaged, words are looked up without it:
/// that costs reads and nothing else.
#[derive(Drop)]
pub(crate) struct SegmentFilters {
    /// What is kept of the open segments, each at its place. So none is sought for; where the id is
    /// another, nothing is known of the segment.
    pub(crate) kept: Vec<SegmentFilter>,
    /// How many bytes the filters take.
    pub(crate) bytes: usize,
    /// How many bytes of dictionaries the find has read for filters.
    pub(crate) read: u32,
}

impl SegmentFilters {
    ghost use Rattle.pk_lookup.specs.Counted.{AreCounted};
    ghost use Rattle.pk_lookup.specs.Dropped.{DropsOnlyOf};
    ghost use Rattle.pk_lookup.specs.FilterBytes.{KeepsLimit, bytes_in, bytes_of};
    ghost use Rattle.pk_lookup.specs.Filtered.{AddsFilterOf, AddsNoFilter, KeepsFilter};

    /// Of no segment.
    pub(crate) fn new(alloc: Global) -> SegmentFilters
        ensures none { result.kept.items ≡ [] }
        ensures limit { KeepsLimit result }
        ensures counted { AreCounted result }
    {
        SegmentFilters {
            kept: Vec::new(alloc),
            bytes: 0,
            read: 0,
        }
    }

    /// Begins a find: puts what is kept of the open segments at their places, and drops what is kept
    /// of others.
    pub(crate) fn settle(&mut self, opened: &[OpenSegment])
        ensures adds { AddsNoFilter self.old.kept.items self.new.kept.items }
        ensures limit { KeepsLimit self.old → KeepsLimit self.new }
        ensures counted { AreCounted self.old → AreCounted self.new }
    {
        self.read = 0;
        for place in 0..opened.len() {
            self.settle_at(place, opened[place].entry.segment);
        }
        if self.kept.len() > opened.len() {
            self.kept.truncate(opened.len());
            self.bytes = self.total();
        }
    }

    // Puts what is kept of a segment at its place, where all before it are settled: it stands there or
    // behind, since segments keep their order. Where memory for a new one is wanting, it is not put
    // there.
    #[inline]
    fn settle_at(&mut self, place: usize, segment: u64)
        ensures adds { AddsNoFilter self.old.kept.items self.new.kept.items }
        ensures limit { KeepsLimit self.old → KeepsLimit self.new }
        ensures counted { AreCounted self.old → AreCounted self.new }
        ensures bytes { self.new.bytes ≡ self.old.bytes }
    {
        if self.is_at(place, segment) || self.kept.len() < place {
            return;
        }
        let Some(from) = self.place_from(place, segment) else {
            return;
        };
        self.kept.swap(place, from);
    }

    // Whether what stands at a place is of this segment.
    #[inline(always)]
    fn is_at(&self, place: usize, segment: u64) -> bool
        ensures within { IsTrue result → place < vec_len self.now.kept }
        ensures of { IsTrue result → (d : SegmentFilter)
            → (get_or self.now.kept.items place d).segment ≡ segment }
    {
        place < self.kept.len() && self.kept[place].segment == segment
    }

    // Where what is kept of a segment stands, from a place on; of a new one nothing is known, and it
    // is put behind the others. None where memory for it is wanting.
    fn place_from(&mut self, from: usize, segment: u64) -> Option<usize>
        requires { from ≤ vec_len self.old.kept }
        ensures adds { AddsNoFilter self.old.kept.items self.new.kept.items }
        ensures within { IfSome result
            (λ at. (from ≤ at) × (at < vec_len self.new.kept)) }
        ensures limit { KeepsLimit self.old → KeepsLimit self.new }
        ensures counted { AreCounted self.old → AreCounted self.new }
        ensures bytes { self.new.bytes ≡ self.old.bytes }
    {
        let end = self.kept.len();
        for at in from..end {
            if self.kept[at].segment == segment {
                return Some(at);
            }
        }
        let fresh = SegmentFilter {
            segment,
            looks: 0,
            filter: None,
        };
        let Ok(()) = self.kept.push(fresh) else {
            return None;
        };
        Some(end)
    }

    // How many bytes the filters take; at 2^64 - 1 it stays.
    fn total(&self) -> usize
        ensures { result ≡ min (bytes_in self.now.kept.items) (2 ^ 64 - 1) }
    {
        let mut bytes: usize = 0;
        for kept in &self.kept {
            bytes = bytes.saturating_add(kept.bytes());
        }
        bytes
    }

    /// Notes that a find looks into an open segment, whose bytes the source has, and makes its filter
    /// if that is due.
    #[tactic(auto, using(crate::proofs::FilterLemmas::drops_put))]
    pub(crate) fn note<S: ByteSource>(
        &mut self,
        alloc: Global,
        source: &mut S,
        place: usize,
        opened: &OpenSegment,
    ) -> Result<(), ReadFault>
        ensures adds { AddsFilterOf S.honest (S.content source.old) opened.now self.old.kept.items
            self.new.kept.items }
        ensures drops { DropsOnlyOf opened.now.entry.segment self.old.kept.items
            self.new.kept.items }
        ensures limit { KeepsLimit self.old → KeepsLimit self.new }
        ensures counted { AreCounted self.old → AreCounted self.new }
        ensures fault { IfErr result (λ e. e ≡ ReadFault.Disk) }
        ensures left { ReadsSource S.ByteSource CountsReads result source.old source.new }
    {
        let segment = opened.entry.segment;
        if !self.is_at(place, segment) || self.kept[place].looks == DECIDED {
            return Ok(());
        }
        let lies = opened.segment.dictionary_place();
        let looks = self.kept[place].looks.saturating_add(1);
        let (looks, filter) = if self.is_due(looks, lies.bytes) {
            (DECIDED, self.filter_of(alloc, source, lies)?)
        } else {
            (looks, None)
        };
        self.kept[place] = SegmentFilter {
            segment,
            looks,
            filter,
        };
        Ok(())
    }

    // Whether a find that is one of so many is to make the filter of a dictionary of so many bytes.
    fn is_due(&self, looks: u32, bytes: u32) -> bool {
        looks >= FEWEST_LOOKS.max(bytes / BYTES_A_LOOK) && self.read < MOST_READ_AT_ONCE
    }

    // The filter of the words of a dictionary that lies there, which is counted: none where it would
    // be too long, the dictionary is damaged, or memory is wanting.
    #[cold]
    fn filter_of<S: ByteSource>(
        &mut self,
        alloc: Global,
        source: &mut S,
        lies: DictPlace,
    ) -> Result<Option<WordFilter>, ReadFault>
        ensures words { S.honest → (docs : List Doc) → IndexSpells (S.content source.old) docs
            → lies ≡ dictionary_place docs
            → IfOk result (λ made. IfSome made (HasAll (items_of docs))) }
        ensures kept { self.new.kept ≡ self.old.kept }
        ensures bytes { MatchResult result
            (λ made. self.new.bytes ≡ self.old.bytes + bytes_of made)
            (λ _. self.new.bytes ≡ self.old.bytes) }
        ensures within { self.old.bytes ≤ MOST_FILTER_BYTES → self.new.bytes ≤ MOST_FILTER_BYTES }
        ensures fault { IfErr result (λ e. e ≡ ReadFault.Disk) }
        ensures left { ReadsSource S.ByteSource CountsReads result source.old source.new }
    {
        let bytes = self.bytes.saturating_add(WordFilter::bytes_for(lies.terms));
        if lies.bytes > LONGEST_DICTIONARY || bytes > MOST_FILTER_BYTES {
            return Ok(None);
        }
        if u64::from(source.len()) < u64::from(lies.at) + u64::from(lies.bytes) {
            return Ok(None);
        }
        self.read = self.read.saturating_add(lies.bytes);
        match WordFilter::of_dictionary(alloc, source, lies) {
            Ok(filter) => {
                self.bytes = bytes;
                Ok(Some(filter))
            }
            Err(ReadFault::Damaged) | Err(ReadFault::Memory) => Ok(None),
            Err(ReadFault::Disk) => Err(ReadFault::Disk),
        }
    }

    /// The filter of a segment, which stands at this place of its body; none where it has none.
    #[inline]
    pub(crate) fn filter_at(&self, place: usize, segment: u64) -> Option<&WordFilter>
        ensures { IfSome result (λ filter. KeepsFilter self.now.kept.items segment filter.now) }
    {
        if place >= self.kept.len() {
            return None;
        }
        let kept = &self.kept[place];
        if kept.segment != segment {
            return None;
        }
        match &kept.filter {
            Some(filter) => Some(filter),
            None => None,
        }
    }
}
