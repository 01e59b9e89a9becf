//! A term looked up in a source: halving over the groups' offsets, then a scan of one group.

ghost use Rattle.std.specs.Prelude.{
  ◌≡◌,
  ◌≤◌,
  ◌<◌,
  ◌+◌,
  ◌-◌,
  ◌*◌,
  ◌^◌,
  ℕ,
  List,
  Ok,
  length,
  IfOk,
  IsOk,
  MatchResult,
};
ghost use Rattle.pk_posting.specs.Limits.{asks_for};
ghost use Rattle.pk_dict.specs.Dictionary.{DictSpells, Item, entry_of, group_count};
ghost use Rattle.pk_dict.specs.LookUp.{IsSaid, IsToldAt, IsToldIn};
ghost use Rattle.pk_dict.specs.LookUp.{look_up_of, narrow_at, scanned, standing_at};
ghost use Rattle.pk_dict.specs.Place.{LiesIn, bytes_at};
ghost use Rattle.pk_dict.specs.Reading.{Gives};
ghost use Rattle.pk_dict.specs.Search.{Goes, IsAmid, IsAmong, IsKnown, IsStanding};
ghost use Rattle.pk_keys.specs.Keys.{pivot_at};
ghost use Rattle.pk_posting.specs.Frames.{IsRead, ReadsSource};
ghost use Rattle.pk_posting.specs.Source.{CountsFaults};

use crate::entry::{DictPlace, Entry};
use crate::head::{Between, Search, Standing, Step, TermsLeft};
use crate::steps::{group_step, scan};
use pk_keys::{around, keep, key};
use pk_posting::{ByteSource, SourceFault};

// How many groups a dictionary has at most of which keys are kept: so none is asked more often than
// one of the most groups.
const MOST_GROUPS: u32 = 1 << 26;

/// The entry of a term in a dictionary that lies in a source, or None where the term is not in it.
///
/// It reads short stretches alone and takes no memory: with groups up to 2^k it asks at most
/// (k + 16) * (6 + the stretches of 4,096 bytes of the term) times.
#[tactic(auto, unfolding(crate::specs::LookUp::look_up_of, crate::specs::LookUp::look_up_at))]
pub fn look_up_in<S: ByteSource>(
    source: &mut S,
    place: DictPlace,
    term: &[u8],
) -> Result<Option<Entry>, SourceFault>
    ensures value { S.honest → Gives result
        (look_up_of (S.content source.old) place term.now) }
    ensures found { S.honest → (es : List Item)
        → place.at + place.bytes ≤ length (S.content source.old)
        → DictSpells (bytes_at (S.content source.old) place) es → length es ≡ place.terms
        → MatchResult result (λ r. r ≡ entry_of es term.now) (λ e. e ≡ SourceFault.Disk) }
    ensures inside { IsOk result → place.at + place.bytes ≤ length (S.content source.old) }

    ensures left { ReadsSource S.ByteSource CountsFaults result source.old source.new }
    ensures asks { (k : ℕ) → group_count place.terms ≤ 2 ^ k → S.asked source.new
        ≤ S.asked source.old + (k + 16) * (6 + asks_for (length term.now)) }
{
    if u64::from(source.len()) < u64::from(place.at) + u64::from(place.bytes) {
        return Err(SourceFault::Damaged);
    }
    let standing = narrow(source, place, term)?;
    scan_after(source, place, term, standing)
}

/// The entry of a term in a dictionary that lies in a source, or None where the term is not in it,
/// as `look_up_in` says it of the bytes of a dictionary; any other bytes may be refused as Damaged,
/// or not, but both answers are what a group says, between whose first term and the next group's
/// the term stands.
///
/// `pivots` is a table of pk_keys for the groups of this dictionary, by which the search begins
/// where earlier ones have been: the first terms at both ends of that range are read. A key that
/// was not known is put in. No number in the table is believed: a wrong one costs two reads. As
/// long as nothing is known, it is `look_up_in` of any bytes. It takes no memory.
#[tactic(auto, unfolding(crate::specs::LookUp::look_up_of, crate::specs::LookUp::look_up_at))]
pub fn look_up_near<S: ByteSource>(
    source: &mut S,
    place: DictPlace,
    pivots: &mut [u64],
    term: &[u8],
) -> Result<Option<Entry>, SourceFault>
    ensures found { S.honest → (es : List Item)
        → place.at + place.bytes ≤ length (S.content source.old)
        → DictSpells (bytes_at (S.content source.old) place) es → length es ≡ place.terms
        → MatchResult result (λ r. r ≡ entry_of es term.now) (λ e. e ≡ SourceFault.Disk) }

    // Of any bytes.
    ensures said { S.honest → IfOk result
        (IsSaid (bytes_at (S.content source.old) place) place.terms term.now) }
    ensures unknown { S.honest → pivot_at pivots.old 1 ≡ 0 → Gives result
        (look_up_of (S.content source.old) place term.now) }

    ensures inside { IsOk result → place.at + place.bytes ≤ length (S.content source.old) }
    ensures left { ReadsSource S.ByteSource CountsFaults result source.old source.new }
    ensures asks { (k : ℕ) → group_count place.terms ≤ 2 ^ k → S.asked source.new
        ≤ S.asked source.old + (k + 18) * (6 + asks_for (length term.now)) }
    ensures most { S.asked source.new
        ≤ S.asked source.old + 44 * (6 + asks_for (length term.now)) }
{
    if u64::from(source.len()) < u64::from(place.at) + u64::from(place.bytes) {
        return Err(SourceFault::Damaged);
    }
    let standing = stand_near(source, place, pivots, term)?;
    scan_after(source, place, term, standing)
}

// The entry of a term that stands so among the first terms of the groups.
fn scan_after<S: ByteSource>(
    source: &mut S,
    place: DictPlace,
    term: &[u8],
    standing: Standing,
) -> Result<Option<Entry>, SourceFault>
    requires lies { LiesIn place (length (S.content source.old)) }
    requires among { IsAmong (group_count place.terms) (length term.now) standing }
    ensures value { S.honest → Gives result
        (scanned (bytes_at (S.content source.old) place) place.terms term.now standing) }
    ensures left { IsRead S.ByteSource (15 * (6 + asks_for (length term.now))) result
        source.old source.new }
{
    match standing {
        Standing::First(_, entry) => Ok(Some(entry)),
        Standing::After(0, _, _) => Ok(None),
        Standing::After(groups, matched, next) => {
            let left = TermsLeft {
                count: (place.terms - (16 * (groups - 1) + 1)).min(15),
                matched,
                at: next,
            };
            scan(source, place, term, left)
        }
    }
}

// How many groups so many terms make.
pub(crate) fn groups_of(terms: u32) -> u32
    ensures { result ≡ group_count terms }
{
    if terms % 16 == 0 {
        return terms / 16;
    }
    terms / 16 + 1
}

// Where a term stands among the first terms of the groups.
pub(crate) fn narrow<S: ByteSource>(
    source: &mut S,
    place: DictPlace,
    term: &[u8],
) -> Result<Standing, SourceFault>
    requires { LiesIn place (length (S.content source.old)) }
    ensures value { S.honest → Gives result
        (standing_at (bytes_at (S.content source.old) place) place.terms term.now) }
    ensures among { IfOk result (IsAmong (group_count place.terms) (length term.now)) }
    ensures left { ReadsSource S.ByteSource CountsFaults result source.old source.new }
    ensures asks { (k : ℕ) → group_count place.terms ≤ 2 ^ k → S.asked source.new
        ≤ S.asked source.old + (k + 1) * (6 + asks_for (length term.now)) }
{
    let all = Between {
        low: 0,
        high: groups_of(place.terms),
        matched: 0,
        next: 0,
        node: 0,
    };
    narrow_from(source, place, term, all, &mut [])
}

// Where a term stands among the first terms of the groups, of which so much is known. The keys of
// those that are read go to the table.
fn narrow_from<S: ByteSource>(
    source: &mut S,
    place: DictPlace,
    term: &[u8],
    between: Between,
    pivots: &mut [u64],
) -> Result<Standing, SourceFault>
    requires lies { LiesIn place (length (S.content source.old)) }
    requires amid { IsAmid (group_count place.terms) (length term.now) between }
    ensures value { S.honest → Gives result
        (narrow_at (between.high - between.low) (bytes_at (S.content source.old) place)
        (4 * group_count place.terms) term.now between.low between.high between.matched
        between.next) }
    ensures among { IfOk result (IsAmong (group_count place.terms) (length term.now)) }
    ensures left { ReadsSource S.ByteSource CountsFaults result source.old source.new }
    ensures asks { (k : ℕ) → between.high - between.low ≤ 2 ^ k → S.asked source.new
        ≤ S.asked source.old + (k + 1) * (6 + asks_for (length term.now)) }
{
    let mut low = between.low;
    let mut high = between.high;
    let mut matched = between.matched;
    let mut next = between.next;
    let mut node = between.node;
    while low < high {
        let middle = low + (high - low) / 2;
        let mut seen = 0;
        let step = group_step(source, place, middle, term, &mut seen)?;
        keep(pivots, node, seen);
        match step {
            Step::Found(entry) => return Ok(Standing::First(middle, entry)),
            Step::Past => {
                high = middle;
                node = node.saturating_mul(2);
            }
            Step::Less(now, after) => {
                low = middle + 1;
                matched = now;
                next = after;
                node = node.saturating_mul(2).saturating_add(1);
            }
        }
    }
    Ok(Standing::After(low, matched, next))
}

// The search once the first term of a group was read; one that is outside of it is not read.
fn probe<S: ByteSource>(
    source: &mut S,
    place: DictPlace,
    term: &[u8],
    group: u32,
    search: Search,
) -> Result<Search, SourceFault>
    requires lies { LiesIn place (length (S.content source.old)) }
    requires goes { Goes (group_count place.terms) (length term.now) search }
    ensures goes { IfOk result (Goes (group_count place.terms) (length term.now)) }
    ensures known { S.honest → (es : List Item)
        → DictSpells (bytes_at (S.content source.old) place) es → length es ≡ place.terms
        → IsKnown (bytes_at (S.content source.old) place) es term.now search
        → MatchResult result (IsKnown (bytes_at (S.content source.old) place) es term.now)
        (λ e. e ≡ SourceFault.Disk) }
    ensures told { S.honest
        → IsToldIn (bytes_at (S.content source.old) place) place.terms term.now search
        → IfOk result (IsToldIn (bytes_at (S.content source.old) place) place.terms term.now) }
    ensures past { (b : Between) → search ≡ Search.Open b → b.high ≤ group
        → result ≡ Ok (Search.Open b) }
    ensures left { IsRead S.ByteSource (6 + asks_for (length term.now)) result
        source.old source.new }
{
    let between = match search {
        Search::Open(between) => between,
        Search::Done(_) => return Ok(search),
    };
    if group < between.low || between.high <= group {
        return Ok(Search::Open(between));
    }
    match group_step(source, place, group, term, &mut 0)? {
        Step::Found(entry) => Ok(Search::Done(Standing::First(group, entry))),
        Step::Past => Ok(Search::Open(Between {
            high: group,
            ..between
        })),
        Step::Less(matched, next) => Ok(Search::Open(Between {
            low: group + 1,
            matched,
            next,
            ..between
        })),
    }
}

// Where a term stands among the first terms of the groups, by the table where the dictionary is one
// of which keys are kept: the groups at both ends of the range in which the table has it are read
// first, the lesser one last, since a scan goes on behind its first term, where a window still has
// what follows. Before the first group there is none: the number that stands for it is past all
// groups.
pub(crate) fn stand_near<S: ByteSource>(
    source: &mut S,
    place: DictPlace,
    pivots: &mut [u64],
    term: &[u8],
) -> Result<Standing, SourceFault>
    requires { LiesIn place (length (S.content source.old)) }
    ensures stands { S.honest → (es : List Item)
        → DictSpells (bytes_at (S.content source.old) place) es → length es ≡ place.terms
        → MatchResult result (IsStanding (bytes_at (S.content source.old) place) es term.now)
        (λ e. e ≡ SourceFault.Disk) }
    ensures told { S.honest → IfOk result
        (IsToldAt (bytes_at (S.content source.old) place) place.terms term.now) }
    ensures unknown { S.honest → pivot_at pivots.old 1 ≡ 0 → Gives result
        (standing_at (bytes_at (S.content source.old) place) place.terms term.now) }
    ensures among { IfOk result (IsAmong (group_count place.terms) (length term.now)) }
    ensures left { ReadsSource S.ByteSource CountsFaults result source.old source.new }
    ensures asks { (k : ℕ) → group_count place.terms ≤ 2 ^ k → S.asked source.new
        ≤ S.asked source.old + (k + 3) * (6 + asks_for (length term.now)) }
    ensures most { S.asked source.new
        ≤ S.asked source.old + 29 * (6 + asks_for (length term.now)) }
{
    let groups = groups_of(place.terms);
    if groups > MOST_GROUPS {
        return narrow(source, place, term);
    }
    let bounds = around(pivots, groups, key(term));
    let search = Search::Open(Between {
        low: 0,
        high: groups,
        matched: 0,
        next: 0,
        node: bounds.node,
    });
    let search = probe(source, place, term, bounds.high, search)?;
    let search = probe(source, place, term, bounds.low.wrapping_sub(1), search)?;
    match search {
        Search::Done(standing) => Ok(standing),
        Search::Open(between) => narrow_from(source, place, term, between, pivots),
    }
}
