//! Where a cursor begins that goes to a word.

ghost use Rattle.std.specs.Prelude.{◌≡◌, ◌≤◌, ◌<◌, ◌+◌, ◌*◌, ◌^◌, ℕ, List, length};
ghost use Rattle.std.specs.Prelude.{IfOk, MatchResult};
ghost use Rattle.pk_dict.specs.Cursor.{BeginsAt};
ghost use Rattle.pk_dict.specs.Dictionary.{DictSpells, Item, group_count};
ghost use Rattle.pk_dict.specs.Place.{LiesIn, bytes_at};
ghost use Rattle.pk_dict.specs.Seeking.{IsToldStart};
ghost use Rattle.pk_posting.specs.Limits.{asks_for};
ghost use Rattle.pk_posting.specs.Frames.{ReadsSource};
ghost use Rattle.pk_posting.specs.Source.{CountsFaults};

use crate::entries::{first_group, group_start};
use crate::entry::DictPlace;
use crate::head::GroupStart;
use crate::look_up::stand_near;
use pk_posting::{ByteSource, SourceFault};

// Where the group begins in which the first word may stand that is not less than another.
pub(crate) fn first_start<S: ByteSource>(
    source: &mut S,
    place: DictPlace,
    pivots: &mut [u64],
    word: &[u8],
) -> Result<GroupStart, SourceFault>
    requires lies { LiesIn place (length (S.content source.old)) }
    requires some { 0 < place.terms }
    ensures at { S.honest → (es : List Item)
        → DictSpells (bytes_at (S.content source.old) place) es → length es ≡ place.terms
        → MatchResult result
        (λ s. BeginsAt (bytes_at (S.content source.old) place) es word.now s.group s.at)
        (λ e. e ≡ SourceFault.Disk) }
    ensures told { S.honest → IfOk result (λ s. IsToldStart
        (bytes_at (S.content source.old) place) place.terms word.now s.group s.at) }
    ensures some { IfOk result (λ s. 16 * s.group < place.terms) }
    ensures asks { (k : ℕ) → group_count place.terms ≤ 2 ^ k → S.asked source.new
        ≤ S.asked source.old + (k + 3) * (6 + asks_for (length word.now)) + 1 }
    ensures left { ReadsSource S.ByteSource CountsFaults result source.old source.new }
{
    let standing = stand_near(source, place, pivots, word)?;
    let group = first_group(standing);
    let at = group_start(source, place, group)?;
    Ok(GroupStart { group, at })
}
