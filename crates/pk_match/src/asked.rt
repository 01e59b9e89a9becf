//! What stands at the places of a query that is asked.
ghost use Rattle.std.specs.Prelude.{◌≡◌, MatchOption};
ghost use Rattle.pk_plan.specs.Plans.{WithPrefix, InRow, Nothing, prefix_at, row_at};
ghost use Rattle.pk_plan.specs.Words.{texts};

/// What a word is to begin with, at a place; none past the last word.
pub fn asked_prefix<'a>(words: &[&'a str], place: usize) -> Option<&'a str>
    ensures { MatchOption result (prefix_at (texts words.now) place ≡ Nothing)
        (λ prefix. prefix_at (texts words.now) place ≡ WithPrefix prefix.now) }
{
    if place >= words.len() {
        return None;
    }
    Some(words[place])
}

/// So many words from a place on; none where they pass the last word.
pub fn asked_row<'a, 'b>(words: &'b [&'a str], first: usize, count: usize) -> Option<&'b [&'a str]>
    ensures { MatchOption result (row_at (texts words.now) first count ≡ Nothing)
        (λ row. row_at (texts words.now) first count ≡ InRow (texts row.now)) }
{
    if first > words.len() || words.len() - first < count {
        return None;
    }
    Some(&words[first..first + count])
}
