//! A row that is sought, and which words of a text the search for it may skip.

ghost use Rattle.std.specs.Prelude.{◌<◌, ◌≤◌, IsAscii, length};
ghost use Rattle.pk_words.specs.Rows.{IsTable, texts};
ghost use Rattle.pk_words.specs.Skips.{MaySkip};

use pk_pieces::{past_others, past_without};

/// Words that are sought in a row, with their table (`row_table`), and the place of the one that is
/// looked for where none is begun: best the rarest. Where no word has that place, it is the first.
/// What is found does not depend on it.
#[derive(Clone, Copy)]
pub struct SoughtRow<'a> {
    pub words: &'a [&'a str],
    pub table: &'a [usize],
    pub rarest: usize,
    ghost is_table: { IsTable (texts words.now) table.now },
}

/// Where the search of a part in ASCII goes on from a place, if so many words are begun, and where
/// the rarest word may stand next, by what was known of that.
#[inline(always)]
pub(crate) fn skip(
    sought: &SoughtRow,
    bytes: &[u8],
    begun: usize,
    from: usize,
    next: usize,
) -> (usize, usize)
    requires ascii { IsAscii bytes.now }
    requires within { begun < length sought.now.words.now }
    requires place { from ≤ length bytes.now }
    ensures low { from ≤ result.0 }
    ensures high { result.0 ≤ length bytes.now }
    ensures skips { MaySkip (texts sought.now.words.now) bytes.now begun from result.0 }
{
    if begun > 0 {
        return (from, next);
    }
    let (at, next) = skip_to_rarest(sought, bytes, from, next);
    (past_others(bytes, at, sought.words[0].as_bytes()), next)
}

/// The same for the rarest word alone, where it isn't the first. No word from the place on was
/// looked at before, so the search takes no more turns than there are bytes.
#[inline(always)]
fn skip_to_rarest(sought: &SoughtRow, bytes: &[u8], from: usize, next: usize) -> (usize, usize)
    requires ascii { IsAscii bytes.now }
    requires place { from ≤ length bytes.now }
    ensures low { from ≤ result.0 }
    ensures high { result.0 ≤ length bytes.now }
    ensures skips { MaySkip (texts sought.now.words.now) bytes.now 0 from result.0 }
{
    let rarest = sought.rarest;
    if from < next || rarest == 0 || rarest >= sought.words.len() {
        return (from, next);
    }
    past_without(bytes, from, sought.words[rarest].as_bytes(), rarest)
}
