//! The words of a query.

ghost use Rattle.std.specs.Prelude.{◌≡◌, ◌++◌, IfOk, OnOk, map, reverse, string_bytes};
ghost use Rattle.pk_model.specs.Tree.{tree_of};
ghost use Rattle.pk_plan.specs.Words.{leaves, texts};

use pk_model::Query;
use smallvec::SmallVec;
use std::alloc::{AllocError, Global};

/// The words of a query in the order of its text: of a phrase each, of a prefix what a word is to
/// begin with.
pub fn words_of<'a>(alloc: Global, query: &'a Query) -> Result<SmallVec<&'a str, 4>, AllocError>
    ensures { IfOk result (λ words. texts words.items ≡ leaves (tree_of query.now)) }
{
    let mut words = SmallVec::new(alloc);
    put_words(query, &mut words)?;
    words.as_mut_slice().reverse();
    Ok(words)
}

// Puts the words of a query behind those that are there, the last one first: so a chain, which
// nests on its left, is gone through by the loop.
fn put_words<'a>(query: &'a Query, words: &mut SmallVec<&'a str, 4>) -> Result<(), AllocError>
    ensures { OnOk result (texts words.new.items
        ≡ texts words.old.items ++ reverse (leaves (tree_of query.now))) }
{
    let mut rest = query;
    loop {
        match rest {
            Query::Term(word) | Query::Prefix(word) => {
                words.push(word.as_str())?;
                return Ok(());
            }
            Query::Phrase(row) => return put_row(row, words),
            Query::And(left, right) | Query::Or(left, right) => {
                put_words(right, words)?;
                rest = left;
            }
            Query::Not(part) => rest = part,
        }
    }
}

// Puts the words of a phrase behind those that are there, the last one first.
fn put_row<'a>(row: &'a [String], words: &mut SmallVec<&'a str, 4>) -> Result<(), AllocError>
    ensures { OnOk result (texts words.new.items
        ≡ texts words.old.items ++ reverse (map string_bytes row.now)) }
{
    let mut left = row.len();
    'words: while left > 0 {
        left -= 1;
        words.push(row[left].as_str())?;
    }
    Ok(())
}
