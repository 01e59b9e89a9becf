//! The lists of an index in memory, as far as their numbers are live.

ghost use Rattle.std.specs.Prelude.{◌≡◌, List, OnOk, map};
ghost use Rattle.std.proofs.Common.{◌∙◌, refl, subst, sym};
ghost use Rattle.std.specs.List.Sorted.{IsStrictlyIncreasing};
ghost use Rattle.pk_index.specs.Index.{Keeps};
ghost use Rattle.pk_live.specs.Live.{AreLive};
ghost use Rattle.pk_model.specs.Collection.{Doc, numbers_of};
ghost use Rattle.pk_model.specs.Views.{doc_of};
ghost use Rattle.pk_plan.specs.Plans.{found, word_at};
ghost use Rattle.pk_plan.specs.Words.{texts};
ghost use Rattle.pk_sets.specs.Sets.{intersection};

use crate::in_row::keep_in_row;
use crate::prefix::put_with_prefix;
use pk_index::{Index, both_into};
use pk_match::{Lists, asked_prefix, asked_row};
use pk_model::Document;
use pk_union::keep_both;
use std::alloc::{AllocError, Global};

/// An index, the documents of which it is asked with their numbers, and the words of a query.
#[derive(Drop)]
pub(crate) struct LiveLists<'a> {
    pub(crate) alloc: Global,
    pub(crate) index: &'a Index,
    pub(crate) live: &'a [u32],
    pub(crate) documents: &'a [Document],
    pub(crate) words: &'a [&'a str],
    ghost rising: { IsStrictlyIncreasing live.now },
}

impl<'a> Lists for LiveLists<'a> {
    type Fault = AllocError;

    ghost are_of = { λ lists read words docs. AreLive lists.index.now lists.live.now
        (map doc_of lists.documents.now) (texts lists.words.now) words docs };

    ghost is_no_damage = { λ _. Unit {0} };

    ghost leaves = { λ old new fault. new ≡ old };

    fn put(&mut self, place: usize, out: &mut Vec<u32>) -> Result<(), AllocError> {
        put_live(self.live, list_at(self.index, self.words, place), out)
    }

    fn cut(
        &mut self,
        place: usize,
        numbers: &mut Vec<u32>,
        spare: &mut Vec<u32>,
    ) -> Result<(), AllocError> {
        keep_both(numbers, list_at(self.index, self.words, place), spare)
    }

    fn put_prefix(&mut self, place: usize, out: &mut Vec<u32>) -> Result<(), AllocError> {
        let Some(prefix) = asked_prefix(self.words, place) else {
            out.clear();
            return Ok(());
        };
        put_with_prefix(self.alloc, self.index, self.live, prefix, out)
    }

    fn keep_row(
        &mut self,
        first: usize,
        count: usize,
        numbers: &mut Vec<u32>,
    ) -> Result<(), AllocError> {
        let Some(row) = asked_row(self.words, first, count) else {
            numbers.clear();
            return Ok(());
        };
        keep_in_row(self.alloc, self.live, self.documents, row, numbers)
    }

    fn all(&mut self, out: &mut Vec<u32>) -> Result<(), AllocError> {
        out.clear();
        out.extend_from_slice(self.live)
    }

    ghost are_rising = { λ lists read words docs are. are.rising };

    ghost are_still = { λ a b fault read words docs left are.
        subst (λ lists. AreLive lists.index.now lists.live.now (map doc_of lists.documents.now)
        (texts lists.words.now) words docs) (sym left) are };

    ghost leaves_same = { λ _. refl };

    ghost leaves_then = { λ a b c fault first second. second ∙ first };

    ghost leaves_refused = { λ a b e fault left gives. left };

    ghost refused_is = { λ e fault gives. tt };
}

/// The list of the word at a place; without a number past the last word.
pub(crate) fn list_at<'a>(index: &'a Index, words: &[&str], place: usize) -> &'a [u32]
    ensures live { (docs : List Doc) → Keeps index.now docs
        → intersection (numbers_of docs) result.now ≡ found (word_at (texts words.now) place) docs }
    ensures rising { IsStrictlyIncreasing result.now }
{
    if place >= words.len() {
        return &[];
    }
    index.list(words[place])
}

/// Puts the live numbers of a list into `out`.
pub(crate) fn put_live(live: &[u32], list: &[u32], out: &mut Vec<u32>) -> Result<(), AllocError>
    requires live { IsStrictlyIncreasing live.now }
    requires list { IsStrictlyIncreasing list.now }
    ensures { OnOk result (out.new.items ≡ intersection live.now list.now) }
{
    out.resize(live.len().min(list.len()), 0)?;
    let count = both_into(live, list, out);
    out.truncate(count);
    Ok(())
}
