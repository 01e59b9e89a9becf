//! What an index answers.

ghost use Rattle.std.specs.Prelude.{◌≡◌, [], ℕ, List, map, IfOk, IsOk};
ghost use Rattle.std.specs.List.Sorted.{IsStrictlyIncreasing};
ghost use Rattle.pk_index.specs.Index.{Keeps};
ghost use Rattle.pk_model.specs.Collection.{Doc, answer, numbers_of};
ghost use Rattle.pk_model.specs.Tree.{Term, tree_of};
ghost use Rattle.pk_model.specs.Views.{doc_of};
ghost use Rattle.pk_plan.specs.Plans.{means};
ghost use Rattle.pk_plan.specs.declared.plans.Plan.{Plan};
ghost use Rattle.pk_sets.specs.Sets.{intersection};

use crate::live::{LiveLists, list_at};
use pk_index::{Index, is_any_in};
use pk_match::carry_out;
use pk_model::{Document, Query};
use pk_plan::{Plan, Planned, plan};
use pk_sets::both;
use std::alloc::{AllocError, Global};

/// The numbers in both lists.
fn in_both(alloc: Global, a: &[u32], b: &[u32]) -> Result<Vec<u32>, AllocError>
    requires rising_a { IsStrictlyIncreasing a.now }
    requires rising_b { IsStrictlyIncreasing b.now }
    ensures { IfOk result (λ v. v.items ≡ intersection a.now b.now) }
{
    let mut out = vec![in alloc; 0u32; a.len().min(b.len())]?;
    let count = both(a, b, &mut out);
    out.truncate(count);
    Ok(out)
}

// The live numbers in a list. Where there is none, it takes no memory.
fn live_list(alloc: Global, list: &[u32], live: &[u32]) -> Result<Vec<u32>, AllocError>
    requires live { IsStrictlyIncreasing live.now }
    requires list { IsStrictlyIncreasing list.now }
    ensures found { IfOk result (λ v. v.items ≡ intersection live.now list.now) }
    ensures none { intersection live.now list.now ≡ [] → IsOk result }
{
    if !is_any_in(live, list) {
        return Ok(Vec::new(alloc));
    }
    in_both(alloc, live, list)
}

/// The numbers of the documents whose words satisfy the query, rising; `live` are those of all
/// documents (Manning, Raghavan, Schütze 2008, section 1.3).
pub fn find(
    alloc: Global,
    index: &Index,
    query: &Query,
    live: &[u32],
    documents: &[Document],
) -> Result<Vec<u32>, AllocError>
    requires live { IsStrictlyIncreasing live.now }
    ensures found { (docs : List Doc) → Keeps index.now docs → live.now ≡ numbers_of docs
        → map doc_of documents.now ≡ docs
        → IfOk result (λ v. v.items ≡ answer (tree_of query.now) docs) }
    // One word that no document holds takes no memory.
    ensures none { (docs : List Doc) → Keeps index.now docs → live.now ≡ numbers_of docs
        → (word : List ℕ) → tree_of query.now ≡ Term word → answer (Term word) docs ≡ []
        → IsOk result }
{
    if let Query::Term(word) = query {
        return live_list(alloc, index.list(word.as_str()), live);
    }
    let planned = plan(alloc, query, &[])?;
    find_planned(alloc, index, &planned, live, documents)
}

/// The numbers that the planned query finds, rising; `live` are those of all documents.
pub fn find_planned(
    alloc: Global,
    index: &Index,
    planned: &Planned,
    live: &[u32],
    documents: &[Document],
) -> Result<Vec<u32>, AllocError>
    requires live { IsStrictlyIncreasing live.now }
    ensures found { (docs : List Doc) → Keeps index.now docs → live.now ≡ numbers_of docs
        → map doc_of documents.now ≡ docs → IfOk result (λ v. v.items ≡ means planned.now docs) }
    // One word that no document holds takes no memory.
    ensures none { (docs : List Doc) → Keeps index.now docs → live.now ≡ numbers_of docs
        → (place : ℕ) → planned.now.plan ≡ Plan.Term place → means planned.now docs ≡ []
        → IsOk result }
{
    let words = planned.words.as_slice();
    if let Plan::Term(place) = planned.plan {
        return live_list(alloc, list_at(index, words, place), live);
    }
    let mut lists = LiveLists {
        alloc,
        index,
        live,
        documents,
        words,
    };
    let mut hits = Vec::new(alloc);
    let mut spare = Vec::new(alloc);
    carry_out(alloc, &mut lists, &planned.plan, &mut hits, &mut spare)?;
    Ok(hits)
}
