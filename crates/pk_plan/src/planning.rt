//! From a query to its plan.

ghost use Rattle.std.specs.Prelude.{◌≡◌, ◌≤◌, length, IfOk, OnOk, false, true};
ghost use Rattle.pk_model.specs.Tree.{tree_of};
ghost use Rattle.pk_plan.specs.Operands.{IsGathered, IsInOrder, IsJoined, IsPassed, IsPlanOf};
ghost use Rattle.pk_plan.specs.Order.{is_ordered};
ghost use Rattle.pk_plan.specs.Plans.{IsPlanFor, operation_of};
ghost use Rattle.pk_plan.specs.Rows.{GathersRest, JoinsRest, RestsFrom, RestsOnWords};
ghost use Rattle.pk_plan.specs.Texts.{has_phrase, reads_texts};
ghost use Rattle.pk_plan.specs.Words.{leaves, texts};

use crate::operands::{Operands, united};
use crate::plans::{Plan, Planned};
use crate::words::words_of;
use pk_model::Query;
use smallvec::SmallVec;
use std::alloc::{AllocError, Global};

/// The plan of a query, and its words. The table has for the place of each word the number of
/// documents that hold it; what is past its end counts as 0. Words of the same frequency stand in
/// the query's order. The only error is that there is no memory.
pub fn plan<'a>(
    alloc: Global,
    query: &'a Query,
    frequencies: &[u32],
) -> Result<Planned<'a>, AllocError>
    ensures words { IfOk result (λ planned.
        texts planned.words.items ≡ leaves (tree_of query.now)) }
    ensures means { IfOk result (λ planned. IsPlanFor planned (tree_of query.now)) }
    ensures ordered { IfOk result (λ planned. is_ordered frequencies.now planned.plan ≡ true) }
    // Texts are read for phrases alone.
    ensures texts { IfOk result (λ planned. has_phrase (tree_of query.now) ≡ false
        → reads_texts planned.plan ≡ false) }
    // A text is read only of a document that holds each word of the phrase.
    ensures rows { IfOk result (λ planned.
        RestsOnWords (operation_of (texts planned.words.items) planned.plan)) }
{
    let words = words_of(alloc, query)?;
    plan_with(alloc, query, words, frequencies)
}

/// The same, where the words are at hand: just those that [`words_of`](crate::words_of) has of the
/// query.
pub fn plan_with<'a>(
    alloc: Global,
    query: &Query,
    words: SmallVec<&'a str, 4>,
    frequencies: &[u32],
) -> Result<Planned<'a>, AllocError>
    requires { texts words.items ≡ leaves (tree_of query.now) }
    ensures words { IfOk result (λ planned. planned.words.items ≡ words.entry.items) }
    ensures means { IfOk result (λ planned. IsPlanFor planned (tree_of query.now)) }
    ensures ordered { IfOk result (λ planned. is_ordered frequencies.now planned.plan ≡ true) }
    ensures texts { IfOk result (λ planned. has_phrase (tree_of query.now) ≡ false
        → reads_texts planned.plan ≡ false) }
    ensures rows { IfOk result (λ planned.
        RestsOnWords (operation_of (texts planned.words.items) planned.plan)) }
{
    let mut place = words.len();
    let plan = plan_of(alloc, query, frequencies, &mut place)?;
    Ok(Planned { words, plan })
}

// The same, said of the words of one document. A query is gone through from its end, so `place` is
// how many words stand before what is left; here it passes all of the query's. A word alone is its
// own plan.
#[cycle(planning)]
fn plan_of(
    alloc: Global,
    query: &Query,
    table: &[u32],
    place: &mut usize,
) -> Result<Plan, AllocError>
    requires { length (leaves (tree_of query.now)) ≤ place.old }
    ensures plan { IfOk result (IsPlanOf table.now (tree_of query.now) place.new) }
    ensures rows { IfOk result (RestsFrom (tree_of query.now) place.new) }
    ensures passed { OnOk result (IsPassed (tree_of query.now) place.old place.new) }
{
    if let Query::Term(_) = query {
        *place -= 1;
        return Ok(Plan::Term(*place));
    }
    let mut plans = Vec::new(alloc);
    join(alloc, query, table, place, &mut plans)?;
    Ok(united(plans))
}

// Puts the plans of the alternatives of a chain of `OR` before those that are there.
#[cycle(planning)]
fn join(
    alloc: Global,
    query: &Query,
    table: &[u32],
    place: &mut usize,
    plans: &mut Vec<Plan>,
) -> Result<(), AllocError>
    requires { length (leaves (tree_of query.now)) ≤ place.old }
    ensures plans { OnOk result
        (IsJoined table.now (tree_of query.now) place.new plans.old.items plans.new.items) }
    ensures rows { OnOk result
        (JoinsRest (tree_of query.now) place.new plans.old.items plans.new.items) }
    ensures passed { OnOk result (IsPassed (tree_of query.now) place.old place.new) }
{
    let mut rest = query;
    while let Query::Or(left, right) = rest {
        join(alloc, right, table, place, plans)?;
        rest = left;
    }
    let plan = conjunction(alloc, rest, table, place)?;
    plans.insert(0, plan)?;
    Ok(())
}

// The plan of a chain of `AND`.
#[cycle(planning)]
fn conjunction(
    alloc: Global,
    query: &Query,
    table: &[u32],
    place: &mut usize,
) -> Result<Plan, AllocError>
    requires { length (leaves (tree_of query.now)) ≤ place.old }
    ensures plan { IfOk result (IsPlanOf table.now (tree_of query.now) place.new) }
    ensures rows { IfOk result (RestsFrom (tree_of query.now) place.new) }
    ensures passed { OnOk result (IsPassed (tree_of query.now) place.old place.new) }
{
    let mut operands = Operands::new(alloc);
    gather(alloc, query, table, place, &mut operands)?;
    let plan = operands.plan(alloc)?;
    Ok(plan)
}

// Puts the operands of a chain of `AND` to those that are there.
#[cycle(planning)]
fn gather(
    alloc: Global,
    query: &Query,
    table: &[u32],
    place: &mut usize,
    operands: &mut Operands,
) -> Result<(), AllocError>
    requires room { length (leaves (tree_of query.now)) ≤ place.old }
    requires order { IsInOrder table.now place.old operands.old }
    ensures operands { OnOk result
        (IsGathered table.now (tree_of query.now) place.old place.new operands.old operands.new) }
    ensures rows { OnOk result
        (GathersRest (tree_of query.now) place.new operands.old operands.new) }
    ensures passed { OnOk result (IsPassed (tree_of query.now) place.old place.new) }
{
    let mut rest = query;
    while let Query::And(left, right) = rest {
        gather(alloc, right, table, place, operands)?;
        rest = left;
    }
    put(alloc, rest, table, place, operands)?;
    Ok(())
}

// Puts one operand to those that are there.
#[cycle(planning)]
fn put(
    alloc: Global,
    query: &Query,
    table: &[u32],
    place: &mut usize,
    operands: &mut Operands,
) -> Result<(), AllocError>
    requires room { length (leaves (tree_of query.now)) ≤ place.old }
    requires order { IsInOrder table.now place.old operands.old }
    ensures operands { OnOk result
        (IsGathered table.now (tree_of query.now) place.old place.new operands.old operands.new) }
    ensures rows { OnOk result
        (GathersRest (tree_of query.now) place.new operands.old operands.new) }
    ensures passed { OnOk result (IsPassed (tree_of query.now) place.old place.new) }
{
    match query {
        Query::Term(_) => {
            *place -= 1;
            operands.put_term(table, *place)?;
            Ok(())
        }
        Query::Phrase(row) => {
            *place -= row.len();
            operands.put_phrase(table, *place, row)?;
            Ok(())
        }
        Query::Prefix(_) => {
            *place -= 1;
            operands.put_part(Plan::Prefix(*place))?;
            Ok(())
        }
        Query::Not(part) => {
            let plan = plan_of(alloc, part, table, place)?;
            operands.rule_out(plan)?;
            Ok(())
        }
        Query::And(left, right) => {
            gather(alloc, right, table, place, operands)?;
            gather(alloc, left, table, place, operands)?;
            Ok(())
        }
        Query::Or(left, right) => {
            let mut plans = Vec::new(alloc);
            join(alloc, right, table, place, &mut plans)?;
            join(alloc, left, table, place, &mut plans)?;
            operands.put_part(united(plans))?;
            Ok(())
        }
    }
}
