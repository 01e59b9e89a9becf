//! Queries as they are read, and their plans.

use crate::told::{Fault, MEMORY, Told};
use crate::words::{Words, text_of};
use pk_model::Query;
use pk_plan::{Plan, Planned, plan, words_of};
use pk_query::{QueryFault, fault_of, parse};
use std::alloc::Global;

/// Writes the words of a phrase with blanks between them, in quotation marks.
fn write_row(out: &mut Told, row: &[String]) {
    let mut mark = "\"";
    for word in row {
        out.put(mark);
        out.put(word.as_str());
        mark = " ";
    }
    out.put("\"");
}

/// Writes a query with a bracket around each operator and what it is applied to.
fn write_query(out: &mut Told, query: &Query) {
    let (left, operator, right) = match query {
        Query::Term(word) => return out.put(word.as_str()),
        Query::Phrase(row) => return write_row(out, row),
        Query::Prefix(beginning) => {
            out.put(beginning.as_str());
            return out.put("*");
        }
        Query::Not(part) => {
            out.put("(NOT ");
            write_query(out, part);
            return out.put(")");
        }
        Query::And(left, right) => (left, " AND ", right),
        Query::Or(left, right) => (left, " OR ", right),
    };
    out.put("(");
    write_query(out, left);
    out.put(operator);
    write_query(out, right);
    out.put(")");
}

/// A query, and how many terms it has.
fn tell_query(alloc: Global, query: &Query, told: &mut Told) -> Result<(), Fault> {
    let mut out = Told::new(alloc);
    write_query(&mut out, query);
    told.bytes(out.into_text()?.as_bytes());
    told.number(words_of(alloc, query)?.len() as u64);
    Ok(())
}

/// What is wrong with a query, and where.
fn tell_fault(fault: QueryFault, told: &mut Told) -> Result<(), Fault> {
    let (word, place) = match fault {
        QueryFault::TooLong => ("too-long", None),
        QueryFault::TooDeep => ("too-deep", None),
        QueryFault::NoWord(at) => ("no-word", Some(at)),
        QueryFault::Unexpected(at) => ("unexpected", Some(at)),
        QueryFault::Unclosed(at) => ("unclosed", Some(at)),
        QueryFault::Memory => return Err(MEMORY),
    };
    told.word(word);
    if let Some(at) = place {
        told.number(at as u64);
    }
    Ok(())
}

/// What is wrong with a text as a query, and what it reads as.
pub(crate) fn tell_parsed(words: &mut Words<'_>, told: &mut Told) -> Result<(), Fault> {
    let text = words.text()?;
    match fault_of(&text) {
        Some(fault) => tell_fault(fault, told)?,
        None => told.word("-"),
    }
    match parse(words.alloc(), &text) {
        Ok(query) => tell_query(words.alloc(), &query, told),
        Err(fault) => tell_fault(fault, told),
    }
}

/// The query that a word writes.
fn query_of(alloc: Global, word: &str) -> Result<Query, Fault> {
    match parse(alloc, &text_of(alloc, word)?) {
        Ok(query) => Ok(query),
        Err(QueryFault::Memory) => Err(MEMORY),
        Err(_) => Err(Fault("no query")),
    }
}

/// Writes the word at a place.
fn write_word(out: &mut Told, words: &[&str], place: usize) {
    out.put(words.get(place).unwrap_or(&"?"));
}

/// Writes the words at some places with blanks between them.
fn write_words(out: &mut Told, words: &[&str], places: &[usize]) {
    let mut blank = "";
    for place in places {
        out.put(blank);
        write_word(out, words, *place);
        blank = " ";
    }
}

/// Writes so many words from a place on as a phrase.
fn write_phrase(out: &mut Told, words: &[&str], first: usize, count: usize) {
    let mut mark = ":\"";
    let end = first.saturating_add(count);
    for word in words.get(first..end).unwrap_or(&[]) {
        out.put(mark);
        out.put(word);
        mark = " ";
    }
    out.put("\"");
}

/// Writes plans with a blank before each, but before one that is the first of all.
#[cycle(write_plan)]
fn write_parts(out: &mut Told, words: &[&str], is_first: bool, parts: &[Plan]) {
    let mut is_first = is_first;
    for part in parts {
        if !is_first {
            out.put(" ");
        }
        is_first = false;
        write_plan(out, words, part);
    }
}

/// Writes a plan: an intersection in brackets, a union in braces, a difference in round brackets,
/// all as `*`, and a phrase behind what is asked for it and a colon.
#[cycle(write_plan)]
fn write_plan(out: &mut Told, words: &[&str], plan: &Plan) {
    match plan {
        Plan::Term(place) => write_word(out, words, *place),
        Plan::Prefix(place) => {
            write_word(out, words, *place);
            out.put("*");
        }
        Plan::Phrase(all, first, count) => {
            write_plan(out, words, all);
            write_phrase(out, words, *first, *count);
        }
        Plan::All => out.put("*"),
        Plan::Intersect(places, parts) => {
            out.put("[");
            write_words(out, words, places);
            write_parts(out, words, places.is_empty(), parts);
            out.put("]");
        }
        Plan::Unite(parts) => {
            out.put("{");
            write_parts(out, words, true, parts);
            out.put("}");
        }
        Plan::Exclude(all, less) => {
            out.put("(");
            write_plan(out, words, all);
            out.put(" - ");
            write_plan(out, words, less);
            out.put(")");
        }
    }
}

/// A plan.
fn tell_planned(alloc: Global, planned: &Planned<'_>, told: &mut Told) -> Result<(), Fault> {
    let mut out = Told::new(alloc);
    write_plan(&mut out, planned.words.as_slice(), &planned.plan);
    told.bytes(out.into_text()?.as_bytes());
    Ok(())
}

/// The words of a query, and its plan where they have some frequencies.
fn tell_query_plan(
    alloc: Global,
    query: &Query,
    frequencies: &[u32],
    told: &mut Told,
) -> Result<(), Fault> {
    for word in words_of(alloc, query)?.as_slice() {
        told.bytes(word.as_bytes());
    }
    told.word("|");
    tell_planned(alloc, &plan(alloc, query, frequencies)?, told)
}

/// The same of a query and frequencies that are written.
pub(crate) fn tell_plan(words: &mut Words<'_>, told: &mut Told) -> Result<(), Fault> {
    let query = query_of(words.alloc(), words.next())?;
    tell_query_plan(words.alloc(), &query, &words.numbers()?, told)
}
