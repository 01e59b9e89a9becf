//! Plans: how the documents of a query are found by operations on sets of document numbers.
//!
//! A chain of `AND`, however it is bracketed, becomes one `Intersect`: first its words, by rising
//! frequency, so that the shortest list comes first and what is left stays short (Manning,
//! Raghavan, Schütze 2008, section 1.3), and those of one frequency as in the query; then its other
//! parts, which are unions. What a chain rules out by `NOT` is taken away from that at the end, so
//! that `a AND NOT b` never asks for all documents. A chain of `OR` becomes one `Unite`.
//!
//! The words of a phrase go among the words of its chain, each once, so that the rarest of all
//! comes first; that they stand in a row is asked last, of what is left, since texts are read for
//! it. A prefix is a union, that of the lists of all words that begin so.
//!
//! | query | plan |
//! |---|---|
//! | `a` | the term a |
//! | `NOT a` | all but a |
//! | `a AND b`, b the rarer | the intersection of b and a |
//! | `a AND (b OR c)` | the intersection of a and the union of b and c |
//! | `a AND NOT b AND NOT c` | a without the union of b and c |
//! | `"a b" AND NOT c` | the intersection of a and b without c, where a and b stand in a row |
//! | `a AND b*` | the intersection of a and the union of what begins with b |
//!
//! A plan has the places of words, not the words: `words_of` lists these in the order of the text,
//! those of a phrase one by one, and `plan` answers them beside the plan. So whoever looks a word
//! up does it once, and no word is copied. Frequencies are by place, too.
//!
//! A plan means its query over all documents whose numbers rise, whatever the frequencies are:
//! these set the order alone. The chains are gone through by loops, so a plan's recursion is as
//! deep as the brackets and the `NOT` of the query, not as its chains are long.
//!
//! In contracts, `means` (`specs/Plans.antt`) is the list of the numbers that a plan finds with its
//! words, by the set operations of pk_sets, `IsPlanFor` says that this is the answer to a query,
//! `leaves` (`specs/Words.antt`) is the list of a query's words, and `is_ordered`
//! (`specs/Order.antt`) says how the words of each `Intersect` stand, and what its parts are.
#![tactic(auto)]

mod operands;
mod planning;
mod plans;
mod words;

pub use planning::{plan, plan_with};
pub use plans::{Plan, Planned};
pub use words::words_of;
