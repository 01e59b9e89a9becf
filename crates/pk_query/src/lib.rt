//! The query language: from a text to a [`Query`](pk_model::Query), or to the first fault of the
//! text and its place.
//!
//! A text is cut into `(`, `)`, phrases and chunks. A phrase is a quotation mark, the bytes up to
//! the next one, and that one; a chunk is a longest run without space, `(`, `)` or quotation mark.
//! The chunks `AND`, `OR` and `NOT`, in exactly these capitals, are operators. Any other chunk
//! means the AND of its words, in their order. One that ends in `*` is read without that `*`, and
//! its last word is only begun: `hop*` asks for a word that begins with `hop`, and `AND*` is no
//! operator. A phrase asks for its words in a row; a phrase of one word means that word. Inside a
//! phrase `*`, brackets and operators mean nothing of their own. Tokens make a query by four rows:
//!
//! | row | forms |
//! |---|---|
//! | or | and; or `OR` and |
//! | and | not; and `AND` not; and not |
//! | not | operand; `NOT` not |
//! | operand | a chunk or a phrase with a word; `(` or `)` |
//!
//! So `NOT` binds tightest, two operands side by side mean AND, and AND and OR group to the left:
//! `a OR b c` is `a OR (b AND c)`, and `NOT a b` is `(NOT a) AND b`.
//!
//! A quotation mark that no later one closes is the text's last token. It goes on where the tokens
//! before it do, and the text cannot end there: it is unclosed at that place.
//!
//! [`fault_of`] finds what is wrong with a text, in the order of [`QueryFault`], and takes no
//! memory. [`parse`] asks it first, so only a text that reads as a query is ever built, and want
//! of memory is the one refusal that is left then. Nothing stays behind after a refusal.
//!
//! In specs/ the grammar is a relation between tokens and trees (`Grammar`), and each refusal is
//! said of texts and beginnings of texts (`Refusals`). The code reads token by token, with a stack
//! of open brackets (`Machine`); the proofs tie the two together. The module [`laws`] has the laws
//! that make the definitions believable: a text reads as at most one query, and has at most one
//! refusal.
#![tactic(auto)]

mod build;
mod check;
mod depth;
mod fault;
pub mod laws;
mod lexer;
mod limits;
mod reading;

pub use fault::QueryFault;
pub use limits::{MAX_BYTES, MAX_DEPTH};
pub use reading::{fault_of, parse};
