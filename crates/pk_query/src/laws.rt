//! The laws of the query language. Each function does nothing: its contract is the law, over the
//! definitions alone.

ghost use Rattle.std.specs.Prelude.{◌≡◌, ◌↔◌, ◌||◌, ℕ, List, true};
ghost use Rattle.std.specs.Str.{IsUtf8};
ghost use Rattle.pk_model.specs.Tree.{Tree};
ghost use Rattle.pk_query.specs.Depth.{IsTooDeep, nests_too_deep, has_long_nots};
ghost use Rattle.pk_query.specs.Grammar.{Reads};
ghost use Rattle.pk_query.specs.Refusals.{Refuses, StopsAt};
ghost use Rattle.pk_query.specs.Tokens.{Placed, spelled, tokens};
ghost use Rattle.pk_query.specs.declared.fault.QueryFault.{QueryFault};

/// A text reads as at most one query.
pub fn one_reading()
    ensures { (text : List ℕ) (p q : Tree) → Reads text p → Reads text q → p ≡ q }
{}

/// There is one first token that cannot go on.
pub fn one_first_stop()
    ensures { (text : List ℕ) (p q : Placed) → StopsAt text p → StopsAt text q → p ≡ q }
{}

/// A text has at most one refusal; where it reads as a query, none but want of memory.
pub fn one_refusal()
    ensures { (text : List ℕ) (e f : QueryFault) →
        IsUtf8 text → Refuses text e → Refuses text f → e ≡ f }
{}

/// A text is too deep, in the words "up to some token" and "in a row", just where one of the two
/// tests, which count from token to token, says so.
pub fn depth_is_tested()
    ensures { (text : List ℕ) →
        IsTooDeep text ↔
        ((nests_too_deep 0 0 (tokens text) || has_long_nots 0 (tokens text)) ≡ true) }
{}

/// The tokens of a text, written out with a space between each two, are read as the same tokens.
pub fn tokens_are_read_back()
    ensures { (text : List ℕ) → IsUtf8 text → tokens (spelled (tokens text)) ≡ tokens text }
{}
