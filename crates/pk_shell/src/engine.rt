//! What a session is served by: whatever answers what lines ask.

ghost use Rattle.std.specs.Prelude.{◌≡◌, ◌++◌, ℕ, List, codes};
ghost use Rattle.pk_shell.specs.Asked.{Asked, is_quit, refuses};
ghost use Rattle.pk_shell.specs.AskView.{line_asks};
ghost use Rattle.pk_shell.specs.Response.{is_bye, response_text};

use crate::ask::Ask;
use crate::reply::Response;
use std::alloc::Global;

/// What answers the lines of a session that are text and not too long.
pub trait Engine {
    /// Which reply is right to what a line asks, without its line feed, and what the engine is then.
    ghost replies: { Self → Asked → List ℕ → Self → Type 0 };

    /// Answers what a line asks.
    fn answer(&mut self, alloc: Global, ask: Ask<'_>) -> Response
        ensures reply { replies self.old (line_asks ask.entry) (response_text result) self.new }
        ensures bye { is_bye result ≡ is_quit (line_asks ask.entry) };

    /// A line that is refused before it is asked is refused for that reason, and it stays.
    ghost refuses_unasked: { (engine : Self) (why : List ℕ)
        → replies engine (refuses why) (codes "refused " ++ why) engine };
}
