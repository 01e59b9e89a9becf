//! What the words of a command line ask.

ghost use Rattle.std.specs.Prelude.{◌≡◌, ℕ, IfErr, IfOk, IfSome, None, Some, codes, map};
ghost use Rattle.std.specs.Prelude.{string_bytes};
ghost use Rattle.clap.specs.Words.{Text, found_of, one_text, subcommand_rows_of};
ghost use Rattle.pk_arguments.specs.CommandLine.{Asks, IsCount, WordsAsk};
ghost use Rattle.pk_arguments.specs.Sizes.{HasSize, IsOfSize};
ghost use Rattle.pk_arguments.specs.Unasked.{IsUnasked};
ghost use Rattle.pk_arguments.specs.declared.asked.Asked.{Asked};

use crate::command_line::program;
use crate::unasked::{Unasked, unasked_by};
use clap::ArgMatches;
use pk_disk::{LEAST_UNITS, MAX_UNITS};
use std::alloc::Global;

/// What a command line asks.
#[derive(Clone, Copy)]
pub enum Asked<'a> {
    /// A file of so many units with an empty store.
    Create { path: &'a str, units: u64 },
    /// So many units for the store in a file.
    Grow { path: &'a str, units: u64 },
    /// A session with the store in a file.
    Run { path: &'a str },
    /// A session that only reads the store in a file.
    Read { path: &'a str },
    /// A check of the store in a file.
    Check { path: &'a str },
}

/// How many units a store is to have. The range is the command line's own.
fn units_of(matches: &ArgMatches<'_>) -> Option<u64>
    ensures size { IfSome result IsOfSize }
    ensures read { IfSome result (λ units. (text : Text)
        × (one_text (found_of matches.now) (codes "units") ≡ Some text) × IsCount text units) }
    ensures none { result ≡ None → (text : Text) → (units : ℕ)
        → one_text (found_of matches.now) (codes "units") ≡ Some text
        → IsCount text units → IsOfSize units → ⊥ }
{
    let units = matches.get_one::<u64>("units")?;
    if units < u64::from(LEAST_UNITS) || MAX_UNITS < units {
        return None;
    }
    Some(units)
}

/// What a command line asks that was not refused.
fn asked_by<'a>(matches: &ArgMatches<'a>) -> Option<Asked<'a>>
    ensures size { IfSome result HasSize }
    ensures asked { IfSome result (Asks (subcommand_rows_of matches.now)) }
    ensures none { result ≡ None → (asked : Asked) → HasSize asked
        → Asks (subcommand_rows_of matches.now) asked → ⊥ }
{
    match matches.subcommand() {
        Some(("create", given)) => Some(Asked::Create {
            path: given.get_str("PATH")?,
            units: units_of(given)?,
        }),
        Some(("grow", given)) => Some(Asked::Grow {
            path: given.get_str("PATH")?,
            units: units_of(given)?,
        }),
        Some(("run", given)) => Some(Asked::Run {
            path: given.get_str("PATH")?,
        }),
        Some(("read", given)) => Some(Asked::Read {
            path: given.get_str("PATH")?,
        }),
        Some(("check", given)) => Some(Asked::Check {
            path: given.get_str("PATH")?,
        }),
        _ => None,
    }
}

/// Reads what the words of a command line ask, the first of which is the program's name. Where they
/// ask for no command it answers why.
pub fn asked_by_words<'a>(alloc: Global, words: &'a [String]) -> Result<Asked<'a>, Unasked>
    ensures size { IfOk result HasSize }
    ensures asked { IfOk result (WordsAsk (map string_bytes words.now)) }
    ensures none { IfErr result (IsUnasked (map string_bytes words.now)) }
{
    let Ok(program) = program(alloc) else {
        return Err(Unasked::Memory);
    };
    // Words that were parsed ask for a command; were it otherwise, nothing would be known of them.
    match program.try_get_matches_from(words) {
        Ok(matches) => asked_by(&matches).ok_or(Unasked::Memory),
        Err(error) => match error.to_string(alloc) {
            Ok(text) => Err(unasked_by(&error, text)),
            Err(_) => Err(Unasked::Memory),
        },
    }
}
