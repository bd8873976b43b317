//! What `clap` makes of the words.
ghost use Rattle.std.specs.Prelude.{◌≡◌, ◌-◌, ◌^◌, List, ℕ, [], Some, true, map, is_some, IfOk, IfSome, MatchOption};
ghost use Rattle.std.specs.Str.Parse.{digits_value, without_leading_plus};
ghost use Rattle.clap.specs.Words.{IsParsedFrom, IsUnsignedIn, app_of, fault_of, first_value, found_of, is_simple_and_free, matches_of, one_text, rows_of};

use clap::error::ErrorKind;
use clap::{ArgMatches, Command};
use duty_core::NoMemory;
use outside::Word;
use std::alloc::Global;

/// The matches of the words, `None` where `clap` finds a fault with them.
pub(crate) fn parse<'a>(
    call: Command<'a>,
    words: &'a [&'a str],
) -> Result<Option<ArgMatches<'a>>, NoMemory>
    requires { is_simple_and_free (app_of call) ≡ true }
    ensures faults { IfOk result (λ read. MatchOption read
        (fault_of (app_of call.entry) (map (λ w. w.now) words.entry.now) ≡ [] → ⊥)
        (λ m. fault_of (app_of call.entry) (map (λ w. w.now) words.entry.now) ≡ [])) }
    ensures matches { IfOk result (λ read. IfSome read (λ m.
        rows_of (found_of m) ≡ matches_of (app_of call.entry) (map (λ w. w.now) words.entry.now))) }
    ensures parsed { IfOk result (λ read. IfSome read (IsParsedFrom call.entry)) }
{
    match call.try_get_matches_from(words) {
        Ok(matches) => Ok(Some(matches)),
        Err(error) => if error.kind() == ErrorKind::OutOfMemory {
            Err(NoMemory)
        } else {
            Ok(None)
        },
    }
}

/// The word of an argument that has one.
pub(crate) fn word_of(alloc: Global, matches: &ArgMatches, id: &str) -> Result<Word, NoMemory>
    requires { is_some (first_value (found_of matches.now) id.now) ≡ true }
    ensures { IfOk result (λ word. first_value (found_of matches.now) id.now ≡ Some word) }
{
    match matches.get_str(id) {
        Some(text) => Word::new(alloc, text),
        None => unreachable!(),
    }
}

/// The number of an argument that has one.
pub(crate) fn number_of(matches: &ArgMatches, id: &str) -> u32
    requires { (text : List ℕ) × (one_text (found_of matches.now) id.now ≡ Some text) × IsUnsignedIn 0 (2 ^ 32 - 1) text }
    ensures { (text : List ℕ) → one_text (found_of matches.now) id.now ≡ Some text → result ≡ digits_value 10 (without_leading_plus text) }
{
    match matches.get_one::<u64>(id) {
        Some(number) => number as u32,
        None => unreachable!(),
    }
}
