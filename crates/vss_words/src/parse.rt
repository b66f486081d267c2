//! What `clap` finds in words.

ghost use Rattle.std.specs.Prelude.{◌≡◌, true, map, option_map, string_bytes};
ghost use Rattle.clap.specs.Words.{app_of, found_of, first_of, is_simple_and_free, rows_of};
ghost use Rattle.vss_words.specs.Commands.{rows_given, ReadsAs};

use crate::fault::WordsFault;
use clap::error::ErrorKind;
use clap::{ArgMatches, Command};

/// What the words give to the arguments of the form. Any fault but want of memory means that it doesn't take them.
pub fn matches_in<'a>(form: Command<'a>, words: &'a [String]) -> Result<ArgMatches<'a>, WordsFault>
    requires { is_simple_and_free (app_of form) ≡ true }
    ensures { ReadsAs (rows_given (app_of form.entry) (map string_bytes words.now)) (λ matches. rows_of (found_of matches)) result }
{
    match form.try_get_matches_from(words) {
        Ok(matches) => Ok(matches),
        Err(error) => match error.kind() {
            ErrorKind::OutOfMemory => Err(WordsFault::Memory),
            _ => Err(WordsFault::NotTaken),
        },
    }
}

/// The first text that was given to an argument.
pub fn text_at<'a>(matches: &ArgMatches<'a>, id: &str) -> Option<&'a str>
    ensures { option_map (λ s. s.now) result ≡ first_of id.now (rows_of (found_of matches.now)) }
{
    matches.get_str(id)
}
