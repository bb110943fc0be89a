//! The values that clap finds in the words.

ghost use Rattle.std.specs.Prelude.{◌≡◌, map, option_map};
ghost use Rattle.clap.specs.Words.{first_of, found_of, rows_of};
ghost use Rattle.program_words.specs.Modes.{rest_of, gives, gives_none, gives_size, number_or};

use crate::numbers::small_number_in;
use clap::ArgMatches;

/// The value of an argument, the first if it has several.
pub fn value<'a>(matches: &ArgMatches<'a>, id: &str) -> Option<&'a str>
    ensures { option_map (λ s. s.now) result ≡ first_of id.now (rows_of (found_of matches.now)) }
{
    matches.get_str(id)
}

/// The words after the one that names the mode.
pub fn rest<'m, 'a>(matches: &'m ArgMatches<'a>) -> &'m [&'a str]
    ensures { map (λ s. s.now) result.now ≡ rest_of (rows_of (found_of matches.now)) }
{
    matches.get_strs("REST").unwrap_or_default()
}

/// Whether an option is given.
pub fn gives(matches: &ArgMatches<'_>, id: &str) -> bool
    ensures { result ≡ gives id.now (rows_of (found_of matches.now)) }
{
    value(matches, id).is_some()
}

/// Whether a size of a store is given.
pub fn gives_size(matches: &ArgMatches<'_>) -> bool
    ensures { result ≡ gives_size (rows_of (found_of matches.now)) }
{
    gives(matches, "nodes") || gives(matches, "names") || gives(matches, "cluster")
}

/// Whether no option is given.
pub fn gives_none(matches: &ArgMatches<'_>) -> bool
    ensures { result ≡ gives_none (rows_of (found_of matches.now)) }
{
    !gives_size(matches) && !gives(matches, "group")
}

/// The number that an option gives, or `usual` if it isn't given. None if it gives no number of 32 bits.
pub fn number_or(matches: &ArgMatches<'_>, usual: u32, id: &str) -> Option<u32>
    ensures { result ≡ number_or usual id.now (rows_of (found_of matches.now)) }
{
    match value(matches, id) {
        Some(text) => small_number_in(text, 0, u32::MAX),
        None => Some(usual),
    }
}
