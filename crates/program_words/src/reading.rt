//! What the words ask for, by the rules of each mode.

ghost use Rattle.std.specs.Prelude.{◌≡◌, map, IsErrOf, Some, None, IfOk, IfSome};
ghost use Rattle.std.specs.String.{string_bytes};
ghost use Rattle.clap.specs.Words.{found_of, rows_of};
ghost use Rattle.fsrm_model.specs.store.Capacities.{is_cluster, is_capacity};
ghost use Rattle.program_words.specs.Modes.{is_group, has_rest, size_of, init_mode, replay_mode, named_mode, mode_of, mode, Answers, IsLegal};

use crate::command::take_words;
use crate::fault::WordsFault;
use crate::modes::Mode;
use crate::plain::{answer, plain_mode};
use crate::values::{gives, gives_none, gives_size, number_or, rest, value};
use clap::ArgMatches;
use fsrm_model::Capacity;
use fsrm_model::limits::{MOST_NAMES, MOST_NODES};
use std::alloc::Global;

const FEWEST_NODES: u32 = 2;

const FEWEST_NAMES: u32 = 256;

const MOST_RECORDS: u32 = 1_024;

// The size of a store for which the words give none.
const USUAL: Capacity = Capacity {
    nodes: 65_536,
    names: 4_194_304,
    cluster: 4_096,
};

fn is_cluster(bytes: u32) -> bool
    ensures { result ≡ is_cluster bytes }
{
    matches!(
        bytes,
        512 | 1_024 | 2_048 | 4_096 | 8_192 | 16_384 | 32_768 | 65_536
    )
}

fn is_capacity(size: Capacity) -> bool
    ensures { result ≡ is_capacity size }
{
    FEWEST_NODES <= size.nodes
        && size.nodes <= MOST_NODES
        && FEWEST_NAMES <= size.names
        && size.names <= MOST_NAMES
        && is_cluster(size.cluster)
}

fn is_group(records: u32) -> bool
    ensures { result ≡ is_group records }
{
    1 <= records && records <= MOST_RECORDS
}

fn has_rest(matches: &ArgMatches<'_>) -> bool
    ensures { result ≡ has_rest (rows_of (found_of matches.now)) }
{
    !rest(matches).is_empty()
}

// The size that the options give. None if one of them gives no number.
fn size_of(matches: &ArgMatches<'_>) -> Option<Capacity>
    ensures { result ≡ size_of (rows_of (found_of matches.now)) }
{
    Some(Capacity {
        nodes: number_or(matches, USUAL.nodes, "nodes")?,
        names: number_or(matches, USUAL.names, "names")?,
        cluster: number_or(matches, USUAL.cluster, "cluster")?,
    })
}

fn init_mode(matches: &ArgMatches<'_>) -> Option<Mode>
    ensures asked { result ≡ init_mode (rows_of (found_of matches.now)) }
    ensures legal { IfSome result IsLegal }
{
    let size = size_of(matches)?;
    let fits = is_capacity(size) && !gives(matches, "group") && !has_rest(matches);
    fits.then_some(Mode::Init { size })
}

fn replay_mode(matches: &ArgMatches<'_>) -> Option<Mode>
    ensures asked { result ≡ replay_mode (rows_of (found_of matches.now)) }
    ensures legal { IfSome result IsLegal }
{
    let group = number_or(matches, 1, "group")?;
    let fits = is_group(group) && !gives_size(matches) && !has_rest(matches);
    fits.then_some(Mode::Replay { group })
}

fn named_mode(alloc: Global, name: &str, matches: &ArgMatches<'_>) -> Result<Mode, WordsFault>
    ensures asked { Answers result (named_mode name.now (rows_of (found_of matches.now))) }
    ensures legal { IfOk result IsLegal }
{
    match name {
        "init" => answer(init_mode(matches)),
        "replay" => answer(replay_mode(matches)),
        _ if gives_none(matches) => plain_mode(alloc, name, rest(matches)),
        _ => Err(WordsFault::Usage),
    }
}

fn mode_of(alloc: Global, matches: &ArgMatches<'_>) -> Result<Mode, WordsFault>
    ensures asked { Answers result (mode_of (rows_of (found_of matches.now))) }
    ensures legal { IfOk result IsLegal }
{
    match value(matches, "MODE") {
        Some(name) => named_mode(alloc, name, matches),
        None => Err(WordsFault::Usage),
    }
}

/// What the words after the program's name ask for. `Usage` exactly if they ask for nothing: if clap doesn't take them as
/// the program's command, or they don't meet the rules of a mode. `NoMemory` may come in place of each answer.
pub fn read_words(alloc: Global, words: &[String]) -> Result<Mode, WordsFault>
    ensures asked { IfOk result (λ m. mode (map string_bytes words.now) ≡ Some m) }
    ensures usage { IsErrOf result WordsFault.Usage → mode (map string_bytes words.now) ≡ None }
    // What is asked for is in range.
    ensures legal { IfOk result IsLegal }
{
    let matches = take_words(alloc, words)?;
    mode_of(alloc, &matches)
}
