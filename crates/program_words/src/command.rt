//! The command by which clap reads the words, with its texts of help.

ghost use Rattle.std.specs.Prelude.{◌≡◌, ◌≢◌, IfOk, IsErrOf, [], map, false};
ghost use Rattle.std.specs.String.{string_bytes};
ghost use Rattle.clap.specs.Words.{app_of, fault_of, rule_of, with_rule};
ghost use Rattle.program_words.specs.Command.{option_rule, option_rules, mode_rule, rest_rule, app_with, fsrm_app};
ghost use Rattle.program_words.specs.Taking.{IsTaken};

use crate::fault::WordsFault;
use clap::{Arg, ArgMatches, Command};
use fsrm_model::NoMemory;
use std::alloc::{AllocError, Global};

const VERSION: &str = "0.1";

const ABOUT: &str =
    "A file server resource manager: quotas and file screens of a volume, kept in a store.";

const MODES: &str = "\
init          Make a new store in the current folder
replay        Read a script from standard input, and write the replies to standard output
show          List the quotas
outbox SINCE  List the latest notice of each action that ran at SINCE or later; SINCE is a moment
work SEED COUNT
              Run COUNT commands that are made from SEED and change the store, and write a line that sums up
              the replies; COUNT is 1 to 1000000
expire FROM TO DAYS PATTERN MOMENT
              Move the files of the folder FROM that match PATTERN, and weren't changed for DAYS days at MOMENT,
              into the folder TO; DAYS is 0 to 36500
tick MOMENT   Run the report jobs that are due at MOMENT";

const STORE: &str = "\
A store is two files of the current folder, fsrm.store.0 and fsrm.store.1. One run at a time may use it.
Each line of a script is a moment, in seconds since the beginning of 1970, and a command, as in:
  1000000000 mkdir D:\\home 1
In a shell, paths and patterns stand between quotes, as in:
  fsrm expire 'D:\\home' 'D:\\old' 365 '*' 1000000000

README.md, in the program's sources, describes the commands. In the folder docs beside it, MACHINE.md has
their rules, FORMATS.md the replies and exit statuses, and OPERATING.md is for who keeps a store in use.";

const OF_INIT: &str = "Options of init";

const OF_REPLAY: &str = "Options of replay";

// An option of one value. `heading` is that of help under which it stands.
fn option<'a>(
    alloc: Global,
    name: &'a str,
    value: &'a str,
    heading: &'a str,
    help: &'a str,
) -> Arg<'a>
    ensures rule { rule_of result ≡ option_rule name.entry.now }
    ensures local { result.global ≡ false }
{
    Arg::new(alloc, name)
        .long(name)
        .value_name(value)
        .help_heading(heading)
        .help(help)
}

// The word that names the mode.
fn mode<'a>(alloc: Global) -> Arg<'a>
    ensures rule { rule_of result ≡ mode_rule }
    ensures local { result.global ≡ false }
{
    Arg::new(alloc, "MODE").required(true).help(MODES)
}

// The words after it.
fn rest<'a>(alloc: Global) -> Arg<'a>
    ensures rule { rule_of result ≡ rest_rule }
    ensures local { result.global ≡ false }
{
    Arg::new(alloc, "REST")
        .num_args(..)
        .help("Words of the mode, as the list of modes shows them")
}

// The command without arguments.
fn bare<'a>(alloc: Global) -> Command<'a>
    ensures { app_of result ≡ app_with [] }
{
    Command::new(alloc, "fsrm")
        .no_binary_name(true)
        .version(VERSION)
        .about(ABOUT)
        .after_help(STORE)
}

// A command with one more option of `init`.
fn with_size<'a>(
    command: Command<'a>,
    alloc: Global,
    name: &'a str,
    value: &'a str,
    help: &'a str,
) -> Result<Command<'a>, AllocError>
    ensures { IfOk result (λ c. app_of c ≡ with_rule (app_of command.entry) (option_rule name.entry.now)) }
{
    command.arg(option(alloc, name, value, OF_INIT, help))
}

// The command with its options.
fn with_options<'a>(alloc: Global) -> Result<Command<'a>, AllocError>
    ensures { IfOk result (λ c. app_of c ≡ app_with option_rules) }
{
    let command = bare(alloc);
    let nodes = "Folders and files that the store may hold, 2 to 1048576 [default: 65536]";
    let command = with_size(command, alloc, "nodes", "COUNT", nodes)?;
    let names = "Bytes of all their names together, 256 to 268435456 [default: 4194304]";
    let command = with_size(command, alloc, "names", "BYTES", names)?;
    let cluster = "Unit in which files take space: 512, 1024, 2048, .. 65536 [default: 4096]";
    let command = with_size(command, alloc, "cluster", "BYTES", cluster)?;
    let group = "Commands that one sync makes stable, 1 to 1024; replies wait for it [default: 1]";
    command.arg(option(alloc, "group", "COUNT", OF_REPLAY, group))
}

// The command of the program.
fn fsrm<'a>(alloc: Global) -> Result<Command<'a>, AllocError>
    ensures { IfOk result (λ c. app_of c ≡ fsrm_app) }
{
    with_options(alloc)?.arg(mode(alloc))?.arg(rest(alloc))
}

/// What the command finds in the words, if it takes them.
pub fn take_words<'a>(alloc: Global, words: &'a [String]) -> Result<ArgMatches<'a>, WordsFault>
    ensures taken { IfOk result (λ m. IsTaken (map string_bytes words.entry.now) m) }
    ensures usage { IsErrOf result WordsFault.Usage → fault_of fsrm_app (map string_bytes words.entry.now) ≢ [] }
{
    let command = fsrm(alloc)?;
    Ok(command.try_get_matches_from(words)?)
}

/// The text of `--help`.
pub fn help_text(alloc: Global) -> Result<String, NoMemory> {
    Ok(fsrm(alloc)?.render_help()?)
}

/// The text of `--version`.
pub fn version_text(alloc: Global) -> Result<String, NoMemory> {
    Ok(fsrm(alloc)?.render_version()?)
}
