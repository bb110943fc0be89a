//! The commands on reports and report jobs, each read from the options after its name.

ghost use Rattle.fsrm_model.specs.declared.command.Deed.TheVariants.{Reports};
ghost use Rattle.fsrm_model.specs.lines.Line.{option_words, named_word};
ghost use Rattle.fsrm_model.specs.lines.Tools.{report_generate, job_add, report_commands};
ghost use Rattle.command_words.specs.Taking.{left, end};
ghost use Rattle.tool_commands.specs.LineFaults.{ReadsIn};
ghost use Rattle.tool_commands.specs.TaskOption.{ReadsTask};

use crate::keys;
use command_words::{LineFault, Words, is_named, read_options, required};
use fsrm_model::{Filter, NewJob, NewReport, ReportsDeed, Text};
use std::alloc::Global;

// The most rows of a report, if nothing else is asked for.
const USUAL_ROWS: u32 = 1_000;

fn generate(alloc: Global, words: &mut Words<'_>) -> Result<ReportsDeed, LineFault>
    ensures { ReadsIn (λ deed. Reports deed) result (option_words report_generate (end words.old) (left words.old)) }
{
    let filter = (
        (keys::OWNER, keys::PATTERN),
        (keys::MIN_SIZE, (keys::DAYS, (keys::MIN_USE, keys::MAX))),
    );
    let options = (keys::REPORT, (keys::SCOPE, filter));
    let (kind, (scope, filter)) = read_options(alloc, options, words)?;
    let ((owner, pattern), (min_size, (days, (min_use, max)))) = filter;
    let kind = required(kind, words)?;
    let scope = required(scope, words)?;
    let filter = Filter {
        owner,
        pattern,
        min_size,
        days,
        min_use,
        max: max.unwrap_or(USUAL_ROWS),
    };
    Ok(ReportsDeed::Generate(NewReport {
        kind,
        scope,
        filter,
    }))
}

fn add(alloc: Global, words: &mut Words<'_>) -> Result<ReportsDeed, LineFault>
    ensures { ReadsIn (λ deed. Reports deed) result (option_words job_add (end words.old) (left words.old)) }
{
    let filter = (
        (keys::OWNER, keys::PATTERN),
        (keys::MIN_SIZE, (keys::DAYS, (keys::MIN_USE, keys::MAX))),
    );
    let options = (
        (keys::TASK, keys::REPORT),
        ((keys::SCOPE, keys::SCHEDULE), filter),
    );
    let ((name, kind), ((scope, schedule), filter)) = read_options(alloc, options, words)?;
    let ((owner, pattern), (min_size, (days, (min_use, max)))) = filter;
    let name = required(name, words)?;
    let kind = required(kind, words)?;
    let scope = required(scope, words)?;
    let filter = Filter {
        owner,
        pattern,
        min_size,
        days,
        min_use,
        max: max.unwrap_or(USUAL_ROWS),
    };
    Ok(ReportsDeed::Add(NewJob {
        name,
        kind,
        scope,
        schedule,
        filter,
    }))
}

// The name of a job, which is all that some commands take, and that they must have.
fn task_alone(alloc: Global, words: &mut Words<'_>) -> Result<Text, LineFault>
    ensures { ReadsTask result (end words.old) (left words.old) }
{
    let name = read_options(alloc, keys::TASK, words)?;
    required(name, words)
}

/// What the words after `storrept reports` spell.
pub fn reports(alloc: Global, words: &mut Words<'_>) -> Result<ReportsDeed, LineFault>
    ensures { ReadsIn (λ deed. Reports deed) result (named_word report_commands (end words.old) (left words.old) (λ command more. option_words command (end words.old) more)) }
{
    let name = words.next(alloc)?;
    let word = name.text.as_str();
    if is_named("generate", word) {
        return generate(alloc, words);
    }
    if is_named("add", word) {
        return add(alloc, words);
    }
    if is_named("delete", word) {
        let name = task_alone(alloc, words)?;
        return Ok(ReportsDeed::Delete { name });
    }
    if is_named("run", word) {
        let name = task_alone(alloc, words)?;
        return Ok(ReportsDeed::Run { name });
    }
    if is_named("list", word) {
        words.finish()?;
        return Ok(ReportsDeed::List);
    }
    Err(LineFault::bad_line(name.column))
}
