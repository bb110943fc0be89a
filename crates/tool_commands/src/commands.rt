//! The commands, each read from the words after its name.

ghost use Rattle.std.specs.Prelude.{◌≡◌, Ok, Some};
ghost use Rattle.fsrm_model.specs.lines.Line.{mkdir_words, create_words, resize_words, touch_words, move_words, remove_words, usage_words, step_words, readers, deed_words, tool_words};
ghost use Rattle.fsrm_model.specs.lines.Tools.{dirquota, filescrn, storrept, tools};
ghost use Rattle.command_words.specs.Taking.{left, end, lent_word};
ghost use Rattle.tool_commands.specs.LineFaults.{ReadsWords, at_moment, named_by};

use crate::tools::{dirquota, filescrn, storrept};
use command_words::{LentWord, LineFault, Words, is_named};
use fsrm_model::{Command, Deed, FileOp};
use std::alloc::Global;

// What is to be done, at its moment.
fn at(moment: u64, deed: Deed) -> Result<Option<Command>, LineFault>
    ensures { result ≡ Ok (Some (record { moment = moment; deed = deed })) }
{
    Ok(Some(Command { moment, deed }))
}

fn mkdir(alloc: Global, moment: u64, words: &mut Words<'_>) -> Result<Option<Command>, LineFault>
    ensures { ReadsWords result (at_moment moment (mkdir_words (end words.old) (left words.old))) }
{
    let path = words.path(alloc)?;
    let owner = words.owner(alloc)?;
    words.finish()?;
    at(moment, Deed::File(FileOp::Mkdir { path, owner }))
}

fn create(alloc: Global, moment: u64, words: &mut Words<'_>) -> Result<Option<Command>, LineFault>
    ensures { ReadsWords result (at_moment moment (create_words (end words.old) (left words.old))) }
{
    let path = words.path(alloc)?;
    let length = words.length(alloc)?;
    let owner = words.owner(alloc)?;
    words.finish()?;
    let file = FileOp::Create {
        path,
        length,
        owner,
    };
    at(moment, Deed::File(file))
}

fn resize(alloc: Global, moment: u64, words: &mut Words<'_>) -> Result<Option<Command>, LineFault>
    ensures { ReadsWords result (at_moment moment (resize_words (end words.old) (left words.old))) }
{
    let path = words.path(alloc)?;
    let length = words.length(alloc)?;
    words.finish()?;
    at(moment, Deed::File(FileOp::Resize { path, length }))
}

fn touch(alloc: Global, moment: u64, words: &mut Words<'_>) -> Result<Option<Command>, LineFault>
    ensures { ReadsWords result (at_moment moment (touch_words (end words.old) (left words.old))) }
{
    let path = words.path(alloc)?;
    words.finish()?;
    at(moment, Deed::File(FileOp::Touch { path }))
}

fn move_node(
    alloc: Global,
    moment: u64,
    words: &mut Words<'_>,
) -> Result<Option<Command>, LineFault>
    ensures { ReadsWords result (at_moment moment (move_words (end words.old) (left words.old))) }
{
    let from = words.path(alloc)?;
    let to = words.path(alloc)?;
    words.finish()?;
    at(moment, Deed::File(FileOp::Move { from, to }))
}

fn remove(alloc: Global, moment: u64, words: &mut Words<'_>) -> Result<Option<Command>, LineFault>
    ensures { ReadsWords result (at_moment moment (remove_words (end words.old) (left words.old))) }
{
    let path = words.path(alloc)?;
    words.finish()?;
    at(moment, Deed::File(FileOp::Remove { path }))
}

fn usage(alloc: Global, moment: u64, words: &mut Words<'_>) -> Result<Option<Command>, LineFault>
    ensures { ReadsWords result (at_moment moment (usage_words (end words.old) (left words.old))) }
{
    let path = words.path(alloc)?;
    words.finish()?;
    at(moment, Deed::Usage { path })
}

fn step(alloc: Global, moment: u64, words: &mut Words<'_>) -> Result<Option<Command>, LineFault>
    ensures { ReadsWords result (at_moment moment (step_words (end words.old) (left words.old))) }
{
    let n = words.visits(alloc)?;
    words.finish()?;
    at(moment, Deed::Step { n })
}

// What the words after `dirquota` spell, at a moment.
fn quotas(alloc: Global, moment: u64, words: &mut Words<'_>) -> Result<Option<Command>, LineFault>
    ensures { ReadsWords result (at_moment moment (tool_words dirquota (end words.old) (left words.old))) }
{
    at(moment, dirquota(alloc, words)?)
}

// What the words after `filescrn` spell, at a moment.
fn screens(alloc: Global, moment: u64, words: &mut Words<'_>) -> Result<Option<Command>, LineFault>
    ensures { ReadsWords result (at_moment moment (tool_words filescrn (end words.old) (left words.old))) }
{
    at(moment, filescrn(alloc, words)?)
}

// What the words after `storrept` spell, at a moment.
fn reports(alloc: Global, moment: u64, words: &mut Words<'_>) -> Result<Option<Command>, LineFault>
    ensures { ReadsWords result (at_moment moment (tool_words storrept (end words.old) (left words.old))) }
{
    at(moment, storrept(alloc, words)?)
}

// What a tool's name and the words after it spell, at a moment. It stands apart, since these commands take more room
// than the others.
#[inline(never)]
fn tool(
    alloc: Global,
    moment: u64,
    name: &LentWord<'_>,
    words: &mut Words<'_>,
) -> Result<Option<Command>, LineFault>
    ensures { ReadsWords result (at_moment moment (named_by tools (lent_word name.now) (λ objects. tool_words objects (end words.old) (left words.old)))) }
{
    let word = name.text;
    if is_named("dirquota", word) {
        return quotas(alloc, moment, words);
    }
    if is_named("filescrn", word) {
        return screens(alloc, moment, words);
    }
    if is_named("storrept", word) {
        return reports(alloc, moment, words);
    }
    Err(LineFault::bad_line(name.column))
}

/// What a command's name and the words after it spell, at its moment.
// A function zeroes its locals when it begins. This one isn't inlined, so a line that is refused before doesn't wait
// for the locals of all readers.
#[inline(never)]
pub fn deed(
    alloc: Global,
    moment: u64,
    name: &LentWord<'_>,
    words: &mut Words<'_>,
) -> Result<Option<Command>, LineFault>
    ensures { ReadsWords result (at_moment moment (named_by readers (lent_word name.now) (λ reader. reader (end words.old) (left words.old)))) }
{
    let word = name.text;
    if is_named("mkdir", word) {
        return mkdir(alloc, moment, words);
    }
    if is_named("create", word) {
        return create(alloc, moment, words);
    }
    if is_named("resize", word) {
        return resize(alloc, moment, words);
    }
    if is_named("touch", word) {
        return touch(alloc, moment, words);
    }
    if is_named("move", word) {
        return move_node(alloc, moment, words);
    }
    if is_named("remove", word) {
        return remove(alloc, moment, words);
    }
    if is_named("usage", word) {
        return usage(alloc, moment, words);
    }
    if is_named("step", word) {
        return step(alloc, moment, words);
    }
    tool(alloc, moment, name, words)
}

/// The same if the name has quotes or is missing.
#[inline(never)]
pub fn other_deed(
    alloc: Global,
    moment: u64,
    words: &mut Words<'_>,
) -> Result<Option<Command>, LineFault>
    ensures { ReadsWords result (at_moment moment (deed_words (end words.old) (left words.old))) }
{
    let name = words.next(alloc)?;
    deed(alloc, moment, &name.lent(), words)
}
