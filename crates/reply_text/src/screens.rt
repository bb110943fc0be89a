//! Writes the lists of screens and of exceptions.

ghost use Rattle.std.specs.Prelude.{◌≡◌, ◌+◌, ◌≤◌, ◌∷◌, [], Some};
ghost use Rattle.fsrm_base.specs.Keyed.{row_of};
ghost use Rattle.fsrm_model.specs.declared.command.Ask.TheVariants.{Excepts, Screens};
ghost use Rattle.fsrm_model.specs.commands.Cost.{list_cost, path_cost};
ghost use Rattle.fsrm_model.specs.texts.Printed.{body_line};
ghost use Rattle.fsrm_model.specs.objects.Screens.{except_folder, screen_folder};
ghost use Rattle.fsrm_model.specs.texts.ScreenText.{mode_word};
ghost use Rattle.fsrm_model.specs.texts.Text.{list_lines};
ghost use Rattle.fsrm_model.specs.store.Valid.{IsValid};
ghost use Rattle.reply_text.specs.Lines.{except_text, screen_text};
ghost use Rattle.line_parts.specs.Writes.{Writes};

use crate::actions::write_dos;
use crate::groups::write_names;
use crate::lines::write_word;
use fsrm_engine::Engine;
use fsrm_model::{ExceptRow, Ledger, ScreenRow, Steps};
use fsrm_outside::Sink;
use line_parts::{Part, TextFault, send};
use std::alloc::Global;

/// The word of a screen that blocks names, or that only reports them.
pub fn mode_word(active: bool) -> &'static [u8]
    ensures { result.now ≡ mode_word active }
{
    if active { b"active" } else { b"passive" }
}

// Writes the first line of a screen, whose folder has this path.
fn write_mode<S: Sink>(sink: &mut S, active: bool, path: &str) -> Result<(), TextFault>
    ensures writes { Writes S.Sink result sink.old sink.new (body_line (mode_word active ∷ path.now ∷ [])) }
{
    send(
        sink,
        &[
            Part::Text(b"  "),
            Part::Text(mode_word(active)),
            Part::Text(b" "),
            Part::Text(path.as_bytes()),
            Part::Text(b"\n"),
        ],
    )
}

// Writes the lines of a screen: its folder, its groups, and its actions.
fn write_screen<S: Sink, L: Ledger>(
    alloc: Global,
    sink: &mut S,
    screen: &ScreenRow,
    engine: &Engine,
    steps: &mut Steps<L>,
) -> Result<(), TextFault>
    requires store { IsValid engine.now.size engine.now.rows }
    requires own { row_of screen_folder screen.now.folder engine.now.rows.screens ≡ Some screen.now }
    ensures writes { Writes S.Sink result sink.old sink.new (screen_text engine.now.rows.nodes engine.now.rows.groups screen.now) }
    ensures looks { steps.new ≤ steps.old + path_cost engine.now.rows.nodes screen.now.folder }
{
    let path = engine.path_text(alloc, screen.folder, steps)?;
    write_mode(sink, screen.active, path.as_str())?;
    write_names(sink, engine.groups(), screen.groups.as_slice())?;
    write_dos(sink, screen.actions.as_slice())
}

/// Writes the lines of all screens.
pub fn write_screens<S: Sink, L: Ledger>(
    alloc: Global,
    sink: &mut S,
    engine: &Engine,
    steps: &mut Steps<L>,
) -> Result<(), TextFault>
    ensures writes { Writes S.Sink result sink.old sink.new (list_lines engine.now.size engine.now.rows Screens) }
    ensures looks { steps.new ≤ steps.old + list_cost engine.now.rows Screens }
{
    let objects = engine.objects();
    for place in 0..objects.screen_count() {
        write_screen(alloc, sink, objects.screen_at(place), engine, steps)?;
    }
    Ok(())
}

// Writes the lines of an exception: its folder, and its groups.
fn write_except<S: Sink, L: Ledger>(
    alloc: Global,
    sink: &mut S,
    except: &ExceptRow,
    engine: &Engine,
    steps: &mut Steps<L>,
) -> Result<(), TextFault>
    requires store { IsValid engine.now.size engine.now.rows }
    requires own { row_of except_folder except.now.folder engine.now.rows.excepts ≡ Some except.now }
    ensures writes { Writes S.Sink result sink.old sink.new (except_text engine.now.rows.nodes engine.now.rows.groups except.now) }
    ensures looks { steps.new ≤ steps.old + path_cost engine.now.rows.nodes except.now.folder }
{
    let path = engine.path_text(alloc, except.folder, steps)?;
    write_word(sink, path.as_str())?;
    write_names(sink, engine.groups(), except.groups.as_slice())
}

/// Writes the lines of all exceptions.
pub fn write_excepts<S: Sink, L: Ledger>(
    alloc: Global,
    sink: &mut S,
    engine: &Engine,
    steps: &mut Steps<L>,
) -> Result<(), TextFault>
    ensures writes { Writes S.Sink result sink.old sink.new (list_lines engine.now.size engine.now.rows Excepts) }
    ensures looks { steps.new ≤ steps.old + list_cost engine.now.rows Excepts }
{
    let objects = engine.objects();
    for place in 0..objects.except_count() {
        write_except(alloc, sink, objects.except_at(place), engine, steps)?;
    }
    Ok(())
}
