//! Writes the lists of templates and of auto-apply quotas.

ghost use Rattle.std.specs.Prelude.{◌≡◌, ◌+◌, ◌≤◌, ◌∷◌, [], Some, decimal};
ghost use Rattle.fsrm_base.specs.Keyed.{row_of};
ghost use Rattle.fsrm_model.specs.declared.command.Ask.TheVariants.{Autos, Templates};
ghost use Rattle.fsrm_model.specs.objects.AutoApply.{auto_folder};
ghost use Rattle.fsrm_model.specs.commands.Cost.{list_cost, path_cost};
ghost use Rattle.fsrm_model.specs.texts.Printed.{body_line, type_word};
ghost use Rattle.fsrm_model.specs.texts.Text.{list_lines};
ghost use Rattle.fsrm_model.specs.store.Valid.{IsValid};
ghost use Rattle.reply_text.specs.Lines.{auto_text, template_text};
ghost use Rattle.line_parts.specs.Writes.{Writes};

use crate::actions::write_thresholds;
use crate::lines::{write_each_labelled, write_labelled, write_word};
use crate::lists::type_word;
use fsrm_engine::Engine;
use fsrm_model::{AutoRow, Ledger, Steps, TemplateRow};
use fsrm_outside::Sink;
use line_parts::{Part, TextFault, send};
use std::alloc::Global;

// Writes the first line of a template: its limit, its type and its name.
fn write_head<S: Sink>(sink: &mut S, template: &TemplateRow) -> Result<(), TextFault>
    ensures writes { Writes S.Sink result sink.old sink.new (body_line (decimal template.now.limit ∷ type_word template.now.enforce ∷ template.now.name ∷ [])) }
{
    send(
        sink,
        &[
            Part::Text(b"  "),
            Part::Number(template.limit),
            Part::Text(b" "),
            Part::Text(type_word(template.enforce)),
            Part::Text(b" "),
            Part::Text(template.name.as_str().as_bytes()),
            Part::Text(b"\n"),
        ],
    )
}

// Writes the lines of a template.
fn write_template<S: Sink>(sink: &mut S, template: &TemplateRow) -> Result<(), TextFault>
    ensures writes { Writes S.Sink result sink.old sink.new (template_text template.now) }
{
    write_head(sink, template)?;
    write_thresholds(sink, template.thresholds.as_slice())
}

/// Writes the lines of all templates.
pub fn write_templates<S: Sink>(sink: &mut S, engine: &Engine) -> Result<(), TextFault>
    ensures writes { Writes S.Sink result sink.old sink.new (list_lines engine.now.size engine.now.rows Templates) }
{
    let templates = engine.templates();
    for place in 0..templates.template_count() {
        write_template(sink, templates.template_at(place))?;
    }
    Ok(())
}

// Writes the lines of an auto-apply quota: its folder, its template, and the names that it excludes.
fn write_auto<S: Sink, L: Ledger>(
    alloc: Global,
    sink: &mut S,
    auto: &AutoRow,
    engine: &Engine,
    steps: &mut Steps<L>,
) -> Result<(), TextFault>
    requires store { IsValid engine.now.size engine.now.rows }
    requires own { row_of auto_folder auto.now.folder engine.now.rows.autos ≡ Some auto.now }
    ensures writes { Writes S.Sink result sink.old sink.new (auto_text engine.now.rows.nodes engine.now.rows.templates auto.now) }
    ensures looks { steps.new ≤ steps.old + path_cost engine.now.rows.nodes auto.now.folder }
{
    let path = engine.path_text(alloc, auto.folder, steps)?;
    let template = engine.templates().template(auto.template).unwrap();
    write_word(sink, path.as_str())?;
    write_labelled(sink, b"template", &template.name)?;
    write_each_labelled(sink, b"except", auto.excluded.as_slice())
}

/// Writes the lines of all auto-apply quotas.
pub fn write_autos<S: Sink, L: Ledger>(
    alloc: Global,
    sink: &mut S,
    engine: &Engine,
    steps: &mut Steps<L>,
) -> Result<(), TextFault>
    ensures writes { Writes S.Sink result sink.old sink.new (list_lines engine.now.size engine.now.rows Autos) }
    ensures looks { steps.new ≤ steps.old + list_cost engine.now.rows Autos }
{
    let templates = engine.templates();
    for place in 0..templates.auto_count() {
        write_auto(alloc, sink, templates.auto_at(place), engine, steps)?;
    }
    Ok(())
}
