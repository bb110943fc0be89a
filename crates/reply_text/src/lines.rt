//! Writes lines that several lists have: those of a word alone, and of a text after the label that tells what it is.

ghost use Rattle.std.specs.Prelude.{◌∷◌, [], flat_map};
ghost use Rattle.fsrm_model.specs.texts.Printed.{body_line};
ghost use Rattle.reply_text.specs.Lines.{labelled_text};
ghost use Rattle.line_parts.specs.Writes.{Writes};

use fsrm_model::Text;
use fsrm_outside::Sink;
use line_parts::{Part, TextFault, send};

/// Writes a line that a word stands on alone: a group's name, or the path of the folder of an exception or an
/// auto-apply quota.
pub fn write_word<S: Sink>(sink: &mut S, word: &str) -> Result<(), TextFault>
    ensures writes { Writes S.Sink result sink.old sink.new (body_line (word.now ∷ [])) }
{
    send(
        sink,
        &[
            Part::Text(b"  "),
            Part::Text(word.as_bytes()),
            Part::Text(b"\n"),
        ],
    )
}

/// Writes a line of a label and a text, for example a group's pattern after `member`.
pub fn write_labelled<S: Sink>(
    sink: &mut S,
    label: &'static [u8],
    text: &Text,
) -> Result<(), TextFault>
    ensures writes { Writes S.Sink result sink.old sink.new (labelled_text label.now text.now) }
{
    send(
        sink,
        &[
            Part::Text(b"    "),
            Part::Text(label),
            Part::Text(b" "),
            Part::Text(text.as_str().as_bytes()),
            Part::Text(b"\n"),
        ],
    )
}

/// Writes the lines of texts, each after this label.
pub fn write_each_labelled<S: Sink>(
    sink: &mut S,
    label: &'static [u8],
    texts: &[Text],
) -> Result<(), TextFault>
    ensures writes { Writes S.Sink result sink.old sink.new (flat_map (labelled_text label.now) texts.now) }
{
    for text in texts {
        write_labelled(sink, label, text)?;
    }
    Ok(())
}
