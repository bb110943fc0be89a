//! What is proved of the spellings of entries.
//!
//! A value has one spelling, and a spelling one value: `decode` and `encode` say so of each. Where bytes spell no entry,
//! the place that is told is the right one: the bytes before it are whole fields of a legal entry, and with no legal
//! entry do they agree in whole fields any further.

ghost use Rattle.std.specs.Prelude.{◌≡◌, true, option_map};
ghost use Rattle.fsrm_model.specs.commands.Commands.{kind};
ghost use Rattle.fsrm_model.specs.declared.command.Deed.{Deed as DeedValue};
ghost use Rattle.fsrm_model.specs.declared.command.Entry.{Entry as EntryValue};
ghost use Rattle.record_fields.specs.Laws.{Places};
ghost use Rattle.record_codec.specs.Deeds.{deed_kind, deed_code};
ghost use Rattle.record_codec.specs.Entries.{entry as entry_format};
ghost use Rattle.record_codec.specs.Writing.{IsWritable, IsSpelled, entry_typed};

pub mod record_bodies;

/// The format of entries is exact, and places damage.
pub fn entries()
    ensures { Places entry_format }
{}

/// Each command whose entry the machine keeps has a kind here, of the same byte.
pub fn kinds()
    ensures { (deed : DeedValue) → option_map deed_code (deed_kind deed) ≡ kind deed }
{}

/// What may be written is what has a spelling: a command is valid, and of a kind that the machine keeps, exactly if it
/// has one that a journal takes. That texts are UTF-8, of which a valid command says nothing, is known from their types.
pub fn spelled()
    ensures valid { (entry : EntryValue) → entry_typed entry ≡ true → IsWritable entry → IsSpelled entry }
    ensures only { (entry : EntryValue) → IsSpelled entry → IsWritable entry }
{}
