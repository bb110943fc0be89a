//! Entries as the bodies of a journal's records.

ghost use Rattle.std.specs.Prelude.{◌≡◌, ◌≤◌, ℕ, List, true, Ok, length};
ghost use Rattle.fsrm_model.specs.declared.command.Entry.{Entry as EntryValue};
ghost use Rattle.fsrm_model.specs.store.Replays.{is_valid_entry};
ghost use Rattle.fsrm_model.specs.values.Limits.{longest_entry};
ghost use Rattle.record_fields.specs.Laws.{AreBytes};
ghost use Rattle.record_codec.specs.Entries.{entry as entry_format, decoded};
ghost use Rattle.record_codec.specs.Writing.{IsWritable, entry_typed};

/// An entry that has a spelling is read again of it, and what is read was spelled so. What may be written has a spelling
/// that a record may have as its body: some bytes, and not too many. And an entry that is read of a body is valid.
pub fn read_back()
    ensures again { (e : EntryValue) → entry_format.legal e ≡ true → decoded (entry_format.spell e) ≡ Ok e }
    ensures takes { (bytes : List ℕ) (e : EntryValue) → AreBytes bytes → decoded bytes ≡ Ok e → (entry_format.legal e ≡ true) × (bytes ≡ entry_format.spell e) }
    ensures written { (e : EntryValue) → entry_typed e ≡ true → IsWritable e
        → (decoded (entry_format.spell e) ≡ Ok e) × (1 ≤ length (entry_format.spell e)) × (length (entry_format.spell e) ≤ longest_entry) }
    ensures valid { (bytes : List ℕ) (e : EntryValue) → AreBytes bytes → length bytes ≤ longest_entry → decoded bytes ≡ Ok e → is_valid_entry e ≡ true }
{}
