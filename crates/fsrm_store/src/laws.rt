//! What is proved of the bytes of a store.

ghost use Rattle.std.specs.Prelude.{◌≡◌, ◌⊎◌, ◌↔◌, ◌≤◌, ◌+◌, ◌*◌, ◌/◌, ℕ, List, [], ◌∷◌, ◌++◌, true, false, None, Some, Ok, Err, length, take, drop};
ghost use Rattle.std.specs.List.{list_all};
ghost use Rattle.fsrm_model.specs.commands.Step.{step};
ghost use Rattle.fsrm_model.specs.declared.command.Command.{Command};
ghost use Rattle.fsrm_model.specs.declared.command.Entry.{Entry};
ghost use Rattle.fsrm_model.specs.declared.row.Capacity.{Capacity};
ghost use Rattle.fsrm_model.specs.declared.row.Rows.{Rows};
ghost use Rattle.fsrm_model.specs.nodes.Fresh.{new_rows};
ghost use Rattle.fsrm_model.specs.store.Lasting.{lasting};
ghost use Rattle.fsrm_model.specs.store.OldReplays.{old_replayed};
ghost use Rattle.fsrm_model.specs.store.Replays.{recovered, journal_entry, command_entries, is_valid_entry};
ghost use Rattle.fsrm_model.specs.store.Valid.{is_valid, IsValid};
ghost use Rattle.fsrm_model.specs.store.Valued.{is_command};
ghost use Rattle.fsrm_outside.specs.Kept.{KeepsDisk};
ghost use Rattle.fsrm_outside.specs.Moments.{EachNow};
ghost use Rattle.fsrm_outside.specs.Parts.{Parts, part_of};
ghost use Rattle.fsrm_outside.specs.declared.traits.Part.{Part};
ghost use Rattle.fsrm_journal.specs.Formatted.{has_store};
ghost use Rattle.fsrm_journal.specs.Next.{record_at};
ghost use Rattle.fsrm_journal.specs.Opened.{judged_parts};
ghost use Rattle.fsrm_journal.specs.Records.{records};
ghost use Rattle.fsrm_journal.specs.declared.fault.JournalFault.TheVariants.{NoStore, Damaged};
ghost use Rattle.fsrm_journal.specs.declared.heads.Head.{Head};
ghost use Rattle.fsrm_journal.specs.declared.journal.Journal.{Journal};
ghost use Rattle.record_fields.specs.Laws.{AreBytes};
ghost use Rattle.record_codec.specs.Entries.{decoded};
ghost use Rattle.record_codec.specs.Writing.{IsWritable};
ghost use Rattle.image_codec.specs.Images.{image_in};
ghost use Rattle.image_codec.specs.NewImage.{new_image};
ghost use Rattle.fsrm_journal.specs.Stores.{HoldsStore, HoldsWithOrWithout, HoldsOldOrNew};
ghost use Rattle.fsrm_store.specs.Amortized.{Amortized};
ghost use Rattle.fsrm_store.specs.Keeps.{Spell, HoldsState, HoldsOldState, Keeps, HasTail};
ghost use Rattle.fsrm_store.specs.States.{state_of};
ghost use Rattle.fsrm_store.specs.States.State.{NoState, DamagedAt, Holds};
ghost use Rattle.fsrm_store.specs.Reads.{Rules, image_bytes, ComesTo};
ghost use Rattle.fsrm_store.specs.Standing.{IsReady, IsTold, KeepsJournal, Standing, StandsAlike};
ghost use Rattle.fsrm_store.specs.declared.store.Store.{Store};
ghost use Rattle.fsrm_store.specs.WorkedStates.{no_bytes, closed_gates, new_store, no_part, newer_half, equal_halves, wrong_version, cut_image, short_image, short_part, wrong_rows, one_record, refused_record, closed_record, no_gate, no_length, length_zero, no_body, no_next_gate, wrong_kind, wrong_owner, long_body};

use fsrm_outside::Disk;

/// What the bytes of a store hold.
pub fn states()
    // They have a state with rows exactly if a reader comes to these rows. So it is one.
    ensures state { (K : Capacity) (R : Rows) (parts : Parts) → (state_of parts ≡ Holds K R) ↔ HoldsState K R parts }
    ensures one { (K L : Capacity) (R Q : Rows) (parts : Parts) → HoldsState K R parts → HoldsState L Q parts → (K ≡ L) × (R ≡ Q) }
    // There is none exactly where no gate is open.
    ensures none { (parts : Parts) → (state_of parts ≡ NoState) ↔ (has_store parts ≡ false) }
    // Entries that are read of bytes are valid.
    ensures valid { (K : Capacity) (R : Rows) (parts : Parts) (h : HoldsState K R parts) → AreBytes (part_of h.ruling parts) → list_all is_valid_entry h.entries ≡ true }
    // Entries that a store of version 1 was given come to the rows that the machine of that time made of them.
    ensures old { (K : Capacity) (R : Rows) (parts : Parts) (h : HoldsOldState K R parts) → lasting (old_replayed K h.state.base h.state.entries) ≡ R }
{}

/// What a reader finds is the state of the bytes.
pub fn reading()
    // The heads say that there is no store, or are damaged.
    ensures none { (parts : Parts) → judged_parts parts ≡ Err NoStore → state_of parts ≡ NoState }
    ensures heads { (parts : Parts) (part : Part) (place : ℕ) → judged_parts parts ≡ Err (Damaged part place) → state_of parts ≡ DamagedAt part place }
    // The image isn't one, or tells rows that aren't valid, or tells valid ones: then the records come.
    ensures image { (parts : Parts) (ruling : Part) (head : Head) (wrong : ℕ) → Rules ruling head parts → image_in head.image (image_bytes ruling head parts) ≡ Err wrong
        → state_of parts ≡ DamagedAt ruling (48 + wrong) }
    ensures rows { (parts : Parts) (ruling : Part) (head : Head) (base : Rows) → Rules ruling head parts → image_in head.image (image_bytes ruling head parts) ≡ Ok base → is_valid head.size base ≡ false
        → state_of parts ≡ DamagedAt ruling 48 }
    ensures found { (parts : Parts) (ruling : Part) (head : Head) (base : Rows) → Rules ruling head parts → image_in head.image (image_bytes ruling head parts) ≡ Ok base → is_valid head.size base ≡ true
        → ComesTo ruling head base [] (48 + head.image) parts }
    // A record isn't there, or its body spells no entry, or one: then the next record comes.
    ensures record { (parts : Parts) (ruling : Part) (head : Head) (base : Rows) (entries : List Entry) (end place : ℕ) → ComesTo ruling head base entries end parts
        → record_at (part_of ruling parts) end ≡ Err place → state_of parts ≡ DamagedAt ruling place }
    ensures body { (parts : Parts) (ruling : Part) (head : Head) (base : Rows) (entries : List Entry) (end place long wrong : ℕ) → ComesTo ruling head base entries end parts
        → record_at (part_of ruling parts) end ≡ Ok (Some (place, long)) → decoded (take long (drop place (part_of ruling parts))) ≡ Err wrong → state_of parts ≡ DamagedAt ruling (place + wrong) }
    ensures next { (parts : Parts) (ruling : Part) (head : Head) (base : Rows) (entries : List Entry) (end place long : ℕ) (entry : Entry) → ComesTo ruling head base entries end parts
        → record_at (part_of ruling parts) end ≡ Ok (Some (place, long)) → decoded (take long (drop place (part_of ruling parts))) ≡ Ok entry
        → ComesTo ruling head base (entries ++ entry ∷ []) (place + long) parts }
    // The gate is closed: these are all entries.
    ensures all { (parts : Parts) (ruling : Part) (head : Head) (base : Rows) (entries : List Entry) (end : ℕ) → ComesTo ruling head base entries end parts
        → record_at (part_of ruling parts) end ≡ Ok None → state_of parts ≡ Holds head.size (recovered head.size base entries) }
{}

/// What the bytes of a store keep of its rows while they are written.
pub fn calls()
    // Parts that hold the bytes that are written hold what was kept.
    ensures holds { (ruling : Part) (kept : Rows) (head : Head) (image : List ℕ) (bodies held : List (List ℕ)) (R : Rows) (parts : Parts)
        → Keeps kept head image bodies held R → HoldsStore ruling head image bodies parts → HoldsState head.size kept parts }
    // What is held is written: before that, or after it. So what a crash leaves is what was kept, or what is kept of the
    // rows now.
    ensures crash { (ruling : Part) (kept : Rows) (head : Head) (image : List ℕ) (bodies held : List (List ℕ)) (R : Rows) (parts : Parts)
        → Keeps kept head image bodies held R → HoldsWithOrWithout ruling head image bodies held parts
        → HoldsState head.size kept parts ⊎ HoldsState head.size (lasting R) parts }
    // If no record is held these are the same. Then a change to another half leaves this alone, too.
    ensures settled { (kept : Rows) (head : Head) (image : List ℕ) (bodies : List (List ℕ)) (R : Rows) → Keeps kept head image bodies [] R → kept ≡ lasting R }
    ensures change { (ruling : Part) (kept : Rows) (head next : Head) (image new : List ℕ) (bodies : List (List ℕ)) (R : Rows) (parts : Parts)
        → Keeps kept head image bodies [] R → Keeps (lasting R) next new [] [] R → next.size ≡ head.size → HoldsOldOrNew ruling head image bodies next new parts
        → HoldsState head.size (lasting R) parts }
    // A store that is opened has the rows of its state.
    ensures opened { (K : Capacity) (R : Rows) (parts : Parts) (h : HoldsState K R parts) → list_all is_valid_entry h.entries ≡ true → Keeps R h.head h.image h.bodies [] R }
    // A command that lasts has an entry that may be written. A command's entries are held.
    ensures writable { (K : Capacity) (R : Rows) (c : Command) → IsValid K R → is_command c ≡ true → (step K R c).lasting ≡ true → IsWritable (journal_entry R c) }
    ensures command { (kept : Rows) (head : Head) (image : List ℕ) (bodies held more : List (List ℕ)) (R : Rows) (c : Command)
        → Keeps kept head image bodies held R → is_command c ≡ true → Spell more (command_entries head.size R c)
        → Keeps kept head image bodies (held ++ more) (step head.size R c).rows }
    // A flush writes what is held.
    ensures flush { (kept : Rows) (head : Head) (image : List ℕ) (bodies held : List (List ℕ)) (R : Rows)
        → Keeps kept head image bodies held R → Keeps (lasting R) head image (bodies ++ held) [] R }
    // A checkpoint's image is read as what is kept of the rows. So is that of a new store.
    ensures checkpoint { (head : Head) (image : List ℕ) (R : Rows) → IsValid head.size R → image_in (length image) image ≡ Ok (lasting R)
        → Keeps (lasting R) head image [] [] R }
    ensures new { (head : Head) → 1 ≤ head.size.nodes → Keeps new_rows head new_image [] [] new_rows }
{}

/// What a crash leaves of a store that stands, what a read tells of it, and when another one stands there, too.
pub fn standing<D: Disk>()
    ensures now { (kept : Rows) (store : Store) (disk : D) → Standing D.reads D.disk_clock D.images kept store disk → EachNow D.disk_clock D.images (HoldsState store.engine.size kept) disk }
    ensures told { (kept : Rows) (store : Store) (disk : D) (parts : Parts) → Standing D.reads D.disk_clock D.images kept store disk → D.reads disk ≡ Some parts → IsTold kept store parts }
    // If no entry is held it is what is kept of the rows.
    ensures settled { (kept : Rows) (store : Store) (disk : D) → Standing D.reads D.disk_clock D.images kept store disk → store.journal.held ≡ 0 → kept ≡ lasting store.engine.rows }
    // Calls of other devices change neither.
    ensures others { (kept : Rows) (store : Store) (old new : D) → KeepsDisk D.reads D.disk_clock D.images D.disk_faults old new → Standing D.reads D.disk_clock D.images kept store old → Standing D.reads D.disk_clock D.images kept store new }
    ensures ready { (journal : Journal) (old new : D) → KeepsDisk D.reads D.disk_clock D.images D.disk_faults old new → IsReady D.reads journal old → IsReady D.reads journal new }
    // Nor does a call that was refused for want of memory.
    ensures kept { (kept : Rows) (store after : Store) (disk : D) → KeepsJournal store after → after.engine ≡ store.engine → Standing D.reads D.disk_clock D.images kept store disk → Standing D.reads D.disk_clock D.images kept after disk }
    ensures alike { (kept : Rows) (store after : Store) (disk : D) → StandsAlike store after → Standing D.reads D.disk_clock D.images kept store disk → Standing D.reads D.disk_clock D.images kept after disk }
{}

/// What calls take for images, one after another: for each 1 MiB of records, whole ones alone, 2 looks at each node.
pub fn looks()
    ensures together { (nodes more most looks mid spent steps bytes left added rest : ℕ) → nodes ≤ most → more ≤ most → Amortized nodes looks mid bytes left → Amortized more (mid + spent) steps (left + added) rest
        → Amortized most (looks + spent) steps (bytes + added) rest }
    ensures whole { (nodes looks steps bytes left : ℕ) → Amortized nodes looks steps bytes left → steps ≤ looks + bytes / 1048576 * (2 * nodes) }
{}

/// How many bytes the records of a store have. It is one number, that of its bodies' records.
pub fn tails()
    ensures tail { (ruling : Part) (head : Head) (image : List ℕ) (bodies : List (List ℕ)) (parts : Parts) → HoldsStore ruling head image bodies parts → HasTail (length (records bodies)) parts }
    ensures one { (tail other : ℕ) (parts : Parts) → HasTail tail parts → HasTail other parts → tail ≡ other }
{}

/// Bytes that hold no store, and some that hold rows.
pub fn worked_states()
    ensures no_bytes { no_bytes }
    ensures closed_gates { closed_gates }
    ensures new_store { new_store }
    ensures newer_half { newer_half }
    ensures one_record { one_record }
    ensures refused_record { refused_record }
    ensures closed_record { closed_record }
{}

/// Bytes with a damage, each at its place.
pub fn worked_damage()
    ensures no_part { no_part }
    ensures equal_halves { equal_halves }
    ensures wrong_version { wrong_version }
    ensures cut_image { cut_image }
    ensures short_image { short_image }
    ensures short_part { short_part }
    ensures wrong_rows { wrong_rows }
    ensures no_gate { no_gate }
    ensures no_length { no_length }
    ensures length_zero { length_zero }
    ensures no_body { no_body }
    ensures no_next_gate { no_next_gate }
    ensures wrong_kind { wrong_kind }
    ensures wrong_owner { wrong_owner }
    ensures long_body { long_body }
{}
