//! The program's one call.

ghost use Rattle.std.specs.Prelude.{◌≡◌, ◌⊎◌, ◌≤◌, ◌↔◌, ℕ, List, map, None, Some, length};
ghost use Rattle.std.specs.Option.{ForSome};
ghost use Rattle.std.specs.String.{string_bytes};
ghost use Rattle.fsrm_model.specs.commands.Cost.{list_cost};
ghost use Rattle.fsrm_model.specs.declared.command.Ask.TheVariants.{Quotas};
ghost use Rattle.fsrm_model.specs.declared.row.Capacity.{Capacity};
ghost use Rattle.fsrm_model.specs.declared.row.Rows.{Rows};
ghost use Rattle.fsrm_model.specs.texts.Text.{list_lines};
ghost use Rattle.fsrm_model.specs.values.Limits.{longest_script};
ghost use Rattle.fsrm_outside.specs.Causes.{Rose};
ghost use Rattle.fsrm_outside.specs.Changes.{Same, Through};
ghost use Rattle.fsrm_outside.specs.Parts.{Parts};
ghost use Rattle.fsrm_outside.specs.Runs.{CrashSafe};
ghost use Rattle.fsrm_session.specs.Covers.{Covers};
ghost use Rattle.fsrm_session.specs.Members.{members};
ghost use Rattle.fsrm_session.specs.Turns.{script_turns};
ghost use Rattle.fsrm_store.specs.Init.{IsNew, MakesStore};
ghost use Rattle.made_script.specs.Lines.{made_lines};
ghost use Rattle.notice_text.specs.Outbox.{outbox_text};
ghost use Rattle.program_words.specs.Modes.{mode};
ghost use Rattle.program_words.specs.declared.modes.Mode.{Mode};
ghost use Rattle.program_words.specs.declared.modes.Mode.TheVariants.{Init, Replay, Show, Outbox, Work, Expire, Tick};
ghost use Rattle.fsrm_modes.specs.Answers.{most_taken, Fits, IsDoneOrNoMemory, IsIdleOver, IsQuiet, IsReadyOver, IsTooLong, ReadsNothing, Tells, WritesNothing};
ghost use Rattle.fsrm_modes.specs.Bytes.{TakenMost};
ghost use Rattle.fsrm_modes.specs.Expiry.{ask_of, expire_cost, expire_turns};
ghost use Rattle.fsrm_modes.specs.Looks.{FewForScript, FewForTurns, FewToShow};
ghost use Rattle.fsrm_modes.specs.OwnTurns.{TakesTurns};
ghost use Rattle.fsrm_modes.specs.Promises.{Begins, Replays, Shows};
ghost use Rattle.fsrm_modes.specs.Statuses.{KeepsDisk, KeepsReads, KeepsWrites};
ghost use Rattle.fsrm_modes.specs.Ticks.{tick_turns};
ghost use Rattle.fsrm_modes.specs.Views.{outbox_cost};
ghost use Rattle.fsrm_modes.specs.Working.{work_turns, FewForLines, Works};

use crate::expiring::ExpireAsk;
use crate::init::init;
use crate::show::{View, show};
use crate::status::Status;
use crate::tasks::{Task, serve};
use file_jobs::Expiry;
use fsrm_model::{Ledger, Steps};
use fsrm_outside::Outside;
use program_words::{Mode, WordsFault, read_words};
use std::alloc::Global;

/// Does what the words ask for: `init` makes a store, `replay` runs the script that the source has left over the store,
/// `show` writes the list of its quotas, `outbox` the latest notice of each action that ran at a moment or later,
/// `work` runs a script that is made from a number, `expire` moves old files of a folder into another one, and `tick`
/// runs the report jobs that are due.
///
/// Clauses on what is read, shown and kept hold if the devices tell it.
pub fn run<O: Outside, L: Ledger>(
    alloc: Global,
    words: &[String],
    outside: &mut O,
    steps: &mut Steps<L>,
) -> Status
    // ---- `replay`: what is shown begins the script's text, and at Done is all of it, and is kept.
    ensures replay { (group : ℕ) (K : Capacity) (R : Rows) (script before : List ℕ) → mode (map string_bytes words.now) ≡ Some (Replay group) → O.left outside.old ≡ Some script → Begins (members O.Source O.Sink O.Disk) K R before outside.old
        → Replays (members O.Source O.Sink O.Disk) K R result script before outside.old outside.new }
    // Up to some moment nothing is shown, and a crash leaves what it might have left at entry; from then on what is
    // kept of some first lines, which hold all whose replies are shown.
    ensures crash { (group : ℕ) (K : Capacity) (R : Rows) (script before : List ℕ) (start : ℕ) → mode (map string_bytes words.now) ≡ Some (Replay group) → O.left outside.old ≡ Some script → Begins (members O.Source O.Sink O.Disk) K R before outside.old
        → O.disk_clock outside.old ≡ Some start → O.sink_clock outside.old ≡ Some start → CrashSafe (members O.Source O.Sink O.Disk) (Covers K R (script_turns K script)) start outside.old outside.new }
    // ---- `show`: the list of all quotas.
    ensures show { (K : Capacity) (R : Rows) (before : List ℕ) → mode (map string_bytes words.now) ≡ Some Show → Begins (members O.Source O.Sink O.Disk) K R before outside.old
        → Shows (members O.Source O.Sink O.Disk) (list_lines K R (Quotas None)) result before outside.new }
    // ---- `outbox`: two lines for each notice since a moment, with its text as the macros in it stand for what the
    // store holds.
    ensures outbox { (since : ℕ) (K : Capacity) (R : Rows) (before : List ℕ) → mode (map string_bytes words.now) ≡ Some (Outbox since) → Begins (members O.Source O.Sink O.Disk) K R before outside.old
        → Shows (members O.Source O.Sink O.Disk) (outbox_text K R since) result before outside.new }
    // Neither of the two writes anything to the disk.
    ensures unwritten { (asked : Mode) → mode (map string_bytes words.now) ≡ Some asked → WritesNothing asked → (O.reads outside.new ≡ O.reads outside.old) × Through O.disk_clock O.images Same outside.old outside.new }
    // ---- `work`: the line that sums up the replies to a made script; at Done the store keeps the rows after the
    // script.
    ensures work { (seed count : ℕ) (K : Capacity) (R : Rows) (before : List ℕ) → mode (map string_bytes words.now) ≡ Some (Work seed count) → Begins (members O.Source O.Sink O.Disk) K R before outside.old
        → Works (members O.Source O.Sink O.Disk) K R result seed count before outside.new }
    // What a crash leaves is as of `replay`: the line is shown once all lines of the script are kept.
    ensures work_crash { (seed count : ℕ) (K : Capacity) (R : Rows) (before : List ℕ) (start : ℕ) → mode (map string_bytes words.now) ≡ Some (Work seed count) → Begins (members O.Source O.Sink O.Disk) K R before outside.old
        → O.disk_clock outside.old ≡ Some start → O.sink_clock outside.old ≡ Some start → CrashSafe (members O.Source O.Sink O.Disk) (Covers K R (work_turns K R seed count)) start outside.old outside.new }
    // ---- `expire`: each file that expires over the rows at entry is told and moved, in the order of their numbers.
    ensures expire { (from to : List (List ℕ)) (days : ℕ) (pattern : List ℕ) (moment : ℕ) (K : Capacity) (R : Rows) (before : List ℕ) → mode (map string_bytes words.now) ≡ Some (Expire from to days pattern moment) → Begins (members O.Source O.Sink O.Disk) K R before outside.old
        → TakesTurns (members O.Source O.Sink O.Disk) K R result (expire_turns K R (ask_of from to days pattern moment)) before outside.new }
    // What a crash leaves is as of `replay`: each move is kept before its reply is shown.
    ensures expire_crash { (from to : List (List ℕ)) (days : ℕ) (pattern : List ℕ) (moment : ℕ) (K : Capacity) (R : Rows) (before : List ℕ) (start : ℕ) → mode (map string_bytes words.now) ≡ Some (Expire from to days pattern moment) → Begins (members O.Source O.Sink O.Disk) K R before outside.old
        → O.disk_clock outside.old ≡ Some start → O.sink_clock outside.old ≡ Some start → CrashSafe (members O.Source O.Sink O.Disk) (Covers K R (expire_turns K R (ask_of from to days pattern moment))) start outside.old outside.new }
    // ---- `tick`: the report jobs that are due over the rows at entry run, in the order of their numbers.
    ensures tick { (moment : ℕ) (K : Capacity) (R : Rows) (before : List ℕ) → mode (map string_bytes words.now) ≡ Some (Tick moment) → Begins (members O.Source O.Sink O.Disk) K R before outside.old
        → TakesTurns (members O.Source O.Sink O.Disk) K R result (tick_turns K R moment) before outside.new }
    // What a crash leaves is as of `replay`: each run is kept before its reply is shown.
    ensures tick_crash { (moment : ℕ) (K : Capacity) (R : Rows) (before : List ℕ) (start : ℕ) → mode (map string_bytes words.now) ≡ Some (Tick moment) → Begins (members O.Source O.Sink O.Disk) K R before outside.old
        → O.disk_clock outside.old ≡ Some start → O.sink_clock outside.old ≡ Some start → CrashSafe (members O.Source O.Sink O.Disk) (Covers K R (tick_turns K R moment)) start outside.old outside.new }
    // ---- `init`: a new store of this size, and nothing is shown.
    ensures made { (size : Capacity) (parts : Parts) → mode (map string_bytes words.now) ≡ Some (Init size) → O.reads outside.old ≡ Some parts → result ≡ Status.Done → IsNew O.reads O.disk_clock O.images size outside.new }
    ensures making { (size : Capacity) (parts : Parts) → mode (map string_bytes words.now) ≡ Some (Init size) → O.reads outside.old ≡ Some parts → MakesStore O.disk_clock O.images size outside.old outside.new }
    ensures unshown { (size : Capacity) → mode (map string_bytes words.now) ≡ Some (Init size) → O.shown outside.new ≡ O.shown outside.old }
    ensures untouched { (size : Capacity) → mode (map string_bytes words.now) ≡ Some (Init size) → result ≡ Status.NoMemory → outside.new ≡ outside.old }

    // ---- each answer has its cause. Usage: the words ask for nothing.
    ensures usage { result ≡ Status.Usage → mode (map string_bytes words.now) ≡ None }
    ensures asked { mode (map string_bytes words.now) ≡ None → (result ≡ Status.Usage) ⊎ (result ≡ Status.NoMemory) }
    ensures idle { mode (map string_bytes words.now) ≡ None → outside.new ≡ outside.old }
    // A mode answers only what fits it.
    ensures fits { (asked : Mode) → mode (map string_bytes words.now) ≡ Some asked → Fits asked result }
    // NoStore, Damaged and AlreadyStore tell of what the disk holds at entry, which then stays as it is.
    ensures store { (asked : Mode) (parts : Parts) → mode (map string_bytes words.now) ≡ Some asked → O.reads outside.old ≡ Some parts → Tells asked parts result }
    ensures quiet { (asked : Mode) (parts : Parts) → mode (map string_bytes words.now) ≡ Some asked → O.reads outside.old ≡ Some parts → IsIdleOver asked parts → IsQuiet (members O.Source O.Sink O.Disk) outside.old outside.new }
    // TooLong exactly if 2^32 bytes were taken, and one more. At every other status no more than 2^32 were taken.
    ensures too_long { ForSome (O.left outside.old) (λ script. (result ≡ Status.TooLong) ↔ IsTooLong script (O.left outside.new)) }
    ensures taken { TakenMost (O.left outside.old) (O.left outside.new) (most_taken result) }
    ensures left { (asked : Mode) → mode (map string_bytes words.now) ≡ Some asked → ReadsNothing asked → O.left outside.new ≡ O.left outside.old }
    // A fault of a device: a call of it failed, and was counted.
    ensures read_fault { result ≡ Status.ReadFault → Rose (O.read_faults outside.old) (O.read_faults outside.new) }
    ensures write_fault { result ≡ Status.WriteFault → Rose (O.write_faults outside.old) (O.write_faults outside.new) }
    ensures disk_fault { result ≡ Status.DiskFault → Rose (O.disk_faults outside.old) (O.disk_faults outside.new) }
    // A call that failed is told, unless it failed as what was held was made stable, after another status had come.
    ensures reads_kept { KeepsReads result (O.read_faults outside.old) (O.read_faults outside.new) }
    ensures writes_kept { KeepsWrites result (O.write_faults outside.old) (O.write_faults outside.new) }
    ensures disk_kept { KeepsDisk result (O.disk_faults outside.old) (O.disk_faults outside.new) }
    // Over devices that don't fail all is done, unless memory runs out or the script has more than 2^32 bytes.
    ensures complete { (asked : Mode) (parts : Parts) (script : List ℕ) → mode (map string_bytes words.now) ≡ Some asked → O.reads outside.old ≡ Some parts → O.left outside.old ≡ Some script → IsReadyOver asked parts → length script ≤ longest_script
        → (Rose (O.read_faults outside.old) (O.read_faults outside.new) → ⊥) → (Rose (O.write_faults outside.old) (O.write_faults outside.new) → ⊥) → (Rose (O.disk_faults outside.old) (O.disk_faults outside.new) → ⊥) → IsDoneOrNoMemory result }
    // ---- looks at nodes: those for opening the store, and those of the script's lines, of the list or of the notices;
    // and for each 1 MiB of records 2 for each node. `init` takes none, nor do words that ask for nothing.
    ensures looks { (group : ℕ) (K : Capacity) (R : Rows) (script before : List ℕ) → mode (map string_bytes words.now) ≡ Some (Replay group) → O.left outside.old ≡ Some script → (begins : Begins (members O.Source O.Sink O.Disk) K R before outside.old)
        → FewForScript begins.parts K R script steps.old steps.new }
    ensures show_looks { (K : Capacity) (R : Rows) (before : List ℕ) → mode (map string_bytes words.now) ≡ Some Show → (begins : Begins (members O.Source O.Sink O.Disk) K R before outside.old) → FewToShow begins.parts (list_cost R (Quotas None)) steps.old steps.new }
    ensures outbox_looks { (since : ℕ) (K : Capacity) (R : Rows) (before : List ℕ) → mode (map string_bytes words.now) ≡ Some (Outbox since) → (begins : Begins (members O.Source O.Sink O.Disk) K R before outside.old) → FewToShow begins.parts (outbox_cost R since) steps.old steps.new }
    ensures work_looks { (seed count : ℕ) (K : Capacity) (R : Rows) (before : List ℕ) → mode (map string_bytes words.now) ≡ Some (Work seed count) → (begins : Begins (members O.Source O.Sink O.Disk) K R before outside.old) → FewForLines begins.parts K R (made_lines seed count) steps.old steps.new }
    ensures expire_looks { (from to : List (List ℕ)) (days : ℕ) (pattern : List ℕ) (moment : ℕ) (K : Capacity) (R : Rows) (before : List ℕ) → mode (map string_bytes words.now) ≡ Some (Expire from to days pattern moment) → (begins : Begins (members O.Source O.Sink O.Disk) K R before outside.old)
        → FewForTurns begins.parts R (expire_turns K R (ask_of from to days pattern moment)) (expire_cost K R (ask_of from to days pattern moment)) steps.old steps.new }
    ensures tick_looks { (moment : ℕ) (K : Capacity) (R : Rows) (before : List ℕ) → mode (map string_bytes words.now) ≡ Some (Tick moment) → (begins : Begins (members O.Source O.Sink O.Disk) K R before outside.old) → FewForTurns begins.parts R (tick_turns K R moment) 0 steps.old steps.new }
    ensures init_looks { (size : Capacity) → mode (map string_bytes words.now) ≡ Some (Init size) → steps.new ≡ steps.old }
    ensures no_looks { mode (map string_bytes words.now) ≡ None → steps.new ≡ steps.old }
{
    match read_words(alloc, words) {
        Ok(Mode::Init { size }) => init(alloc, outside, size),
        Ok(Mode::Replay { group }) => serve(alloc, outside, Task::Script { group }, steps),
        Ok(Mode::Show) => show(alloc, outside, View::Quotas, steps),
        Ok(Mode::Outbox { since }) => show(alloc, outside, View::Outbox { since }, steps),
        Ok(Mode::Work { seed, count }) => serve(alloc, outside, Task::Made { seed, count }, steps),
        Ok(
            Mode::Expire {
                from,
                to,
                days,
                pattern,
                moment,
            },
        ) => {
            let expiry = Expiry {
                days,
                pattern,
                moment,
            };
            let ask = ExpireAsk { from, to, expiry };
            serve(alloc, outside, Task::Moves(&ask), steps)
        }
        Ok(Mode::Tick { moment }) => serve(alloc, outside, Task::Jobs { moment }, steps),
        Err(WordsFault::Usage) => Status::Usage,
        Err(WordsFault::NoMemory) => Status::NoMemory,
    }
}
