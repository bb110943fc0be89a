//! Moves old files into a folder.

ghost use Rattle.std.specs.Prelude.{◌≡◌, ◌≤◌, ◌+◌, ◌*◌, length, [], ◌∷◌, true, false, codes, decimal, Some, OnOk, IsErrOf, MatchOption, MatchResult};
ghost use Rattle.fsrm_model.specs.commands.Cost.{path_cost};
ghost use Rattle.fsrm_model.specs.nodes.FileOps.{target};
ghost use Rattle.fsrm_model.specs.nodes.Leads.{leads_to_folder};
ghost use Rattle.fsrm_model.specs.nodes.Tree.{is_folder};
ghost use Rattle.fsrm_model.specs.store.Valid.{is_moment};
ghost use Rattle.fsrm_model.specs.texts.Printed.{line_of};
ghost use Rattle.fsrm_session.specs.Counts.{Counts};
ghost use Rattle.fsrm_session.specs.Members.{members};
ghost use Rattle.fsrm_session.specs.Spending.{bytes_after, Spends};
ghost use Rattle.fsrm_session.specs.Turns.{said_turn};
ghost use Rattle.fsrm_session.specs.Underway.{CanFlush, CanTake, Goes, Stops};
ghost use Rattle.file_jobs.specs.Moves.{is_file, move_of, moved_path, AreFiles};
ghost use Rattle.fsrm_modes.specs.Expiry.{expire_cost, expire_turns, file_cost, file_turns, files_cost, files_turns, move_line, moving_turn, skipped_line};

use crate::answering::take_read;
use file_jobs::{Expiry, move_of, plan};
use fsrm_engine::Engine;
use fsrm_model::{Command, Deed, Ledger, NoMemory, Path, Refusal, Steps};
use fsrm_outside::Outside;
use fsrm_session::{Session, Stop};
use line_parts::Part;
use std::alloc::Global;

/// Which files are moved where.
#[derive(Drop)]
pub struct ExpireAsk {
    /// The folder whose files are moved.
    pub from: Path,
    /// The folder that they are moved into.
    pub to: Path,
    /// Which files these are. They are moved at its moment.
    pub expiry: Expiry,
}

// How files are moved.
#[derive(Drop)]
struct Mover {
    alloc: Global,
    folder: u32,
    moment: u64,
}

// The folder that a path leads to.
fn folder_at<L: Ledger>(engine: &Engine, path: &Path, steps: &mut Steps<L>) -> Option<u32>
    ensures leads { MatchOption result (leads_to_folder engine.now.rows.nodes path.now ≡ false) (λ folder. (leads_to_folder engine.now.rows.nodes path.now ≡ true) × (folder ≡ target engine.now.rows.nodes path.now) × (is_folder engine.now.rows.nodes folder ≡ true)) }
    ensures looks { steps.new ≤ steps.old + (22 * length path.now + 2) }
{
    let tree = engine.tree();
    let node = tree.resolve(path, steps)?;
    if tree.node(node, steps).folder {
        Some(node)
    } else {
        None
    }
}

/// Moves the old files of a folder into another one, each by a command. The files are those that expire over the rows
/// at entry, in the order of their numbers; the K-th one, from 1 on, is told as `K move PATH`, and then the reply has
/// the number K. A file whose two paths have more than 65,000 bytes together is skipped. If one of the two folders
/// isn't there, nothing but `0 refused PathNotFound` is told.
pub fn move_expired<O: Outside, L: Ledger>(
    session: &mut Session,
    outside: &mut O,
    alloc: Global,
    ask: &ExpireAsk,
    steps: &mut Steps<L>,
) -> Result<(), Stop>
    requires moment { is_moment ask.now.expiry.moment ≡ true }
    requires ready { CanTake O.reads session.old outside.old }
    ensures runs { MatchResult result (λ _. Goes (members O.Source O.Sink O.Disk) (expire_turns session.old.store.engine.size session.old.store.engine.rows ask.now) session.old session.new outside.old outside.new) (λ stop. Stops (members O.Source O.Sink O.Disk) stop (expire_turns session.old.store.engine.size session.old.store.engine.rows ask.now) session.old session.new outside.old outside.new) }
    ensures ready { OnOk result (CanTake O.reads session.new outside.new) }
    ensures memory { IsErrOf result Stop.NoMemory → CanFlush O.reads session.new outside.new }
    ensures counts { Counts result (O.write_faults outside.old) (O.write_faults outside.new) (O.disk_faults outside.old) (O.disk_faults outside.new) }
    ensures reads { O.read_faults outside.new ≡ O.read_faults outside.old }
    ensures left { O.left outside.new ≡ O.left outside.old }
    ensures looks { Spends (members O.Source O.Sink O.Disk) (expire_turns session.old.store.engine.size session.old.store.engine.rows ask.now) session.old outside.old (steps.old + expire_cost session.old.store.engine.size session.old.store.engine.rows ask.now) steps.new (bytes_after result session.new) }
{
    let engine = session.engine();
    let Some(from) = folder_at(engine, &ask.from, steps) else {
        return session.refuse(outside, 0, Refusal::PathNotFound, steps);
    };
    let Some(folder) = folder_at(engine, &ask.to, steps) else {
        return session.refuse(outside, 0, Refusal::PathNotFound, steps);
    };
    let Ok(files) = plan(alloc, engine, from, folder, &ask.expiry, steps) else {
        return Err(Stop::NoMemory);
    };
    let mover = Mover {
        alloc,
        folder,
        moment: ask.expiry.moment,
    };
    move_files(session, outside, &mover, &files, steps)
}

// Moves files, which are told by their places in the list, from 1 on.
fn move_files<O: Outside, L: Ledger>(
    session: &mut Session,
    outside: &mut O,
    mover: &Mover,
    files: &[u32],
    steps: &mut Steps<L>,
) -> Result<(), Stop>
    requires moment { is_moment mover.now.moment ≡ true }
    requires files { AreFiles session.old.store.engine.rows.nodes files.now }
    requires folder { is_folder session.old.store.engine.rows.nodes mover.now.folder ≡ true }
    requires ready { CanTake O.reads session.old outside.old }
    ensures runs { MatchResult result (λ _. Goes (members O.Source O.Sink O.Disk) (files_turns session.old.store.engine.size session.old.store.engine.rows mover.now.folder mover.now.moment 1 files.now) session.old session.new outside.old outside.new) (λ stop. Stops (members O.Source O.Sink O.Disk) stop (files_turns session.old.store.engine.size session.old.store.engine.rows mover.now.folder mover.now.moment 1 files.now) session.old session.new outside.old outside.new) }
    ensures ready { OnOk result (CanTake O.reads session.new outside.new) }
    ensures memory { IsErrOf result Stop.NoMemory → CanFlush O.reads session.new outside.new }
    ensures counts { Counts result (O.write_faults outside.old) (O.write_faults outside.new) (O.disk_faults outside.old) (O.disk_faults outside.new) }
    ensures reads { O.read_faults outside.new ≡ O.read_faults outside.old }
    ensures left { O.left outside.new ≡ O.left outside.old }
    ensures looks { Spends (members O.Source O.Sink O.Disk) (files_turns session.old.store.engine.size session.old.store.engine.rows mover.now.folder mover.now.moment 1 files.now) session.old outside.old (steps.old + files_cost session.old.store.engine.size session.old.store.engine.rows mover.now.folder mover.now.moment 1 files.now) steps.new (bytes_after result session.new) }
{
    for place in 0..files.len() {
        move_file(
            session,
            outside,
            mover,
            place as u64 + 1,
            files[place],
            steps,
        )?;
    }
    Ok(())
}

// Tells which file is to be moved, and moves it.
fn move_file<O: Outside, L: Ledger>(
    session: &mut Session,
    outside: &mut O,
    mover: &Mover,
    number: u64,
    node: u32,
    steps: &mut Steps<L>,
) -> Result<(), Stop>
    requires moment { is_moment mover.now.moment ≡ true }
    requires file { is_file session.old.store.engine.rows.nodes node ≡ true }
    requires folder { is_folder session.old.store.engine.rows.nodes mover.now.folder ≡ true }
    requires ready { CanTake O.reads session.old outside.old }
    ensures runs { MatchResult result (λ _. Goes (members O.Source O.Sink O.Disk) (file_turns session.old.store.engine.size session.old.store.engine.rows mover.now.folder mover.now.moment number node) session.old session.new outside.old outside.new) (λ stop. Stops (members O.Source O.Sink O.Disk) stop (file_turns session.old.store.engine.size session.old.store.engine.rows mover.now.folder mover.now.moment number node) session.old session.new outside.old outside.new) }
    ensures ready { OnOk result (CanTake O.reads session.new outside.new) }
    ensures memory { IsErrOf result Stop.NoMemory → CanFlush O.reads session.new outside.new }
    ensures counts { Counts result (O.write_faults outside.old) (O.write_faults outside.new) (O.disk_faults outside.old) (O.disk_faults outside.new) }
    ensures reads { O.read_faults outside.new ≡ O.read_faults outside.old }
    ensures left { O.left outside.new ≡ O.left outside.old }
    ensures size { OnOk result (session.new.store.engine.size ≡ session.old.store.engine.size) }
    ensures rows { OnOk result (session.new.store.engine.rows ≡ (moving_turn session.old.store.engine.size number mover.now.moment (move_of session.old.store.engine.rows.nodes node mover.now.folder)).after session.old.store.engine.rows) }
    ensures looks { Spends (members O.Source O.Sink O.Disk) (file_turns session.old.store.engine.size session.old.store.engine.rows mover.now.folder mover.now.moment number node) session.old outside.old (steps.old + file_cost session.old.store.engine.rows.nodes mover.now.folder node) steps.new (bytes_after result session.new) }
{
    say_move(session, outside, mover, number, node, steps)?;
    take_move(session, outside, mover, number, node, steps)
}

// Tells which file is to be moved.
fn say_move<O: Outside, L: Ledger>(
    session: &mut Session,
    outside: &mut O,
    mover: &Mover,
    number: u64,
    node: u32,
    steps: &mut Steps<L>,
) -> Result<(), Stop>
    requires file { is_file session.old.store.engine.rows.nodes node ≡ true }
    requires ready { CanTake O.reads session.old outside.old }
    ensures runs { MatchResult result (λ _. Goes (members O.Source O.Sink O.Disk) (said_turn (move_line session.old.store.engine.rows.nodes number node) ∷ []) session.old session.new outside.old outside.new) (λ stop. Stops (members O.Source O.Sink O.Disk) stop (said_turn (move_line session.old.store.engine.rows.nodes number node) ∷ []) session.old session.new outside.old outside.new) }
    ensures ready { OnOk result (CanTake O.reads session.new outside.new) }
    ensures memory { IsErrOf result Stop.NoMemory → CanFlush O.reads session.new outside.new }
    ensures counts { Counts result (O.write_faults outside.old) (O.write_faults outside.new) (O.disk_faults outside.old) (O.disk_faults outside.new) }
    ensures reads { O.read_faults outside.new ≡ O.read_faults outside.old }
    ensures left { O.left outside.new ≡ O.left outside.old }
    ensures engine { session.new.store.engine ≡ session.old.store.engine }
    ensures looks { Spends (members O.Source O.Sink O.Disk) (said_turn (move_line session.old.store.engine.rows.nodes number node) ∷ []) session.old outside.old (steps.old + path_cost session.old.store.engine.rows.nodes node) steps.new (bytes_after result session.new) }
{
    let Ok(path) = session.engine().path_text(mover.alloc, node, steps) else {
        return Err(Stop::NoMemory);
    };
    say_path(session, outside, number, path.as_str(), steps)
}

// Tells of a file, by its path, that it is to be moved.
fn say_path<O: Outside, L: Ledger>(
    session: &mut Session,
    outside: &mut O,
    number: u64,
    path: &str,
    steps: &mut Steps<L>,
) -> Result<(), Stop>
    requires ready { CanTake O.reads session.old outside.old }
    ensures runs { MatchResult result (λ _. Goes (members O.Source O.Sink O.Disk) (said_turn (line_of (decimal number ∷ codes "move" ∷ path.now ∷ [])) ∷ []) session.old session.new outside.old outside.new) (λ stop. Stops (members O.Source O.Sink O.Disk) stop (said_turn (line_of (decimal number ∷ codes "move" ∷ path.now ∷ [])) ∷ []) session.old session.new outside.old outside.new) }
    ensures ready { OnOk result (CanTake O.reads session.new outside.new) }
    ensures memory { IsErrOf result Stop.NoMemory → CanFlush O.reads session.new outside.new }
    ensures counts { Counts result (O.write_faults outside.old) (O.write_faults outside.new) (O.disk_faults outside.old) (O.disk_faults outside.new) }
    ensures reads { O.read_faults outside.new ≡ O.read_faults outside.old }
    ensures left { O.left outside.new ≡ O.left outside.old }
    ensures engine { session.new.store.engine ≡ session.old.store.engine }
    ensures looks { Spends (members O.Source O.Sink O.Disk) (said_turn (line_of (decimal number ∷ codes "move" ∷ path.now ∷ [])) ∷ []) session.old outside.old steps.old steps.new (bytes_after result session.new) }
{
    let line = [
        Part::Number(number),
        Part::Text(b" move "),
        Part::Text(path.as_bytes()),
        Part::Text(b"\n"),
    ];
    session.say(outside, &line, steps)
}

// Tells that a file is skipped.
fn say_skipped<O: Outside, L: Ledger>(
    session: &mut Session,
    outside: &mut O,
    number: u64,
    steps: &mut Steps<L>,
) -> Result<(), Stop>
    requires ready { CanTake O.reads session.old outside.old }
    ensures runs { MatchResult result (λ _. Goes (members O.Source O.Sink O.Disk) (said_turn (skipped_line number) ∷ []) session.old session.new outside.old outside.new) (λ stop. Stops (members O.Source O.Sink O.Disk) stop (said_turn (skipped_line number) ∷ []) session.old session.new outside.old outside.new) }
    ensures ready { OnOk result (CanTake O.reads session.new outside.new) }
    ensures memory { IsErrOf result Stop.NoMemory → CanFlush O.reads session.new outside.new }
    ensures counts { Counts result (O.write_faults outside.old) (O.write_faults outside.new) (O.disk_faults outside.old) (O.disk_faults outside.new) }
    ensures reads { O.read_faults outside.new ≡ O.read_faults outside.old }
    ensures left { O.left outside.new ≡ O.left outside.old }
    ensures engine { session.new.store.engine ≡ session.old.store.engine }
    ensures looks { Spends (members O.Source O.Sink O.Disk) (said_turn (skipped_line number) ∷ []) session.old outside.old steps.old steps.new (bytes_after result session.new) }
{
    let line = [Part::Number(number), Part::Text(b" skipped\n")];
    session.say(outside, &line, steps)
}

// Moves a file, or tells that it is skipped.
fn take_move<O: Outside, L: Ledger>(
    session: &mut Session,
    outside: &mut O,
    mover: &Mover,
    number: u64,
    node: u32,
    steps: &mut Steps<L>,
) -> Result<(), Stop>
    requires moment { is_moment mover.now.moment ≡ true }
    requires file { is_file session.old.store.engine.rows.nodes node ≡ true }
    requires folder { is_folder session.old.store.engine.rows.nodes mover.now.folder ≡ true }
    requires ready { CanTake O.reads session.old outside.old }
    ensures runs { MatchResult result (λ _. Goes (members O.Source O.Sink O.Disk) (moving_turn session.old.store.engine.size number mover.now.moment (move_of session.old.store.engine.rows.nodes node mover.now.folder) ∷ []) session.old session.new outside.old outside.new) (λ stop. Stops (members O.Source O.Sink O.Disk) stop (moving_turn session.old.store.engine.size number mover.now.moment (move_of session.old.store.engine.rows.nodes node mover.now.folder) ∷ []) session.old session.new outside.old outside.new) }
    ensures ready { OnOk result (CanTake O.reads session.new outside.new) }
    ensures memory { IsErrOf result Stop.NoMemory → CanFlush O.reads session.new outside.new }
    ensures counts { Counts result (O.write_faults outside.old) (O.write_faults outside.new) (O.disk_faults outside.old) (O.disk_faults outside.new) }
    ensures reads { O.read_faults outside.new ≡ O.read_faults outside.old }
    ensures left { O.left outside.new ≡ O.left outside.old }
    ensures size { OnOk result (session.new.store.engine.size ≡ session.old.store.engine.size) }
    ensures rows { OnOk result (session.new.store.engine.rows ≡ (moving_turn session.old.store.engine.size number mover.now.moment (move_of session.old.store.engine.rows.nodes node mover.now.folder)).after session.old.store.engine.rows) }
    ensures looks { Spends (members O.Source O.Sink O.Disk) (moving_turn session.old.store.engine.size number mover.now.moment (move_of session.old.store.engine.rows.nodes node mover.now.folder) ∷ []) session.old outside.old (steps.old + (path_cost session.old.store.engine.rows.nodes node + 4 * (length (moved_path session.old.store.engine.rows.nodes node mover.now.folder) + 1))) steps.new (bytes_after result session.new) }
{
    match move_of(mover.alloc, session.engine(), node, mover.folder, steps) {
        Ok(Some(op)) => {
            let command = Command {
                moment: mover.moment,
                deed: Deed::File(op),
            };
            take_read(session, outside, number, command, steps)
        }
        Ok(None) => say_skipped(session, outside, number, steps),
        Err(NoMemory) => Err(Stop::NoMemory),
    }
}
