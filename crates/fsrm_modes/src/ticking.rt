//! Runs the report jobs that are due.

ghost use Rattle.std.specs.Prelude.{◌≡◌, ◌+◌, [], ◌∷◌, true, OnOk, IsErrOf, MatchResult};
ghost use Rattle.std.specs.List.{list_all};
ghost use Rattle.fsrm_model.specs.store.Valid.{is_moment};
ghost use Rattle.fsrm_model.specs.store.Valued.{is_command};
ghost use Rattle.fsrm_session.specs.Counts.{Counts};
ghost use Rattle.fsrm_session.specs.Members.{members};
ghost use Rattle.fsrm_session.specs.Spending.{bytes_after, Spends};
ghost use Rattle.fsrm_session.specs.Underway.{CanFlush, CanTake, Goes, Stops};
ghost use Rattle.report_schedule.specs.DueJobs.{due_runs, unread_names};
ghost use Rattle.fsrm_modes.specs.Ticks.{commands_turns, tick_turns, unread_turn, unread_turns};

use fsrm_base::Text;
use fsrm_model::{Command, Ledger, Steps};
use fsrm_outside::Outside;
use fsrm_session::{Session, Stop};
use line_parts::Part;
use report_schedule::{due_runs, unread_names};
use std::alloc::Global;

/// Tells the jobs whose texts spell no schedule, and then runs those that are due at a moment over the rows at entry,
/// in the order of their numbers; the reply to the K-th run, from 1 on, has the number K.
pub fn tell_and_run<O: Outside, L: Ledger>(
    session: &mut Session,
    outside: &mut O,
    alloc: Global,
    moment: u64,
    steps: &mut Steps<L>,
) -> Result<(), Stop>
    requires moment { is_moment moment ≡ true }
    requires ready { CanTake O.reads session.old outside.old }
    ensures runs { MatchResult result (λ _. Goes (members O.Source O.Sink O.Disk) (tick_turns session.old.store.engine.size session.old.store.engine.rows moment) session.old session.new outside.old outside.new) (λ stop. Stops (members O.Source O.Sink O.Disk) stop (tick_turns session.old.store.engine.size session.old.store.engine.rows moment) session.old session.new outside.old outside.new) }
    ensures ready { OnOk result (CanTake O.reads session.new outside.new) }
    ensures memory { IsErrOf result Stop.NoMemory → CanFlush O.reads session.new outside.new }
    ensures counts { Counts result (O.write_faults outside.old) (O.write_faults outside.new) (O.disk_faults outside.old) (O.disk_faults outside.new) }
    ensures reads { O.read_faults outside.new ≡ O.read_faults outside.old }
    ensures left { O.left outside.new ≡ O.left outside.old }
    ensures looks { Spends (members O.Source O.Sink O.Disk) (tick_turns session.old.store.engine.size session.old.store.engine.rows moment) session.old outside.old steps.old steps.new (bytes_after result session.new) }
{
    tell_unread(session, outside, alloc, steps)?;
    run_due(session, outside, alloc, moment, steps)
}

// Tells the jobs whose texts spell no schedule.
fn tell_unread<O: Outside, L: Ledger>(
    session: &mut Session,
    outside: &mut O,
    alloc: Global,
    steps: &mut Steps<L>,
) -> Result<(), Stop>
    requires ready { CanTake O.reads session.old outside.old }
    ensures runs { MatchResult result (λ _. Goes (members O.Source O.Sink O.Disk) (unread_turns (unread_names session.old.store.engine.rows.jobs)) session.old session.new outside.old outside.new) (λ stop. Stops (members O.Source O.Sink O.Disk) stop (unread_turns (unread_names session.old.store.engine.rows.jobs)) session.old session.new outside.old outside.new) }
    ensures ready { OnOk result (CanTake O.reads session.new outside.new) }
    ensures memory { IsErrOf result Stop.NoMemory → CanFlush O.reads session.new outside.new }
    ensures counts { Counts result (O.write_faults outside.old) (O.write_faults outside.new) (O.disk_faults outside.old) (O.disk_faults outside.new) }
    ensures reads { O.read_faults outside.new ≡ O.read_faults outside.old }
    ensures left { O.left outside.new ≡ O.left outside.old }
    ensures engine { OnOk result (session.new.store.engine ≡ session.old.store.engine) }
    ensures looks { Spends (members O.Source O.Sink O.Disk) (unread_turns (unread_names session.old.store.engine.rows.jobs)) session.old outside.old steps.old steps.new (bytes_after result session.new) }
{
    let Ok(names) = unread_names(alloc, session.engine().objects()) else {
        return Err(Stop::NoMemory);
    };
    say_names(session, outside, &names, steps)
}

// Tells of jobs, by their names, that their texts spell no schedule.
fn say_names<O: Outside, L: Ledger>(
    session: &mut Session,
    outside: &mut O,
    names: &[Text],
    steps: &mut Steps<L>,
) -> Result<(), Stop>
    requires ready { CanTake O.reads session.old outside.old }
    ensures runs { MatchResult result (λ _. Goes (members O.Source O.Sink O.Disk) (unread_turns names.now) session.old session.new outside.old outside.new) (λ stop. Stops (members O.Source O.Sink O.Disk) stop (unread_turns names.now) session.old session.new outside.old outside.new) }
    ensures ready { OnOk result (CanTake O.reads session.new outside.new) }
    ensures memory { IsErrOf result Stop.NoMemory → CanFlush O.reads session.new outside.new }
    ensures counts { Counts result (O.write_faults outside.old) (O.write_faults outside.new) (O.disk_faults outside.old) (O.disk_faults outside.new) }
    ensures reads { O.read_faults outside.new ≡ O.read_faults outside.old }
    ensures left { O.left outside.new ≡ O.left outside.old }
    ensures engine { OnOk result (session.new.store.engine ≡ session.old.store.engine) }
    ensures looks { Spends (members O.Source O.Sink O.Disk) (unread_turns names.now) session.old outside.old steps.old steps.new (bytes_after result session.new) }
{
    for place in 0..names.len() {
        say_name(session, outside, names[place].as_str(), steps)?;
    }
    Ok(())
}

// Tells it of one job.
fn say_name<O: Outside, L: Ledger>(
    session: &mut Session,
    outside: &mut O,
    name: &str,
    steps: &mut Steps<L>,
) -> Result<(), Stop>
    requires ready { CanTake O.reads session.old outside.old }
    ensures runs { MatchResult result (λ _. Goes (members O.Source O.Sink O.Disk) (unread_turn name.now ∷ []) session.old session.new outside.old outside.new) (λ stop. Stops (members O.Source O.Sink O.Disk) stop (unread_turn name.now ∷ []) session.old session.new outside.old outside.new) }
    ensures ready { OnOk result (CanTake O.reads session.new outside.new) }
    ensures memory { IsErrOf result Stop.NoMemory → CanFlush O.reads session.new outside.new }
    ensures counts { Counts result (O.write_faults outside.old) (O.write_faults outside.new) (O.disk_faults outside.old) (O.disk_faults outside.new) }
    ensures reads { O.read_faults outside.new ≡ O.read_faults outside.old }
    ensures left { O.left outside.new ≡ O.left outside.old }
    ensures engine { session.new.store.engine ≡ session.old.store.engine }
    ensures looks { Spends (members O.Source O.Sink O.Disk) (unread_turn name.now ∷ []) session.old outside.old steps.old steps.new (bytes_after result session.new) }
{
    let line = [
        Part::Text(b"  unread "),
        Part::Text(name.as_bytes()),
        Part::Text(b"\n"),
    ];
    session.say(outside, &line, steps)
}

// Runs the jobs that are due.
fn run_due<O: Outside, L: Ledger>(
    session: &mut Session,
    outside: &mut O,
    alloc: Global,
    moment: u64,
    steps: &mut Steps<L>,
) -> Result<(), Stop>
    requires moment { is_moment moment ≡ true }
    requires ready { CanTake O.reads session.old outside.old }
    ensures runs { MatchResult result (λ _. Goes (members O.Source O.Sink O.Disk) (commands_turns session.old.store.engine.size 1 (due_runs moment session.old.store.engine.rows.jobs)) session.old session.new outside.old outside.new) (λ stop. Stops (members O.Source O.Sink O.Disk) stop (commands_turns session.old.store.engine.size 1 (due_runs moment session.old.store.engine.rows.jobs)) session.old session.new outside.old outside.new) }
    ensures ready { OnOk result (CanTake O.reads session.new outside.new) }
    ensures memory { IsErrOf result Stop.NoMemory → CanFlush O.reads session.new outside.new }
    ensures counts { Counts result (O.write_faults outside.old) (O.write_faults outside.new) (O.disk_faults outside.old) (O.disk_faults outside.new) }
    ensures reads { O.read_faults outside.new ≡ O.read_faults outside.old }
    ensures left { O.left outside.new ≡ O.left outside.old }
    ensures looks { Spends (members O.Source O.Sink O.Disk) (commands_turns session.old.store.engine.size 1 (due_runs moment session.old.store.engine.rows.jobs)) session.old outside.old steps.old steps.new (bytes_after result session.new) }
{
    let Ok(runs) = due_runs(alloc, session.engine().objects(), moment) else {
        return Err(Stop::NoMemory);
    };
    take_commands(session, outside, &runs, steps)
}

// Takes commands, whose lines have the numbers from 1 on.
fn take_commands<O: Outside, L: Ledger>(
    session: &mut Session,
    outside: &mut O,
    commands: &[Command],
    steps: &mut Steps<L>,
) -> Result<(), Stop>
    requires valid { list_all is_command commands.now ≡ true }
    requires ready { CanTake O.reads session.old outside.old }
    ensures runs { MatchResult result (λ _. Goes (members O.Source O.Sink O.Disk) (commands_turns session.old.store.engine.size 1 commands.now) session.old session.new outside.old outside.new) (λ stop. Stops (members O.Source O.Sink O.Disk) stop (commands_turns session.old.store.engine.size 1 commands.now) session.old session.new outside.old outside.new) }
    ensures ready { OnOk result (CanTake O.reads session.new outside.new) }
    ensures memory { IsErrOf result Stop.NoMemory → CanFlush O.reads session.new outside.new }
    ensures counts { Counts result (O.write_faults outside.old) (O.write_faults outside.new) (O.disk_faults outside.old) (O.disk_faults outside.new) }
    ensures reads { O.read_faults outside.new ≡ O.read_faults outside.old }
    ensures left { O.left outside.new ≡ O.left outside.old }
    ensures looks { Spends (members O.Source O.Sink O.Disk) (commands_turns session.old.store.engine.size 1 commands.now) session.old outside.old steps.old steps.new (bytes_after result session.new) }
{
    for place in 0..commands.len() {
        session.take(outside, place as u64 + 1, &commands[place], steps)?;
    }
    Ok(())
}
