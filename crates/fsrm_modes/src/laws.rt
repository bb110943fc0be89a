//! What is proved of runs that follow one another.

ghost use Rattle.std.specs.Prelude.{◌≡◌, ◌↔◌, ◌+◌, ◌≤◌, ◌==◌, ◌++◌, ℕ, List, length, map, None, Some, true};
ghost use Rattle.std.specs.List.{list_all, list_any};
ghost use Rattle.fsrm_model.specs.declared.row.Capacity.{Capacity};
ghost use Rattle.fsrm_model.specs.declared.row.JobRow.{JobRow};
ghost use Rattle.fsrm_model.specs.declared.row.Rows.{Rows};
ghost use Rattle.fsrm_model.specs.lines.Script.{fold_from, lines, text};
ghost use Rattle.fsrm_model.specs.nodes.FileOps.{target};
ghost use Rattle.fsrm_model.specs.nodes.Leads.{leads_to_folder};
ghost use Rattle.fsrm_model.specs.objects.Jobs.{job_of};
ghost use Rattle.fsrm_model.specs.store.Lasting.{lasting};
ghost use Rattle.fsrm_model.specs.store.Valid.{is_moment, IsValid};
ghost use Rattle.fsrm_outside.specs.Parts.{Parts};
ghost use Rattle.fsrm_outside.specs.Runs.{CrashSafe};
ghost use Rattle.fsrm_store.specs.States.{state_of};
ghost use Rattle.fsrm_store.specs.States.State.{Holds};
ghost use Rattle.fsrm_session.specs.Covers.{Covers};
ghost use Rattle.fsrm_session.specs.Members.{members};
ghost use Rattle.fsrm_session.specs.Turns.{rows_after, script_turns, text_of, Turn};
ghost use Rattle.report_schedule.specs.DueJobs.{due_numbers};
ghost use Rattle.report_schedule.specs.Ticks.{after_ticks, Ascend, IsFirstAt};
ghost use Rattle.fsrm_modes.specs.Expiry.{expire_turns, expired_files, ExpireAsk, Places};
ghost use Rattle.fsrm_modes.specs.Promises.{Begins};
ghost use Rattle.fsrm_modes.specs.Ticks.{after_runs, tick_turns, IsTicked};

use fsrm_outside::Outside;

/// What a crash leaves of a run is a store, of the rows that are kept after some first turns, and whatever was shown is
/// of these. A later run that reads it begins with exactly these rows.
pub fn a_later_run<O: Outside>()
    ensures found { (K : Capacity) (R : Rows) (turns : List Turn) (shown : ℕ) (parts : Parts) → Covers K R turns shown parts
        → (done : List Turn) × (rest : List Turn) × (turns ≡ done ++ rest) × (state_of parts ≡ Holds K (lasting (rows_after R done))) × (shown ≤ length (text_of R done)) }
    ensures begins { (K L : Capacity) (R Q : Rows) (turns : List Turn) (shown : ℕ) (before : List ℕ) (old : O) → (b : Begins (members O.Source O.Sink O.Disk) L Q before old) → Covers K R turns shown b.parts
        → (L ≡ K) × ((done : List Turn) × (rest : List Turn) × (turns ≡ done ++ rest) × (Q ≡ lasting (rows_after R done)) × (shown ≤ length (text_of R done))) }
{}

/// If each image of the disk at entry holds the rows that a run begins with, as after a run whose rows are all kept,
/// then what the run shows is kept at each moment of it, and not only from its first call of the disk on.
pub fn a_run_over_kept_rows<O: Outside>()
    ensures { (K : Capacity) (R : Rows) (turns : List Turn) (start : ℕ) (old new : O) → ((kept : Parts) → O.images old start kept → state_of kept ≡ Holds K R) → CrashSafe (members O.Source O.Sink O.Disk) (Covers K R turns) start old new
        → (t m : ℕ) (parts : Parts) → O.disk_clock new ≡ Some t → start ≤ m → m ≤ t → O.images new m parts
        → (shown : ℕ) → length (O.shown_at new m) ≡ length (O.shown_at old start) + shown → Covers K R turns shown parts }
{}

/// Where the whole text of a script is shown, as after a run of `replay` that ended as `Done`, each image holds what is
/// kept of the rows after all its lines. So the next run begins over such a disk.
pub fn a_whole_run()
    ensures { (K : Capacity) (R : Rows) (script : List ℕ) (shown : ℕ) (parts : Parts) → Covers K R (script_turns K script) shown parts → length (text K R script) ≤ shown → state_of parts ≡ Holds K (lasting (fold_from K R 1 (lines script))) }
{}

/// After a run that moves old files each of them stands in the folder, or a line of the run's text tells that it is
/// skipped or why its move was refused. No other node changes, and no name.
pub fn old_files_are_moved()
    ensures { (K : Capacity) (R : Rows) (ask : ExpireAsk) → IsValid K R → is_moment ask.expiry.moment ≡ true → leads_to_folder R.nodes ask.from ≡ true → leads_to_folder R.nodes ask.to ≡ true
        → Places K R (rows_after R (expire_turns K R ask)) (target R.nodes ask.to) ask.expiry.moment (expired_files R ask) (text_of R (expire_turns K R ask)) }
{}

/// After a run of the report jobs that are due, each of them has this moment as its last run, and every other job is as
/// it was. After such runs one after the other the jobs are what the ticks make of them. So a job that hadn't run
/// before them all is due at the next one exactly if that is the first one at or after a moment of its schedule.
pub fn jobs_after_a_tick()
    ensures tick { (K : Capacity) (R : Rows) (moment : ℕ) → IsValid K R → is_moment moment ≡ true → R.last_moment ≤ moment → IsTicked moment R (rows_after R (tick_turns K R moment)) }
    ensures ticks { (K : Capacity) (R : Rows) (moments : List ℕ) → IsValid K R → list_all is_moment moments ≡ true → Ascend R.last_moment moments → (after_runs K R moments).jobs ≡ map (λ job. after_ticks job moments) R.jobs }
    ensures first { (K : Capacity) (R : Rows) (before : List ℕ) (tick number : ℕ) (job : JobRow) → IsValid K R → list_all is_moment before ≡ true → Ascend R.last_moment before → job_of R.jobs number ≡ Some job → job.last_run ≡ None
        → (list_any (λ due. due == number) (due_numbers tick (after_runs K R before).jobs) ≡ true) ↔ IsFirstAt job before tick }
{}
