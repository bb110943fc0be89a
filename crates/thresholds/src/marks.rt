//! The actions that ran and are to be handed out, and their log.

ghost use Rattle.std.specs.Prelude.{◌≡◌, ◌==◌, ◌+◌, ◌<◌, ◌≤◌, ◌&&◌, IfOk, IfSome, MatchOption, [], ◌∷◌, ◌++◌, Some, None, true, false, is_some, length, slice_get};
ghost use Rattle.std.specs.List.{list_all};
ghost use Rattle.std.specs.Option.{option_copied};
ghost use Rattle.fsrm_base.specs.Keyed.{has_row};
ghost use Rattle.fsrm_base.specs.Numbers.{is_set};
ghost use Rattle.fsrm_model.specs.objects.Acts.{act_before, is_of_quota};
ghost use Rattle.fsrm_model.specs.values.Limits.{most_entries};
ghost use Rattle.fsrm_model.specs.objects.Quota.{folder_of};
ghost use Rattle.fsrm_model.specs.objects.Runs.{last_entries};
ghost use Rattle.thresholds.specs.Marked.{act_at, action_at, all_waiting, are_screen_acts, are_there, most_marks, waiting};
ghost use Rattle.thresholds.specs.Settled.{Settles, are_orderly, due_in, ready_in, IsThreshold};

use crate::rules::{crosses, ready};
use crate::spot::{MOST_MARKS, Spot};
use circular_buffer::HeapCircularBuffer;
use fsrm_model::limits::{MOST_ACTIONS, MOST_ENTRIES};
use fsrm_model::{Act, ActRow, Action, NoMemory, QuotaRow, Subject, Threshold};
use fsrm_objects::Objects;
use number_set::NumberSet;
use std::alloc::Global;
use std::marker::Model;

/// The actions of quotas and of a screen that ran and weren't handed out yet, and the log of those that ran, its last
/// 1,024 entries. All is in memory that is reserved once. Contracts see the numbers of the marked actions of quotas,
/// ascending, the log, oldest first, and the places of the marked actions of one folder's screen, ascending.
#[derive(Drop)]
pub struct Marks {
    // An action's number is made of the places of its quota, of its threshold, and of its own. So numbers ascend as
    // acts do, and the least number is that of the act that comes next.
    numbers: NumberSet,
    pub(crate) log: HeapCircularBuffer<ActRow>,
    // A command is judged by one screen at most: its folder, and the places of those of its actions that are marked.
    pub(crate) folder: u32,
    pub(crate) places: HeapCircularBuffer<u16>,
}

impl Model for Marks {
    ghost use Rattle.thresholds.specs.Marked.{Marked};

    ghost Value = { Marked };

    ghost use Rattle.thresholds.specs.Kept.{IsKept};

    ghost view = { λ m. record { numbers = m.numbers.members; log = m.log.items; folder = m.folder; places = m.places.items } };

    ghost invariant = { λ m. IsKept m.numbers m.log m.places };
}

impl Marks {
    /// No action is marked, and the log is empty. There is room for as many as there may be of both.
    pub fn new(alloc: Global) -> Result<Marks, NoMemory>
        ensures { IfOk result (λ marks. marks ≡ record { numbers = []; log = []; folder = 0; places = [] }) }
    {
        let numbers = NumberSet::reserve(alloc, MOST_MARKS)?;
        let log = HeapCircularBuffer::with_capacity(alloc, MOST_ENTRIES)?;
        let places = HeapCircularBuffer::with_capacity(alloc, MOST_ACTIONS)?;
        Ok(Marks {
            numbers,
            log,
            folder: 0,
            places,
        })
    }

    /// Settles a folder's quota at a moment: of the thresholds that it reaches and didn't reach before, the actions
    /// that may run are marked, have the moment as their last run, and come into the log.
    ///
    /// `before` is the row as it was before the command; None says that its limit and thresholds stayed. What the quota
    /// used is None if it didn't count, or wasn't there. Of a quota that refuses a write, `used_after` is what it would
    /// have used then. `run_limit` is in minutes.
    pub fn settle(
        &mut self,
        objects: &mut Objects,
        folder: u32,
        before: Option<&QuotaRow>,
        used_before: Option<u64>,
        used_after: Option<u64>,
        run_limit: u32,
        moment: u64,
    )
        requires quota { has_row folder_of folder objects.old.quotas ≡ true }
        requires orderly { are_orderly objects.old.quotas ≡ true }
        requires marked { are_there objects.old.quotas self.old.numbers ≡ true }
        ensures settled { Settles self.old self.new objects.old objects.new moment (due_in objects.old (option_copied before.entry) used_before used_after run_limit moment folder) }
        ensures sorted { is_set self.new.numbers ≡ true }
    {
        self.kept();
        let quota = objects.quota_place(folder).unwrap();
        let count = objects.quota_at(quota).thresholds.len() as u32;
        for threshold in 0..count {
            let row = objects.quota_at(quota);
            let percent = threshold_at(row, threshold).percent;
            if crosses(row, percent, before, used_before, used_after) {
                self.run_ready(objects, quota, threshold, run_limit, moment);
            }
        }
    }

    // How marks are held, for methods that read no field of theirs: a read is what tells the checker.
    fn kept(&self)
        ensures sorted { is_set self.now.numbers ≡ true }
        ensures few { length self.now.log ≤ most_entries }
    {
        let _log = &self.log;
    }

    // Runs those actions of a threshold that may run. The quota and its threshold are named by their places.
    fn run_ready(
        &mut self,
        objects: &mut Objects,
        quota: u32,
        threshold: u32,
        run_limit: u32,
        moment: u64,
    )
        requires orderly { are_orderly objects.old.quotas ≡ true }
        requires threshold { IsThreshold objects.old.quotas quota threshold }
        requires marked { are_there objects.old.quotas self.old.numbers ≡ true }
        ensures settled { Settles self.old self.new objects.old objects.new moment (ready_in objects.old.quotas quota threshold run_limit moment) }
        ensures sorted { is_set self.new.numbers ≡ true }
    {
        self.kept();
        let count = threshold_at(objects.quota_at(quota), threshold)
            .actions
            .len() as u32;
        for action in 0..count {
            let spot = Spot {
                quota,
                threshold,
                action,
            };
            let number = spot.number();
            if ready(action_at(objects, number), run_limit, moment) {
                self.run(objects, number, moment);
            }
        }
    }

    // Has an action run, which is named by its number.
    fn run(&mut self, objects: &mut Objects, number: u32, moment: u64)
        requires orderly { are_orderly objects.old.quotas ≡ true }
        requires there { is_some (act_at objects.old.quotas number) ≡ true }
        requires marked { are_there objects.old.quotas self.old.numbers ≡ true }
        ensures settled { Settles self.old self.new objects.old objects.new moment (waiting objects.old.quotas (number ∷ [])) }
        ensures sorted { is_set self.new.numbers ≡ true }
    {
        let act = act_at(objects, number);
        let (folder, percent) = (act.subject.folder(), act.subject.percent());
        self.numbers.insert(number);
        self.log.push_back(ActRow {
            moment,
            folder,
            percent,
            kind: act.kind,
        });
        objects.set_run(folder, percent, act.place, moment);
    }

    /// Hands out the act of a marked action, which is marked no longer: first those of the screen, by their places,
    /// then those of quotas, in the order of folders, percentages and places. None exactly if none is marked.
    pub fn next(&mut self, objects: &Objects) -> Option<Act>
        requires orderly { are_orderly objects.now.quotas ≡ true }
        requires marked { are_there objects.now.quotas self.old.numbers ≡ true }
        requires screen { are_screen_acts objects.now.screens self.old ≡ true }
        ensures handed_out { MatchOption result (all_waiting objects.now self.old ≡ []) (λ act. all_waiting objects.now self.old ≡ act ∷ all_waiting objects.now self.new) }
        ensures first { IfSome result (λ act. is_of_quota act.subject ≡ true → list_all (act_before act) (waiting objects.now.quotas self.new.numbers) ≡ true) }
        ensures none { result ≡ None → self.new ≡ self.old }
        ensures marked { are_there objects.now.quotas self.new.numbers ≡ true }
        ensures screen { are_screen_acts objects.now.screens self.new ≡ true }
        ensures log { self.new.log ≡ self.old.log }
    {
        if let Some(act) = self.next_of_screen(objects) {
            return Some(act);
        }
        self.next_of_quota(objects)
    }

    // The same for the actions of quotas alone.
    fn next_of_quota(&mut self, objects: &Objects) -> Option<Act>
        requires orderly { are_orderly objects.now.quotas ≡ true }
        requires marked { are_there objects.now.quotas self.old.numbers ≡ true }
        ensures handed_out { MatchOption result (waiting objects.now.quotas self.old.numbers ≡ []) (λ act. waiting objects.now.quotas self.old.numbers ≡ act ∷ waiting objects.now.quotas self.new.numbers) }
        ensures first { IfSome result (λ act. list_all (act_before act) (waiting objects.now.quotas self.new.numbers) ≡ true) }
        ensures none { result ≡ None → self.new ≡ self.old }
        ensures marked { are_there objects.now.quotas self.new.numbers ≡ true }
        ensures others { self.new ≡ record self.old { numbers = self.new.numbers } }
    {
        let number = self.numbers.take_least()?;
        Some(act_at(objects, number))
    }

    /// Whether no action is marked.
    pub fn is_empty(&self) -> bool
        ensures { result ≡ ((length self.now.numbers == 0) && (length self.now.places == 0)) }
    {
        self.numbers.is_empty() && self.places.is_empty()
    }

    /// How many entries the log has, at most 1,024.
    pub fn log_len(&self) -> u32
        ensures length { result ≡ length self.now.log }
        ensures few { result ≤ most_entries }
    {
        self.log.len() as u32
    }

    /// The entry of the log at a place, from 0, the oldest first.
    pub fn log_at(&self, place: u32) -> ActRow
        requires { place < length self.now.log }
        ensures { slice_get self.now.log place ≡ Some result }
    {
        *self.log.get(place as usize).unwrap()
    }

    /// Adds an entry to the log, which then keeps its last 1,024. It marks no action.
    pub fn keep(&mut self, row: ActRow)
        ensures { self.new ≡ record self.old { log = last_entries (self.old.log ++ row ∷ []) } }
    {
        self.log.push_back(row);
    }
}

// A quota's threshold at a place.
fn threshold_at(quota: &QuotaRow, place: u32) -> &Threshold
    requires { place < length quota.now.thresholds }
    ensures { slice_get quota.now.thresholds place ≡ Some result.now }
{
    quota.thresholds.get(place as usize).unwrap()
}

// The action that a number names.
fn action_at(objects: &Objects, number: u32) -> &Action
    requires { is_some (act_at objects.now.quotas number) ≡ true }
    ensures { action_at objects.now.quotas number ≡ Some result.now }
{
    let spot = Spot::of(number);
    let threshold = threshold_at(objects.quota_at(spot.quota), spot.threshold);
    threshold.actions.get(spot.action as usize).unwrap()
}

// The act of this action.
fn act_at(objects: &Objects, number: u32) -> Act
    requires { is_some (act_at objects.now.quotas number) ≡ true }
    ensures { act_at objects.now.quotas number ≡ Some result }
{
    let spot = Spot::of(number);
    let quota = objects.quota_at(spot.quota);
    Act {
        subject: Subject::Quota {
            folder: quota.folder,
            percent: threshold_at(quota, spot.threshold).percent,
        },
        place: spot.action as u16,
        kind: action_at(objects, number).kind,
    }
}
