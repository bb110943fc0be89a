//! What screens do to a file operation: they judge the name that it gives a file. The active screen that judges a name
//! blocks it, and a passive one reports it.

ghost use Rattle.std.specs.Prelude.{◌≡◌, ◌+◌, ◌*◌, ◌≤◌, [], length, true, Some, None, option_map, if◌then◌else◌};
ghost use Rattle.fsrm_model.specs.declared.command.Outcome.TheVariants.{Done};
ghost use Rattle.fsrm_model.specs.declared.row.ScreenRow.{ScreenRow};
ghost use Rattle.fsrm_model.specs.values.Limits.{latest_moment, most_actions, most_entries};
ghost use Rattle.fsrm_model.specs.values.Name.{is_name};
ghost use Rattle.fsrm_model.specs.objects.Screens.{judging};
ghost use Rattle.fsrm_model.specs.nodes.Tree.{chain, is_folder};
ghost use Rattle.fsrm_model.specs.store.Valid.{IsValid};
ghost use Rattle.quota_usage.specs.Charge.{IsChange, Fits, height};
ghost use Rattle.thresholds.specs.Settled.{are_orderly};
ghost use Rattle.file_screens.specs.Blocked.{told};
ghost use Rattle.fsrm_parts.specs.Crossing.{IsCovered};
ghost use Rattle.fsrm_engine.specs.Machine.{charged_parts, AreCounted, IsIdle, IsReady, rows_of};
ghost use Rattle.fsrm_engine.specs.Reporting.{EndsNamed, Reports, name_under, screen_told};
ghost use Rattle.fsrm_engine.specs.Screening.{Blocks, NotesName, judged_screen};

use crate::parts::Parts;
use file_screens::{Blocked, blocked};
use fsrm_model::{Answer, Ledger, Outcome, Refusal, Steps};
use fsrm_parts::Place;
use quota_usage::Change;

impl Parts {
    /// The screen that judges a name which a file is given in a folder.
    pub(crate) fn judge<L: Ledger>(
        &self,
        folder: u32,
        name: &str,
        steps: &mut Steps<L>,
    ) -> Option<Blocked>
        requires store { IsValid self.now.tree.size (rows_of self.now) }
        requires folder { is_folder self.now.tree.nodes folder ≡ true }
        requires named { is_name name.now ≡ true }
        ensures judged { result ≡ option_map told (judging (rows_of self.now) folder name.now) }
        ensures looks { steps.new ≤ steps.old + 2 * length (chain self.now.tree.nodes folder) }
    {
        blocked(&self.tree, &self.objects, &self.groups, folder, name, steps)
    }

    /// The screen that judges the new name of a node that moves; none if that is a folder.
    pub(crate) fn judge_moved<L: Ledger>(
        &self,
        moves_folder: bool,
        folder: u32,
        name: &str,
        steps: &mut Steps<L>,
    ) -> Option<Blocked>
        requires store { IsValid self.now.tree.size (rows_of self.now) }
        requires folder { is_folder self.now.tree.nodes folder ≡ true }
        requires named { is_name name.now ≡ true }
        ensures judged { result ≡ (if moves_folder then None else option_map told (judging (rows_of self.now) folder name.now)) }
        ensures looks { steps.new ≤ steps.old + 2 * length (chain self.now.tree.nodes folder) }
    {
        if moves_folder {
            return None;
        }
        self.judge(folder, name, steps)
    }

    // Notes a name that a screen judges: its entry in the audit log, and the runs of the screen's actions. It takes no
    // memory.
    fn note(&mut self, judged: Blocked, owner: u32, folder: u32, name: &str, moment: u64)
        requires there { option_map told (judged_screen self.old judged) ≡ Some judged }
        requires few { (screen : ScreenRow) → judged_screen self.old judged ≡ Some screen → length screen.actions ≤ most_actions }
        requires named { is_name name.now ≡ true }
        requires none { self.old.marks.places ≡ [] }
        ensures noted { (screen : ScreenRow) → judged_screen self.old judged ≡ Some screen → NotesName self.old self.new (record { screen = screen; owner = owner; folder = folder; name = name.now }) moment }
    {
        self.audit
            .push(moment, judged.active, owner, folder, judged.screen, name);
        self.marks
            .settle_screen(&mut self.objects, judged.screen, self.run_limit, moment);
    }

    // Notes the name of a file operation that is done, if a passive screen judges it.
    fn report(&mut self, judged: Option<Blocked>, owner: u32, folder: u32, name: &str, moment: u64)
        requires there { option_map told (screen_told self.old judged) ≡ judged }
        requires few { (screen : ScreenRow) → screen_told self.old judged ≡ Some screen → length screen.actions ≤ most_actions }
        requires named { is_name name.now ≡ true }
        requires none { self.old.marks.places ≡ [] }
        ensures { Reports self.old self.new (name_under (screen_told self.old judged) owner folder name.now) moment }
    {
        if let Some(judged) = judged {
            self.note(judged, owner, folder, name, moment);
        }
    }

    /// Ends an operation that gave a file a name, once the tree and the scans have it: a passive screen may report the
    /// name, and then the change of the counters is made. The answer says that it was done.
    pub(crate) fn end_named<L: Ledger>(
        &mut self,
        judged: Option<Blocked>,
        owner: u32,
        place: Place<'_>,
        change: &Change,
        moment: u64,
        steps: &mut Steps<L>,
    ) -> Answer
        requires there { option_map told (screen_told self.old judged) ≡ judged }
        requires few { (screen : ScreenRow) → screen_told self.old judged ≡ Some screen → length screen.actions ≤ most_actions }
        requires named { is_name place.name.now ≡ true }
        requires quotas { are_orderly self.old.objects.quotas ≡ true }
        requires change { IsChange self.old.tree.nodes change.now }
        requires fits { Fits self.old.tree.nodes self.old.usage change.now }
        requires covered { IsCovered self.old.tree.nodes self.old.usage change.now }
        requires counted { AreCounted (charged_parts self.old change.now moment) }
        requires idle { IsIdle self.old }
        requires log { length self.old.marks.log ≤ most_entries }
        requires moment { moment ≤ latest_moment }
        ensures ended { EndsNamed self.old self.new (name_under (screen_told self.old judged) owner place.entry.folder place.entry.name.now) change.now moment }
        ensures counted { AreCounted self.new }
        ensures answer { result ≡ record { outcome = Done (option_map (λ judged. judged.screen) judged); lasting = true } }
        ensures looks { steps.new ≤ steps.old + 3 * (height self.old.tree.nodes change.now.from + height self.old.tree.nodes change.now.to) }
    {
        self.report(judged, owner, place.folder, place.name, moment);
        self.charge(change, moment, steps);
        self.done_under(judged, moment)
    }

    /// The answer to an operation whose name an active screen blocks.
    pub(crate) fn block(
        &mut self,
        judged: Blocked,
        owner: u32,
        folder: u32,
        name: &str,
        moment: u64,
    ) -> Answer
        requires ready { IsReady self.old moment }
        requires there { option_map told (judged_screen self.old judged) ≡ Some judged }
        requires named { is_name name.now ≡ true }
        ensures blocked { (screen : ScreenRow) → judged_screen self.old judged ≡ Some screen → Blocks self.old self.new (record { screen = screen; owner = owner; folder = folder; name = name.now }) moment result }
        ensures counted { AreCounted self.new }
    {
        self.note(judged, owner, folder, name, moment);
        self.end(moment);
        Answer {
            outcome: Outcome::Refused(Refusal::ScreenBlocked {
                screen: judged.screen,
            }),
            lasting: true,
        }
    }
}
