//! The actions of a screen that ran and are to be handed out.

ghost use Rattle.std.specs.Prelude.{◌≡◌, ◌<◌, ◌≤◌, [], ◌∷◌, ◌++◌, Some, true, drop, is_some, length, slice_get};
ghost use Rattle.std.specs.Option.{option_and_then};
ghost use Rattle.fsrm_base.specs.Keyed.{has_row, row_of};
ghost use Rattle.fsrm_model.specs.declared.command.Act.{Act};
ghost use Rattle.fsrm_model.specs.declared.row.ScreenRow.{ScreenRow};
ghost use Rattle.fsrm_model.specs.values.Limits.{most_actions};
ghost use Rattle.fsrm_model.specs.objects.Runs.{entry_of, last_entries};
ghost use Rattle.fsrm_model.specs.objects.Screens.{screen_folder};
ghost use Rattle.fsrm_objects.specs.Tables.{with_screen_run};
ghost use Rattle.thresholds.specs.Marked.{are_screen_acts, screen_act_at, screen_action_at};
ghost use Rattle.thresholds.specs.Settled.{SettlesScreen, screen_due};

use crate::marks::Marks;
use crate::rules::ready;
use fsrm_model::{Act, ActRow, Action, ScreenRow, Subject};
use fsrm_objects::Objects;

impl Marks {
    /// Runs those actions of a folder's screen, at most 8, that may run at a moment, in seconds since 1970-01-01
    /// 00:00:00 UTC: they are marked, have the moment as their last run, and come into the log. No action of a screen
    /// may be marked before. `run_limit` is in minutes. It takes no memory.
    pub fn settle_screen(&mut self, objects: &mut Objects, folder: u32, run_limit: u32, moment: u64)
        requires screen { has_row screen_folder folder objects.old.screens ≡ true }
        requires few { (screen : ScreenRow) → row_of screen_folder folder objects.old.screens ≡ Some screen → length screen.actions ≤ most_actions }
        requires none { self.old.places ≡ [] }
        ensures settled { SettlesScreen self.old self.new objects.old objects.new moment (screen_due objects.old run_limit moment folder) }
    {
        self.folder = folder;
        let count = screen_of(objects, folder).actions.len() as u16;
        for place in 0..count {
            if ready(screen_action(objects, folder, place), run_limit, moment) {
                self.run_of_screen(objects, place, moment);
            }
        }
    }

    // Runs the action at a place of the screen that is named.
    fn run_of_screen(&mut self, objects: &mut Objects, place: u16, moment: u64)
        requires there { is_some (screen_act_at objects.old.screens self.old.folder place) ≡ true }
        requires room { length self.old.places < most_actions }
        ensures tables { objects.new ≡ with_screen_run objects.old self.old.folder place moment }
        ensures marked { (act : Act) → screen_act_at objects.old.screens self.old.folder place ≡ Some act → self.new ≡ record self.old { log = last_entries (self.old.log ++ entry_of moment act ∷ []); places = self.old.places ++ place ∷ [] } }
    {
        let kind = screen_action(objects, self.folder, place).kind;
        self.places.push_back(place);
        self.log.push_back(ActRow {
            moment,
            folder: self.folder,
            percent: 0,
            kind,
        });
        objects.set_screen_run(self.folder, place, moment);
    }

    // Hands out the act of the first marked action of a screen.
    pub(crate) fn next_of_screen(&mut self, objects: &Objects) -> Option<Act>
        requires { are_screen_acts objects.now.screens self.old ≡ true }
        ensures act { result ≡ option_and_then (screen_act_at objects.now.screens self.old.folder) (slice_get self.old.places 0) }
        ensures marks { self.new ≡ record self.old { places = drop 1 self.old.places } }
    {
        let place = self.places.pop_front()?;
        let folder = self.folder;
        Some(Act {
            subject: Subject::Screen { folder },
            place,
            kind: screen_action(objects, folder, place).kind,
        })
    }
}

// The screen of a folder that has one.
fn screen_of(objects: &Objects, folder: u32) -> &ScreenRow
    requires { has_row screen_folder folder objects.now.screens ≡ true }
    ensures { row_of screen_folder folder objects.now.screens ≡ Some result.now }
{
    objects.screen(folder).unwrap()
}

// The action at a place of a folder's screen.
fn screen_action(objects: &Objects, folder: u32, place: u16) -> &Action
    requires { is_some (screen_act_at objects.now.screens folder place) ≡ true }
    ensures { screen_action_at objects.now.screens folder place ≡ Some result.now }
{
    let screen = screen_of(objects, folder);
    screen.actions.get(usize::from(place)).unwrap()
}
