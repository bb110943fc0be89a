//! The last runs of actions.

ghost use Rattle.std.specs.Prelude.{◌≡◌, ◌<◌, true, length};
ghost use Rattle.fsrm_base.specs.Keyed.{is_ascending, with_change};
ghost use Rattle.fsrm_model.specs.objects.Thresholds.{actions_at, percent_of};
ghost use Rattle.fsrm_objects.specs.Tables.{ran_at, run_threshold_at};

use crate::percents::threshold_place;
use fsrm_model::{Action, List, Threshold};

/// Notes that the action at a place ran at a moment.
pub fn note_last(actions: &mut List<Action>, place: u16, moment: u64)
    requires { place < length actions.old }
    ensures { actions.new ≡ ran_at moment place actions.old }
{
    let action = actions.get_mut(place as usize).unwrap();
    action.last_run = Some(moment);
}

/// Notes that the action at a place of a threshold ran at a moment.
pub fn note_run(thresholds: &mut List<Threshold>, percent: u16, place: u16, moment: u64)
    requires ascending { is_ascending percent_of thresholds.old ≡ true }
    requires there { place < length (actions_at thresholds.old percent) }
    ensures { thresholds.new ≡ with_change percent_of percent (run_threshold_at moment place) thresholds.old }
{
    let at = threshold_place(thresholds.as_slice(), percent).unwrap();
    let threshold = thresholds.get_mut(at).unwrap();
    note_last(&mut threshold.actions, place, moment);
}
