//! The actions that acts name.

ghost use Rattle.std.specs.Prelude.{◌≡◌, ◌<◌, true, false};
ghost use Rattle.std.specs.Option.{option_copied};
ghost use Rattle.fsrm_base.specs.Keyed.{is_ascending, row_of};
ghost use Rattle.fsrm_model.specs.objects.Acts.{is_of_quota};
ghost use Rattle.fsrm_model.specs.objects.Thresholds.{percent_of};
ghost use Rattle.thresholds.specs.Settled.{are_orderly};
ghost use Rattle.fsrm_parts.specs.Acts.{text_in, IsActOf};

use fsrm_model::{Act, Subject, Threshold};
use fsrm_objects::{Objects, threshold_place};

// The threshold of a percentage.
fn threshold_of(thresholds: &[Threshold], percent: u16) -> Option<&Threshold>
    requires { is_ascending percent_of thresholds.now ≡ true }
    ensures { option_copied result ≡ row_of percent_of percent thresholds.now }
{
    match threshold_place(thresholds, percent) {
        Ok(place) => Some(&thresholds[place]),
        Err(_) => None,
    }
}

// The text of the action that an act of a quota names.
fn quota_text<'a>(objects: &'a Objects, act: &Act) -> &'a str
    requires quota { is_of_quota act.now.subject ≡ true }
    requires orderly { are_orderly objects.now.quotas ≡ true }
    requires there { IsActOf objects.now act.now }
    ensures { result.now ≡ text_in objects.now act.now }
{
    let quota = objects.quota(act.subject.folder()).unwrap();
    let threshold = threshold_of(quota.thresholds.as_slice(), act.subject.percent()).unwrap();
    let action = threshold.actions.get(usize::from(act.place)).unwrap();
    action.text.as_str()
}

// The same of a screen.
fn screen_text<'a>(objects: &'a Objects, act: &Act) -> &'a str
    requires screen { is_of_quota act.now.subject ≡ false }
    requires there { IsActOf objects.now act.now }
    ensures { result.now ≡ text_in objects.now act.now }
{
    let screen = objects.screen(act.subject.folder()).unwrap();
    let action = screen.actions.get(usize::from(act.place)).unwrap();
    action.text.as_str()
}

/// The text of the action that an act names, which is there.
pub fn text_of<'a>(objects: &'a Objects, act: &Act) -> &'a str
    requires orderly { are_orderly objects.now.quotas ≡ true }
    requires there { IsActOf objects.now act.now }
    ensures { result.now ≡ text_in objects.now act.now }
{
    match act.subject {
        Subject::Quota { .. } => quota_text(objects, act),
        Subject::Screen { .. } => screen_text(objects, act),
    }
}
