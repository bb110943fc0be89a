//! The objects of a folder that is removed: they go with it.

ghost use Rattle.std.specs.Prelude.{◌≡◌};
ghost use Rattle.fsrm_objects.specs.Tables.{without_except, without_screen};
ghost use Rattle.templates.specs.Held.{without_auto};

use fsrm_objects::Objects;
use templates::Templates;

// Takes a folder's screen away, if it has one.
fn drop_screen(objects: &mut Objects, folder: u32)
    ensures { objects.new ≡ without_screen objects.old folder }
{
    if objects.screen(folder).is_some() {
        objects.drop_screen(folder);
    }
}

// Takes a folder's exception away, if it has one.
fn drop_except(objects: &mut Objects, folder: u32)
    ensures { objects.new ≡ without_except objects.old folder }
{
    if objects.except(folder).is_some() {
        objects.drop_except(folder);
    }
}

/// Takes a folder's auto-apply quota away, if it has one.
#[inline]
pub fn drop_auto(templates: &mut Templates, folder: u32)
    ensures { templates.new ≡ without_auto templates.old folder }
{
    if templates.auto(folder).is_some() {
        templates.drop_auto(folder);
    }
}

/// Takes a folder's screen and its exception away, if it has one.
#[inline]
pub fn drop_screens(objects: &mut Objects, folder: u32)
    ensures { objects.new ≡ without_except (without_screen objects.old folder) folder }
{
    drop_screen(objects, folder);
    drop_except(objects, folder);
}
