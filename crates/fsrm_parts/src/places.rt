//! What paths lead to.

ghost use Rattle.std.specs.Prelude.{◌≡◌, ◌+◌, ◌*◌, ◌≤◌, length, IfOk, IfErr, Some};
ghost use Rattle.fsrm_base.specs.Keyed.{row_of};
ghost use Rattle.fsrm_model.specs.commands.Check.{first};
ghost use Rattle.fsrm_model.specs.commands.QuotaWork.{quota_checks};
ghost use Rattle.fsrm_model.specs.commands.ScreenWork.{screen_checks};
ghost use Rattle.fsrm_model.specs.objects.Screens.{screen_folder};
ghost use Rattle.fsrm_model.specs.store.Valid.{IsVolume};
ghost use Rattle.fsrm_parts.specs.Faults.{new_refusal};
ghost use Rattle.fsrm_parts.specs.Places.{IsFileAt, IsFolder, IsFolderAt, IsPlace, IsQuotaAt, IsRefusedPlace, IsVacant, rows_with};

use crate::exits::refusal_of;
use fsrm_model::{Ledger, Path, QuotaRow, Refusal, ScreenRow, Steps};
use fsrm_objects::Objects;
use volume_tree::{Finger, NodeView, Tree};

/// The place of a path's last name: a folder, and the name that is given in it.
#[derive(Clone, Copy)]
pub struct Place<'a> {
    pub folder: u32,
    pub name: &'a str,
}

/// The place that a path names. `AlreadyExists` if the path is the root's, `PathNotFound` if the folder isn't there.
pub fn place_at<'a, L: Ledger>(
    tree: &Tree,
    path: &'a Path,
    steps: &mut Steps<L>,
) -> Result<Place<'a>, Refusal>
    requires { IsVolume tree.now.size tree.now.nodes }
    ensures ok { IfOk result (λ place. IsPlace tree.now.nodes path.now place.folder place.name.now) }
    ensures err { IfErr result (λ refusal. IsRefusedPlace tree.now.nodes path.now refusal) }
    ensures looks { steps.new ≤ steps.old + (22 * length path.now + 2) }
{
    let Some(last) = path.depth().checked_sub(1) else {
        return Err(Refusal::AlreadyExists);
    };
    let mut names = path.names();
    let Some(folder) = tree.resolve_next(&mut names, last, steps) else {
        return Err(Refusal::PathNotFound);
    };
    if !tree.node(folder, steps).folder {
        return Err(Refusal::PathNotFound);
    }
    Ok(Place {
        folder,
        name: names.next().unwrap(),
    })
}

/// The file that a path leads to, lent. None if there is no such file.
pub fn file_at<'a, L: Ledger>(
    tree: &'a Tree,
    path: &Path,
    steps: &mut Steps<L>,
) -> Option<NodeView<'a>>
    requires { IsVolume tree.now.size tree.now.nodes }
    ensures file { IsFileAt tree.now.nodes path.now result }
    ensures looks { steps.new ≤ steps.old + (22 * length path.now + 2) }
{
    let node = tree.resolve(path, steps)?;
    let view = tree.node(node, steps);
    if view.folder { None } else { Some(view) }
}

/// The folder that a path leads to. None if there is no such folder.
pub fn folder_at<L: Ledger>(tree: &Tree, path: &Path, steps: &mut Steps<L>) -> Option<u32>
    requires { IsVolume tree.now.size tree.now.nodes }
    ensures folder { IsFolderAt tree.now.nodes path.now result }
    ensures looks { steps.new ≤ steps.old + (22 * length path.now + 2) }
{
    let node = tree.resolve(path, steps)?;
    if tree.node(node, steps).folder {
        Some(node)
    } else {
        None
    }
}

/// Where a node may be made: its place, and where the tree is to put it. Or why none can be made at this path.
pub fn vacancy_at<'a, L: Ledger>(
    tree: &Tree,
    path: &'a Path,
    steps: &mut Steps<L>,
) -> Result<(Place<'a>, Finger), Refusal>
    requires { IsVolume tree.now.size tree.now.nodes }
    ensures ok { IfOk result (λ found. IsVacant tree.now path.now found.0.folder found.0.name.now) }
    ensures err { IfErr result (λ refusal. new_refusal tree.now path.now ≡ Some refusal) }
    ensures looks { steps.new ≤ steps.old + (22 * length path.now + 24) }
{
    let place = match place_at(tree, path, steps) {
        Ok(place) => place,
        Err(refusal) => return Err(refusal),
    };
    match tree.may_create(place.folder, place.name, steps) {
        Ok(finger) => Ok((place, finger)),
        Err(fault) => Err(refusal_of(fault)),
    }
}

/// The quota of the folder that a path leads to, lent. `PathNotFound` if there is no such folder, `NotFound` if it has no
/// quota.
pub fn quota_at<'a, L: Ledger>(
    tree: &Tree,
    objects: &'a Objects,
    path: &Path,
    steps: &mut Steps<L>,
) -> Result<&'a QuotaRow, Refusal>
    requires { IsVolume tree.now.size tree.now.nodes }
    ensures ok { IfOk result (λ quota. IsQuotaAt tree.now.nodes objects.now.quotas path.now quota.now) }
    ensures err { IfErr result (λ refusal. first (quota_checks (rows_with tree.now.nodes objects.now) path.now) ≡ Some refusal) }
    ensures looks { steps.new ≤ steps.old + (22 * length path.now + 2) }
{
    let Some(folder) = folder_at(tree, path, steps) else {
        return Err(Refusal::PathNotFound);
    };
    let Some(quota) = objects.quota(folder) else {
        return Err(Refusal::NotFound);
    };
    Ok(quota)
}

/// The screen of the folder that a path leads to, lent, with the same refusals.
pub fn screen_at<'a, L: Ledger>(
    tree: &Tree,
    objects: &'a Objects,
    path: &Path,
    steps: &mut Steps<L>,
) -> Result<&'a ScreenRow, Refusal>
    requires { IsVolume tree.now.size tree.now.nodes }
    ensures at { IfOk result (λ screen. IsFolder tree.now.nodes path.now screen.now.folder) }
    ensures found { IfOk result (λ screen. row_of screen_folder screen.now.folder objects.now.screens ≡ Some screen.now) }
    ensures err { IfErr result (λ refusal. first (screen_checks (rows_with tree.now.nodes objects.now) path.now) ≡ Some refusal) }
    ensures looks { steps.new ≤ steps.old + (22 * length path.now + 2) }
{
    let Some(folder) = folder_at(tree, path, steps) else {
        return Err(Refusal::PathNotFound);
    };
    let Some(screen) = objects.screen(folder) else {
        return Err(Refusal::NotFound);
    };
    Ok(screen)
}
