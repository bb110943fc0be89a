//! Screens that commands make or change.

ghost use Rattle.std.specs.Prelude.{◌≡◌, IfOk};
ghost use Rattle.fsrm_model.specs.commands.ScreenWork.{new_screen, rescreened};

use fsrm_model::{Action, Duplicate, List, NoMemory, ScreenRow};
use std::alloc::Global;

/// A new screen, with copies of its actions.
pub fn new_screen(
    alloc: Global,
    folder: u32,
    active: bool,
    groups: List<u32>,
    actions: &List<Action>,
) -> Result<ScreenRow, NoMemory>
    ensures { IfOk result (λ row. row ≡ new_screen folder active groups actions.now) }
{
    Ok(ScreenRow {
        folder,
        active,
        groups,
        actions: actions.copy(alloc)?,
    })
}

/// A screen with these groups, and active or passive if that is given.
pub fn rescreened(
    alloc: Global,
    screen: &ScreenRow,
    active: Option<bool>,
    groups: List<u32>,
) -> Result<ScreenRow, NoMemory>
    ensures { IfOk result (λ row. row ≡ rescreened active groups screen.now) }
{
    Ok(ScreenRow {
        folder: screen.folder,
        active: active.unwrap_or(screen.active),
        groups,
        actions: screen.actions.copy(alloc)?,
    })
}
