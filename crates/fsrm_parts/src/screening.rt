//! Whether a screen that judges a name blocks it.

ghost use Rattle.std.specs.Prelude.{◌≡◌, true, false, Some, None, MatchOption};
ghost use Rattle.file_screens.specs.Way.{is_active};

use file_screens::Blocked;

/// The screen that judges a name, if it blocks the name.
#[inline]
pub fn blocking(judged: Option<Blocked>) -> Option<Blocked>
    ensures { MatchOption result (is_active judged ≡ false) (λ active. (judged ≡ Some active) × (active.active ≡ true)) }
{
    match judged {
        Some(screen) if screen.active => judged,
        _ => None,
    }
}
