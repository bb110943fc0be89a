//! What texts leave of a room, in bytes.

ghost use Rattle.std.specs.Prelude.{◌≡◌, ◌+◌, ◌<◌, MatchOption, length, sum_by};

use crate::list::List;
use std::convert::AsStr;

/// How much of the room a text leaves; None if it is longer.
pub fn left_of_text(text: &str, room: u64) -> Option<u64>
    ensures { MatchOption result (room < length text.now) (λ left. left + length text.now ≡ room) }
{
    room.checked_sub(text.len() as u64)
}

/// How much of the room the texts of a list leave; None if they are longer.
pub fn left_of_texts<T: AsStr>(texts: &List<T>, room: u64) -> Option<u64>
    ensures { let bytes = sum_by (λ text. length (T.text text)) texts.now in
        MatchOption result (room < bytes) (λ left. left + bytes ≡ room) }
{
    let mut left = room;
    for text in texts.as_slice() {
        left = left_of_text(text.as_str(), left)?;
    }
    Some(left)
}
