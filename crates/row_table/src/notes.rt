//! Notes of numbers: the slot of one that is there, else `NO_SLOT`.

ghost use Rattle.std.specs.Prelude.{◌≡◌, ◌≤◌, ◌<◌, length, slice_set};
ghost use Rattle.row_table.specs.Indexed.{AreGrown};

/// What is noted of a number that isn't there. It is no slot.
pub(crate) const NO_SLOT: u16 = 65535;

/// Has the notes reach a number, if it is below the bound; each that is new is `NO_SLOT`. If there is no memory for
/// that, the bound is lowered to the numbers that have notes. Answers the bound.
pub(crate) fn cover(notes: &mut Vec<u16>, number: u32, bound: u32) -> u32
    requires { length notes.old.items ≤ bound }
    ensures grown { AreGrown notes.old.items notes.new.items }
    ensures reached { number < result → number < length notes.new.items }
    ensures within { length notes.new.items ≤ result }
    ensures most { result ≤ bound }
{
    let reach = number as usize + 1;
    if bound <= number || reach <= notes.len() {
        return bound;
    }
    match notes.resize(reach, NO_SLOT) {
        Ok(()) => bound,
        Err(_) => notes.len() as u32,
    }
}

/// Writes a number's note, if the notes reach it.
pub(crate) fn write(notes: &mut Vec<u16>, number: u32, note: u16)
    ensures { notes.new.items ≡ slice_set notes.old.items number note }
{
    if (number as usize) < notes.len() {
        notes[number as usize] = note;
    }
}
