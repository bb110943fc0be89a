//! The lines of a made script.

ghost use Rattle.std.specs.Prelude.{◌≡◌, ◌+◌, ◌<◌, ◌≤◌, ◌^◌, ◌++◌, decimal, OnOk};
ghost use Rattle.made_script.specs.Lines.{drawn_words, first_words, made_line, state_then};

use crate::draws::{Draws, draw_line};
use crate::writing::{put, put_number, put_text};
use fsrm_base::NoMemory;
use line_parts::Part::{Number, Text};

// The first lines, which draw nothing.
const FIRST_LINES: u32 = 40;

// The moment before that of the first line, in seconds since the beginning of 1970.
const START: u64 = 1_000_000_000;

// The number of the last line that makes a folder.
const FOLDERS: u64 = 32;

// Adds what one of the first forty lines asks for, after its moment: a folder, or a quota on one.
fn put_first(line: &mut Vec<u8>, number: u64) -> Result<(), NoMemory>
    requires some { 0 < number }
    requires few { number < 2 ^ 32 }
    ensures { OnOk result (line.new.items ≡ line.old.items ++ first_words number) }
{
    if number <= FOLDERS {
        return put(
            line,
            &[Text(b" mkdir D:\\f"), Number(number - 1), Text(b" 1")],
        );
    }
    put(
        line,
        &[
            Text(b" dirquota quota add /Path:D:\\f"),
            Number(4 * (number - FOLDERS - 1)),
            Text(b" /Limit:1mb /Type:hard /Add-Notification:80,e,60,near"),
        ],
    )
}

// Adds a path after these words: a folder of the volume, and what has this number in it.
#[inline(always)]
fn put_path(
    line: &mut Vec<u8>,
    words: &[u8],
    folder: u64,
    mark: &[u8],
    number: u64,
) -> Result<(), NoMemory>
    ensures { OnOk result (line.new.items ≡ line.old.items ++ (words.now ++ (decimal folder ++ (mark.now ++ decimal number)))) }
{
    put_text(line, words)?;
    put_number(line, folder)?;
    put_text(line, mark)?;
    put_number(line, number)
}

// Adds what makes a file in a folder of the volume, or gives it another length.
#[inline(always)]
fn put_sized(line: &mut Vec<u8>, drawn: &Draws) -> Result<(), NoMemory>
    requires some { 2 ≤ drawn.now.kind }
    requires few { drawn.now.kind < 10 }
    ensures { OnOk result (line.new.items ≡ line.old.items ++ drawn_words drawn.now) }
{
    if drawn.kind < 8 {
        put_path(line, b" create D:\\f", drawn.folder, b"\\x", drawn.name)?;
        put_text(line, b".dat ")?;
        put_number(line, drawn.size)?;
        return put_text(line, b" 1");
    }
    put_path(line, b" resize D:\\f", drawn.folder, b"\\x", drawn.name)?;
    put_text(line, b".dat ")?;
    put_number(line, drawn.size)
}

// Adds what moves a file, or a folder, to another folder of the volume.
#[inline(always)]
fn put_move(line: &mut Vec<u8>, drawn: &Draws) -> Result<(), NoMemory>
    requires some { 11 ≤ drawn.now.kind }
    requires few { drawn.now.kind < 13 }
    ensures { OnOk result (line.new.items ≡ line.old.items ++ drawn_words drawn.now) }
{
    let (folder, name) = (drawn.other_folder, drawn.other_name);
    if drawn.kind == 11 {
        put_path(line, b" move D:\\f", drawn.folder, b"\\x", drawn.name)?;
        put_path(line, b".dat D:\\f", folder, b"\\x", name)?;
        return put_text(line, b".dat");
    }
    put_path(line, b" move D:\\f", drawn.folder, b"\\g", drawn.name)?;
    put_path(line, b" D:\\f", folder, b"\\g", name)
}

// Adds what is drawn that a line asks for, after its moment. Each text is put on its own: parts in an array take
// longer.
fn put_drawn(line: &mut Vec<u8>, drawn: &Draws) -> Result<(), NoMemory>
    ensures { OnOk result (line.new.items ≡ line.old.items ++ drawn_words drawn.now) }
{
    match drawn.kind {
        0 => {
            put_path(line, b" mkdir D:\\f", drawn.folder, b"\\g", drawn.name)?;
            put_text(line, b" 1")
        }
        1 => {
            put_text(line, b" dirquota quota add /Path:D:\\f")?;
            put_number(line, drawn.folder)?;
            put_text(line, b" /Limit:2mb")
        }
        2..=9 => put_sized(line, drawn),
        10 => {
            put_path(line, b" touch D:\\f", drawn.folder, b"\\x", drawn.name)?;
            put_text(line, b".dat")
        }
        11 | 12 => put_move(line, drawn),
        13 => {
            put_path(line, b" remove D:\\f", drawn.folder, b"\\x", drawn.name)?;
            put_text(line, b".dat")
        }
        14 => {
            put_path(line, b" create D:\\f", drawn.folder, b"\\g", drawn.name)?;
            put_path(line, b"\\x", drawn.other_name, b".dat ", drawn.size)?;
            put_text(line, b" 1")
        }
        _ => put_text(line, b" step 4"),
    }
}

/// Makes the line of a number in place of another.
pub fn make(line: &mut Vec<u8>, state: &mut u64, number: u32) -> Result<(), NoMemory>
    requires { 0 < number }
    ensures made { OnOk result (line.new.items ≡ made_line state.old number) }
    ensures state { OnOk result (state.new ≡ state_then state.old number) }
{
    line.clear();
    put_number(line, START + u64::from(number))?;
    if number > FIRST_LINES {
        let drawn = draw_line(state);
        return put_drawn(line, &drawn);
    }
    put_first(line, u64::from(number))
}
