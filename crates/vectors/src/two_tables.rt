//! Many changes of a table, each of which a plain table makes too: both answer the same, and come to the same rows.

use crate::chances::{below, chances};
use crate::plain_table::{PlainTable, Row};
use fsrm_base::places::Key;
use rand_pcg::Pcg32;
use row_table::{Edit, Kind, Table, Test};
use std::alloc::Global;
use std::mem;
use std::process::Abort;
use std::test::Fail;

const MOST: u32 = 24;

const MOST_BYTES: u32 = 100;

const CHANGES: u32 = 1_000;

// How many numbers rows may have. The last ones are those from 1,048,575 on, of which all but the first have no note.
const NUMBERS: u32 = 40;

const LOW_NUMBERS: u32 = 30;

const MARKS: u32 = 8;

// Rows by their numbers.
struct Rows;

impl Key for Rows {
    type Row = Row;

    ghost key = { λ row. row.number };

    fn number(row: &Row) -> u32 {
        row.number
    }
}

impl Kind for Rows {
    ghost use Rattle.std.proofs.Common.{rules};

    ghost bytes = { λ row. row.bytes };

    ghost most_bytes = { 100 };

    ghost MOST = { 24 };

    const MOST: u32 = MOST;

    fn texts(row: &Row) -> u32 {
        row.bytes
    }

    ghost few = { Prim.search rules };

    ghost fits = { Prim.search rules };
}

// Another mark of a row, or a row's mark. It tells the mark that the row had.
#[derive(Clone, Copy)]
struct Mark {
    mark: u32,
}

impl Edit<Row> for Mark {
    type Told = u32;

    ghost may = { λ edit row. Unit {0} };

    ghost edited = { λ edit row. record row { mark = edit.mark } };

    ghost told = { λ edit row. row.mark };

    fn edit(&self, row: &mut Row) -> u32 {
        mem::replace(&mut row.mark, self.mark)
    }
}

impl Test<Row> for Mark {
    ghost use Rattle.std.specs.Prelude.{◌==◌};

    ghost passes = { λ test row. row.mark == test.mark };

    fn test(&self, row: &Row) -> bool {
        row.mark == self.mark
    }
}

// The number at a place among those that rows may have.
fn number_at(place: u32) -> u32 {
    if place < LOW_NUMBERS {
        return place;
    }
    1_048_545_u32.saturating_add(place)
}

fn some_number(chances: &mut Pcg32) -> u32 {
    number_at(below(chances, NUMBERS))
}

fn some_row(chances: &mut Pcg32, number: u32) -> Row {
    Row {
        number,
        bytes: below(chances, MOST_BYTES + 1),
        mark: below(chances, MARKS),
    }
}

// Puts a row in, if there may be one more.
fn insert(table: &mut Table<Rows>, row: Row) -> Result<bool, Fail> {
    if table.has(row.number) || table.is_full() || row.bytes > MOST_BYTES {
        return Ok(false);
    }
    table.reserve(table.len() + 1)?;
    table.insert(row);
    Ok(true)
}

fn insert_both(table: &mut Table<Rows>, plain: &mut PlainTable, row: Row) -> Result<(), Fail> {
    if insert(table, row)? {
        plain.insert(row)?;
    }
    Ok(())
}

fn remove(table: &mut Table<Rows>, number: u32) -> Option<Row> {
    if table.has(number) {
        return Some(table.remove(number));
    }
    None
}

// Puts a row in the place of the one of its number, which is the answer.
fn swap(table: &mut Table<Rows>, row: Row) -> Option<Row> {
    let mut row = row;
    if table.has(row.number) && row.bytes <= MOST_BYTES {
        table.swap(&mut row);
        return Some(row);
    }
    None
}

// Gives the row of a number another mark, and answers the one that it had.
fn change_mark(table: &mut Table<Rows>, row: Row) -> Option<u32> {
    table.change(row.number, &Mark { mark: row.mark })
}

fn mark_each_of_both(table: &mut Table<Rows>, plain: &mut PlainTable, mark: u32) {
    table.change_each(&Mark { mark });
    plain.mark_each(mark);
}

fn change_both(
    table: &mut Table<Rows>,
    plain: &mut PlainTable,
    end: &impl Abort,
    row: Row,
    choice: u32,
) -> Result<(), Fail> {
    match choice {
        0..=4 => insert_both(table, plain, row)?,
        5 | 6 => assert!(end; remove(table, row.number) == plain.remove(row.number)),
        7 => assert!(end; swap(table, row) == plain.swap(row)),
        8 => assert!(end; change_mark(table, row) == plain.mark(row)),
        _ => mark_each_of_both(table, plain, row.mark),
    }
    Ok(())
}

// Whether both say the same of a number.
fn agree_on(table: &Table<Rows>, plain: &PlainTable, number: u32) -> bool {
    table.get(number).copied() == plain.get(number)
        && table.has(number) == plain.has(number)
        && table.place(number).map(|place| place as usize) == plain.place(number)
}

fn agree_on_numbers(table: &Table<Rows>, plain: &PlainTable) -> bool {
    (0..NUMBERS).all(|place| agree_on(table, plain, number_at(place)))
}

fn agree_on_places(table: &Table<Rows>, plain: &PlainTable) -> bool {
    for place in 0..table.len() {
        if Some(*table.at(place)) != plain.at(place as usize) {
            return false;
        }
    }
    true
}

fn agree_on_marks(table: &Table<Rows>, plain: &PlainTable) -> bool {
    (0..MARKS).all(|mark| table.find(&Mark { mark }).copied() == plain.marked(mark))
}

fn agree_on_all(table: &Table<Rows>, plain: &PlainTable) -> bool {
    table.len() as usize == plain.len()
        && table.is_empty() == (plain.len() == 0)
        && table.is_full() == (plain.len() == MOST as usize)
        && table.texts() == plain.texts()
        && Some(table.free_number()) == plain.free_number()
}

fn changes(table: &mut Table<Rows>, plain: &mut PlainTable, end: &impl Abort) -> Result<(), Fail> {
    let mut chances = chances();
    for _ in 0..CHANGES {
        let number = some_number(&mut chances);
        let row = some_row(&mut chances, number);
        change_both(table, plain, end, row, below(&mut chances, 10))?;
        assert!(end; agree_on_all(table, plain));
        assert!(end; agree_on_numbers(table, plain));
        assert!(end; agree_on_places(table, plain));
        assert!(end; agree_on_marks(table, plain));
    }
    Ok(())
}

#[test]
fn a_table_answers_as_a_plain_one_does(rt: HostRuntime) -> Result<(), Fail> {
    let mut table = Table::new(rt.alloc());
    let mut plain = PlainTable::new(rt.alloc());
    changes(&mut table, &mut plain, &rt)
}
