//! Rows put in order and cut.

ghost use Rattle.std.specs.Prelude.{◌≡◌, ◌++◌, ◌∷◌, List, true, false, IfOk, OnOk, map, take};
ghost use Rattle.storage_reports.specs.declared.ranked.Ranked.{Ranked};
ghost use Rattle.std.specs.Ordering.{is_lt};
ghost use Rattle.fsrm_base.specs.Order.{in_order};
ghost use Rattle.storage_reports.specs.Ranks.{row_in, stands_before};

use fsrm_model::{List, NoMemory, ReportRow, Table};
use std::alloc::Global;
use std::cmp::Ordering;

/// A row of a report, and by what it stands in order: equal ranks by a second number, the least first.
#[derive(Drop)]
pub struct Ranked {
    pub rank: u64,
    pub second: u32,
    pub row: ReportRow,
}

// Whether a row comes before another one, with it, or after it.
fn compare(a: &Ranked, b: &Ranked, most_first: bool) -> Ordering
    ensures { is_lt result ≡ stands_before most_first a.now b.now }
{
    if a.rank == b.rank {
        a.second.cmp(&b.second)
    } else if most_first {
        b.rank.cmp(&a.rank)
    } else {
        a.rank.cmp(&b.rank)
    }
}

// Rows in order: those of the greatest or of the least ranks first, and where they stand together as they stood.
fn put_in_order(rows: &mut Vec<Ranked>, most_first: bool) -> Result<(), NoMemory>
    ensures { OnOk result (rows.new.items ≡ in_order (stands_before most_first) rows.old.items) }
{
    if most_first {
        rows.sort_by(
            |a, b|
                ensures { is_lt result ≡ stands_before true a.now b.now }
            { compare(a, b, true) },
        )?;
    } else {
        rows.sort_by(
            |a, b|
                ensures { is_lt result ≡ stands_before false a.now b.now }
            { compare(a, b, false) },
        )?;
    }
    Ok(())
}

// Rows of which only the first so many in order matter: once there are twice as many, the others go.
fn cut(rows: &mut Vec<Ranked>, most_first: bool, max: u32) -> Result<(), NoMemory>
    ensures { OnOk result ((rest : List Ranked) → take max (in_order (stands_before most_first) (rows.new.items ++ rest)) ≡ take max (in_order (stands_before most_first) (rows.old.items ++ rest))) }
{
    let max = max as usize;
    if rows.len() / 2 < max {
        return Ok(());
    }
    put_in_order(rows, most_first)?;
    rows.truncate(max);
    Ok(())
}

/// Puts a row behind others, of which only the first so many in order matter. It keeps no more than twice as many.
pub fn keep_first(
    rows: &mut Vec<Ranked>,
    row: Ranked,
    most_first: bool,
    max: u32,
) -> Result<(), NoMemory>
    ensures { OnOk result ((rest : List Ranked) → take max (in_order (stands_before most_first) (rows.new.items ++ rest)) ≡ take max (in_order (stands_before most_first) (rows.old.items ++ row ∷ rest))) }
{
    rows.push(row)?;
    cut(rows, most_first, max)
}

// The rows alone.
fn rows_of(alloc: Global, ranked: Vec<Ranked>) -> Result<List<ReportRow>, NoMemory>
    ensures { IfOk result (λ rows. rows ≡ map row_in ranked.items) }
{
    let mut rows = List::new(alloc);
    for one in ranked {
        rows.push(one.row)?;
    }
    Ok(rows)
}

/// The first of these rows in their order, at most so many.
pub fn table_of(
    alloc: Global,
    mut rows: Vec<Ranked>,
    most_first: bool,
    max: u32,
) -> Result<Table, NoMemory>
    ensures { IfOk result (λ table. table.rows ≡ map row_in (take max (in_order (stands_before most_first) rows.items))) }
{
    put_in_order(&mut rows, most_first)?;
    rows.truncate(max as usize);
    let rows = rows_of(alloc, rows)?;
    Ok(Table { rows })
}
