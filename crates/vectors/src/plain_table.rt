//! The simplest table: rows side by side, each of which is asked, one after the other. What a `Table` answers is
//! compared with what this one does.

use std::alloc::{AllocError, Global};

/// A row of some number, with texts of some bytes.
#[derive(Clone, Copy, Debug, PartialEq, Eq)]
pub struct Row {
    pub number: u32,
    pub bytes: u32,
    pub mark: u32,
}

/// Rows in the order of their numbers.
#[derive(Drop)]
pub struct PlainTable {
    rows: Vec<Row>,
}

// What it is asked.
impl PlainTable {
    /// No rows.
    pub fn new(alloc: Global) -> PlainTable {
        PlainTable {
            rows: Vec::new(alloc),
        }
    }

    pub fn len(&self) -> usize {
        self.rows.len()
    }

    /// The row at a place, from 0.
    pub fn at(&self, place: usize) -> Option<Row> {
        self.rows.get(place).copied()
    }

    /// The row of a number.
    pub fn get(&self, number: u32) -> Option<Row> {
        self.rows.iter().find(|row| row.number == number).copied()
    }

    pub fn has(&self, number: u32) -> bool {
        self.get(number).is_some()
    }

    /// The place of the row of a number, from 0.
    pub fn place(&self, number: u32) -> Option<usize> {
        self.rows.iter().position(|row| row.number == number)
    }

    /// The first row of a mark.
    pub fn marked(&self, mark: u32) -> Option<Row> {
        self.rows.iter().find(|row| row.mark == mark).copied()
    }

    /// The bytes of all texts.
    pub fn texts(&self) -> u32 {
        let mut bytes = 0_u32;
        for row in &self.rows {
            bytes = bytes.saturating_add(row.bytes);
        }
        bytes
    }

    /// The least number that no row has.
    pub fn free_number(&self) -> Option<u32> {
        (0..u32::MAX).find(|number| !self.has(*number))
    }
}

// How it is changed.
impl PlainTable {
    /// Puts a row in whose number none has.
    pub fn insert(&mut self, row: Row) -> Result<(), AllocError> {
        self.rows.push(row)?;
        self.rows.sort_by_key(|row| row.number)
    }

    /// Takes the row of a number out.
    pub fn remove(&mut self, number: u32) -> Option<Row> {
        let removed = self.get(number);
        self.rows.retain(|row| row.number != number);
        removed
    }

    /// Puts a row in the place of the one of its number, which is the answer.
    pub fn swap(&mut self, new: Row) -> Option<Row> {
        let old = self.get(new.number);
        for row in &mut self.rows {
            if row.number == new.number {
                *row = new;
            }
        }
        old
    }

    /// Gives the row of a number another mark, and answers the one that it had.
    pub fn mark(&mut self, new: Row) -> Option<u32> {
        let old = self.get(new.number).map(|row| row.mark);
        for row in &mut self.rows {
            if row.number == new.number {
                row.mark = new.mark;
            }
        }
        old
    }

    /// Gives all rows a mark.
    pub fn mark_each(&mut self, mark: u32) {
        for row in &mut self.rows {
            row.mark = mark;
        }
    }
}
