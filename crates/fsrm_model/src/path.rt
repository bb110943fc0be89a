//! Paths of the volume, by their names.

ghost use Rattle.std.specs.Prelude.{◌≡◌, ◌<◌, ◌-◌, ◌==◌, ◌&&◌, ◌∷◌, true, nat_lt, length, position, slice_index, take, drop};
ghost use Rattle.std.specs.List.{join_with_byte, list_all};
ghost use Rattle.std.specs.Str.{IsCharBoundary};
ghost use Rattle.std.specs.String.{string_bytes};
ghost use Rattle.fsrm_model.specs.values.Name.{is_name};
ghost use Rattle.fsrm_model.specs.meaning.PathNames.{parts_of, left};
ghost use Rattle.fsrm_model.specs.lines.Reading.{is_backslash};

use fsrm_base::{Duplicate, NoMemory};
use std::alloc::Global;
use std::marker::Model;

/// A path from the root `D:\` down. Contracts see it as the list of its names, which are all
/// valid; the root's path has none.
// One text has the names, so a path takes memory once. They are cut out of it as they are walked.
#[derive(Drop)]
pub struct Path {
    text: String,
    depth: usize,
}

impl Model for Path {
    ghost use Rattle.std.specs.Prelude.{List as Items, ℕ};

    ghost Value = { Items (Items ℕ) };

    ghost use Rattle.std.specs.Prelude.{◌≡◌, true, length};
    ghost use Rattle.std.specs.List.{list_all};
    ghost use Rattle.std.specs.String.{string_bytes};
    ghost use Rattle.fsrm_model.specs.values.Name.{is_name};
    ghost use Rattle.fsrm_model.specs.meaning.PathNames.{parts_of};

    ghost view = { λ p. parts_of (string_bytes p.text) };

    ghost invariant = { λ p. (list_all is_name (parts_of (string_bytes p.text)) ≡ true) × (p.depth ≡ length (parts_of (string_bytes p.text))) };
}

impl Path {
    /// The path of the names that a text has, so many, with a backslash after each but the last, which may have one
    /// too. Each is valid.
    pub fn from_joined(text: String, depth: usize) -> Path
        requires names { list_all is_name (parts_of (string_bytes text)) ≡ true }
        requires depth { depth ≡ length (parts_of (string_bytes text)) }
        ensures { result ≡ parts_of (string_bytes text) }
    {
        Path { text, depth }
    }

    /// How many names it has.
    pub fn depth(&self) -> usize
        ensures { result ≡ length self.now }
    {
        self.depth
    }

    /// Its names, with a backslash between each two.
    pub fn joined(&self) -> &str
        ensures { result.now ≡ join_with_byte 92 self.now }
    {
        let text = self.text.as_str();
        if ends_in_backslash(text.as_bytes()) {
            return before(text, text.len() - 1);
        }
        text
    }

    /// Its names, from the root's side on.
    pub fn names(&self) -> Names<'_>
        ensures names { left result ≡ self.now }
        ensures valid { list_all is_name (left result) ≡ true }
    {
        Names {
            rest: self.text.as_str(),
        }
    }
}

impl Duplicate for Path {
    fn copy(&self, _alloc: Global) -> Result<Self, NoMemory> {
        Ok(Path {
            text: self.text.clone()?,
            depth: self.depth,
        })
    }
}

/// The names of a path that are still to come.
#[derive(Clone, Copy)]
pub struct Names<'a> {
    rest: &'a str,
}

impl<'a> Iterator for Names<'a> {
    ghost use Rattle.std.specs.Iterator.{YieldsFirstRef, item_count};
    ghost use Rattle.fsrm_model.specs.meaning.PathNames.{left};

    type Item = &'a str;

    ghost next_gives = { YieldsFirstRef left };

    ghost remaining = { item_count left };

    fn next(&mut self) -> Option<&'a str> {
        if self.rest.is_empty() {
            return None;
        }
        let (name, rest) = first_name(self.rest);
        self.rest = rest;
        Some(name)
    }
}

// The first name that a text has, and what stands after the backslash that ends it.
fn first_name(text: &str) -> (&str, &str)
    requires { 0 < length text.now }
    ensures { parts_of text.now ≡ result.0.now ∷ parts_of result.1.now }
{
    match first_backslash(text.as_bytes()) {
        Some(end) => (before(text, end), after(text, end + 1)),
        None => (text, ""),
    }
}

// Where the first backslash of a text is. Most names are too short for a search of many bytes at once.
fn first_backslash(text: &[u8]) -> Option<usize>
    ensures { result ≡ position is_backslash text.now }
{
    text.iter().position(|byte| *byte == b'\\')
}

fn ends_in_backslash(text: &[u8]) -> bool
    ensures { result ≡ (nat_lt 0 (length text.now) && (slice_index text.now (length text.now - 1) == 92)) }
{
    text.len() > 0 && text[text.len() - 1] == b'\\'
}

fn before(text: &str, place: usize) -> &str
    requires { IsCharBoundary text.now place }
    ensures { result.now ≡ take place text.now }
{
    &text[..place]
}

fn after(text: &str, place: usize) -> &str
    requires { IsCharBoundary text.now place }
    ensures { result.now ≡ drop place text.now }
{
    &text[place..]
}
