//! The words of a line, taken from left to right.

ghost use Rattle.std.specs.Prelude.{◌≡◌, ◌+◌, ◌≤◌, ◌==◌, ◌&&◌, ◌||◌, nat_lt, false, length, take, drop, slice_index, IfOk};
ghost use Rattle.std.specs.List.{prefix_len};
ghost use Rattle.std.specs.Str.{IsCharBoundary};
ghost use Rattle.std.specs.String.{string_bytes};
ghost use Rattle.fsrm_model.specs.values.Limits.{longest_line};
ghost use Rattle.fsrm_model.specs.lines.Words.{is_blank, parts_from, words_at, without_quotes};
ghost use Rattle.command_words.specs.Lengths.{is_plain, IsPlainWord, word_length, quoted_length};

use crate::fault::LineFault;
use fsrm_model::NoMemory;
use memchr::{memchr, memchr3};
use std::alloc::Global;
use std::borrow::CowStr;

fn is_blank(byte: u8) -> bool
    ensures { result ≡ is_blank byte }
{
    byte == b' ' || byte == b'\t'
}

/// Whether a byte is neither a blank nor a quote.
pub fn is_plain(byte: u8) -> bool
    ensures { result ≡ is_plain byte }
{
    !(is_blank(byte) || byte == b'"')
}

/// How many blanks a text begins with.
pub fn blanks(text: &[u8]) -> usize
    ensures { result ≡ prefix_len is_blank text.now }
{
    text.iter().take_while(|byte| is_blank(**byte)).count()
}

// How many bytes a text begins with that are neither blanks nor quotes.
fn plain_len(text: &[u8]) -> usize
    ensures { result ≡ prefix_len is_plain text.now }
{
    memchr3(b' ', b'\t', b'"', text).unwrap_or(text.len())
}

/// Whether so many plain bytes, which a text begins with, are a word: there are some, and a blank or the end follows.
pub fn is_word(text: &[u8], count: usize) -> bool
    requires { count ≤ length text.now }
    ensures { result ≡ (nat_lt 0 count && (count == length text.now || is_blank (slice_index text.now count))) }
{
    0 < count && (count == text.len() || is_blank(text[count]))
}

// How many bytes a text has up to its first quote and with it, or in all if it has none.
fn quoted_len(text: &[u8]) -> usize
    ensures { result ≡ quoted_length text.now }
{
    match memchr(b'"', text) {
        Some(place) => place + 1,
        None => text.len(),
    }
}

// How many bytes the word has that a text begins with, its quotes among them. It begins with so many plain ones.
fn word_len(text: &[u8], plain: usize) -> usize
    requires { plain ≡ prefix_len is_plain text.now }
    ensures { result ≡ word_length false text.now }
{
    let mut place = plain;
    while place < text.len() && text[place] == b'"' {
        let opened = place + 1;
        let closed = opened + quoted_len(&text[opened..]);
        place = closed + plain_len(&text[closed..]);
    }
    place
}

/// What stands before a place of a text.
pub fn before(text: &str, place: usize) -> &str
    requires { IsCharBoundary text.now place }
    ensures { result.now ≡ take place text.now }
{
    &text[..place]
}

/// What stands from a place of a text on.
pub fn after(text: &str, place: usize) -> &str
    requires { IsCharBoundary text.now place }
    ensures { result.now ≡ drop place text.now }
{
    &text[place..]
}

// A word's text in memory of its own.
fn copy_without_quotes(alloc: Global, raw: &str) -> Result<String, NoMemory>
    ensures { IfOk result (λ text. string_bytes text ≡ without_quotes raw.now) }
{
    let mut text = String::with_capacity(alloc, raw.len())?;
    let mut rest = raw;
    while let Some(place) = memchr(b'"', rest.as_bytes()) {
        text.push_str(before(rest, place))?;
        rest = after(rest, place + 1);
    }
    text.push_str(rest)?;
    Ok(text)
}

/// A word, without its quotes.
#[derive(Drop)]
pub struct Word<'a> {
    /// Where the word's first byte stands in its line, which may be a quote. It counts bytes from 1.
    pub column: u32,
    pub text: CowStr<'a, Global>,
}

impl Word<'_> {
    ghost use Rattle.command_words.specs.Taking.{line_word, lent_word};

    /// The same, with its text lent.
    pub fn lent(&self) -> LentWord<'_>
        ensures { lent_word result ≡ line_word self.now }
    {
        LentWord {
            column: self.column,
            text: self.text.as_str(),
        }
    }
}

/// A word, with a text that is lent.
#[derive(Clone, Copy)]
pub struct LentWord<'a> {
    /// Where the word's first byte stands in its line. It counts bytes from 1.
    pub column: u32,
    pub text: &'a str,
}

/// The words of a line that are still to come.
#[derive(Clone, Copy)]
pub struct Words<'a> {
    rest: &'a str,
    // Where the rest begins in the line. It counts bytes from 1.
    column: u32,
    ghost within: { column + length rest.now ≤ longest_line + 1 },
}

impl<'a> Words<'a> {
    ghost use Rattle.std.specs.Prelude.{◌∷◌};
    ghost use Rattle.command_words.specs.LineFaults.{IsLast};
    ghost use Rattle.command_words.specs.Taking.{left, end, plain_word, first_column, TakesPlain, TakesLeft, TakesWord};

    /// All words of a line, which has at most 65,536 bytes.
    pub fn new(line: &'a str) -> Words<'a>
        requires { length line.now ≤ longest_line }
        ensures left { left result ≡ words_at 1 (parts_from false line.now) }
        ensures end { end result ≡ length line.now + 1 }
    {
        Words {
            rest: line,
            column: 1,
        }
    }

    // Passes so many bytes.
    fn advance(&mut self, count: usize)
        requires { IsCharBoundary self.old.rest.now count }
        ensures rest { self.new.rest.now ≡ drop count self.old.rest.now }
        ensures column { self.new.column ≡ self.old.column + count }
        ensures end { end self.new ≡ end self.old }
    {
        self.rest = after(self.rest, count);
        self.column += count as u32;
    }

    /// Passes the blanks before the next word.
    pub(crate) fn skip_blanks(&mut self)
        ensures left { left self.new ≡ left self.old }
        ensures end { end self.new ≡ end self.old }
        ensures none { prefix_len is_blank self.new.rest.now ≡ 0 }
    {
        let blanks = blanks(self.rest.as_bytes());
        self.advance(blanks);
    }

    /// What is left of the line.
    pub(crate) fn rest(&self) -> &'a str
        ensures { result.now ≡ self.now.rest.now }
    {
        self.rest
    }

    /// Where what is left begins in the line. It counts bytes from 1.
    pub(crate) fn column(&self) -> u32
        ensures { result ≡ self.now.column }
    {
        self.column
    }

    /// The column of the next word, if one is left.
    pub(crate) fn next_column(&self) -> Option<u32>
        ensures { result ≡ first_column (left self.now) }
    {
        let blanks = blanks(self.rest.as_bytes());
        if blanks == self.rest.len() {
            return None;
        }
        Some(self.column + blanks as u32)
    }

    /// The column after the line's end.
    pub fn end(&self) -> u32
        ensures { result ≡ end self.now }
    {
        self.column + self.rest.len() as u32
    }

    /// Takes the word of so many plain bytes that what is left begins with.
    pub(crate) fn take_plain(&mut self, count: usize)
        requires { IsPlainWord self.old.rest.now count }
        ensures left { left self.old ≡ plain_word self.old count ∷ left self.new }
        ensures end { end self.new ≡ end self.old }
    {
        self.advance(count);
    }

    /// Takes the next word if it has no quotes, and else none: then that word is still to come, or no word is left.
    pub fn next_plain(&mut self) -> Option<LentWord<'a>>
        ensures { TakesPlain result self.old self.new }
    {
        self.skip_blanks();
        let rest = self.rest;
        let bytes = rest.as_bytes();
        let count = plain_len(bytes);
        if !is_word(bytes, count) {
            return None;
        }
        let column = self.column;
        let text = before(rest, count);
        self.take_plain(count);
        Some(LentWord { column, text })
    }

    // Takes the next word, if one is left, with a copy of its text.
    #[inline(never)]
    fn next_copied(&mut self, alloc: Global) -> Result<Option<Word<'a>>, LineFault>
        ensures { TakesLeft result self.old self.new }
    {
        self.skip_blanks();
        let bytes = self.rest.as_bytes();
        let length = word_len(bytes, plain_len(bytes));
        if length == 0 {
            return Ok(None);
        }
        let column = self.column;
        let raw = before(self.rest, length);
        self.advance(length);
        let text = copy_without_quotes(alloc, raw)?;
        Ok(Some(Word {
            column,
            text: CowStr::Owned(text),
        }))
    }

    /// Takes the next word, if one is left.
    pub(crate) fn next_left(&mut self, alloc: Global) -> Result<Option<Word<'a>>, LineFault>
        ensures { TakesLeft result self.old self.new }
    {
        match self.next_plain() {
            Some(LentWord { column, text }) => Ok(Some(Word {
                column,
                text: CowStr::Borrowed(text),
            })),
            None => self.next_copied(alloc),
        }
    }

    /// Takes the next word. If none is left, the line is refused at its end.
    pub fn next(&mut self, alloc: Global) -> Result<Word<'a>, LineFault>
        ensures { TakesWord result self.old self.new }
    {
        match self.next_left(alloc)? {
            Some(word) => Ok(word),
            None => Err(LineFault::bad_line(self.end())),
        }
    }

    /// Passes only if no word is left. Else the line is refused at the first of them.
    pub fn finish(&self) -> Result<(), LineFault>
        ensures { IsLast result (left self.now) }
    {
        match self.next_column() {
            Some(column) => Err(LineFault::bad_line(column)),
            None => Ok(()),
        }
    }
}
