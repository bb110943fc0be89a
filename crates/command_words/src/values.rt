//! Values that words spell.

ghost use Rattle.std.specs.Prelude.{◌≡◌, ◌≤◌, ◌<◌, ◌&&◌, not, nat_lt, nat_le, length, slice_index, IfOk};
ghost use Rattle.std.specs.Char.{is_ascii_digit};
ghost use Rattle.std.specs.Str.{str_eq_ignore_ascii_case};
ghost use Rattle.fsrm_model.specs.lines.GroupWords.{object_from};
ghost use Rattle.fsrm_model.specs.values.Limits.{latest_moment, longest_file, most_visits};
ghost use Rattle.fsrm_model.specs.lines.Line.{number_word, length_word, owner_word, path_word};
ghost use Rattle.fsrm_model.specs.declared.command.Refusal.TheVariants.{OutOfRange};
ghost use Rattle.fsrm_model.specs.lines.Reading.{guarded, number_from, path_from, choice_from};
ghost use Rattle.fsrm_model.specs.lines.TemplateWords.{name_from, update_from};
ghost use Rattle.command_words.specs.Lengths.{is_plain};
ghost use Rattle.command_words.specs.LineFaults.{Reads};
ghost use Rattle.command_words.specs.Numerals.{greatest_number, BeginsWithDigits, ReadsDigits, ReadsNumber};
ghost use Rattle.command_words.specs.Taking.{Takes};

use crate::fault::LineFault;
use crate::words::{Words, is_plain, is_word};
use fsrm_model::limits::{LAST_OWNER, LATEST_MOMENT, LONGEST_FILE, MOST_VISITS};
use fsrm_model::{Path, Refusal, Text, Update};
use name_rules::{PathFault, is_name, read_path};
use std::alloc::Global;
use text_rules::is_object_name;

const MOST_DIGITS: usize = 20;

/// A number of so many digits always fits 64 bits.
const FITTING_DIGITS: usize = 19;

/// Digits that a text begins with, and the number that they write.
#[derive(Clone, Copy)]
struct Digits {
    count: usize,
    number: u64,
}

// The digits that a text begins with, or the first 19 if there are more.
fn leading_digits(text: &[u8]) -> Digits
    ensures { BeginsWithDigits text.now result.count result.number }
{
    let mut number: u64 = 0;
    let mut count = 0;
    while count < text.len() && count < FITTING_DIGITS && text[count].is_ascii_digit() {
        number = number * 10 + (text[count] - b'0') as u64;
        count += 1;
    }
    Digits { count, number }
}

// Whether a word that begins with so many digits is no number, since the byte after them belongs to it and is neither a
// digit nor a quote.
fn is_spoilt(text: &[u8], count: usize) -> bool
    ensures { result ≡ ((nat_lt count (length text.now) && is_plain (slice_index text.now count)) && not (is_ascii_digit (slice_index text.now count))) }
{
    count < text.len() && is_plain(text[count]) && !text[count].is_ascii_digit()
}

// The number that digits write, or the greatest u64 if that is less. None if another byte is among them.
fn number_from_digits(text: &[u8]) -> Option<u64>
    ensures { ReadsDigits result text.now }
{
    let mut number: u64 = 0;
    for byte in text {
        if !byte.is_ascii_digit() {
            return None;
        }
        number = number
            .saturating_mul(10)
            .saturating_add((*byte - b'0') as u64);
    }
    Some(number)
}

fn is_number_length(count: usize) -> bool
    ensures { result ≡ (nat_lt 0 count && nat_le count 20) }
{
    0 < count && count <= MOST_DIGITS
}

// The number that 1 to 20 digits write, or the greatest u64 if that is less. None if the text hasn't this form.
fn number_of(text: &[u8]) -> Option<u64>
    ensures { ReadsNumber result text.now }
{
    if !is_number_length(text.len()) {
        return None;
    }
    number_from_digits(text)
}

fn is_within(low: u64, high: u64, number: u64) -> bool
    ensures { result ≡ (nat_le low number && nat_le number high) }
{
    low <= number && number <= high
}

// A number, if it is one from low to high.
fn in_range(low: u64, high: u64, number: u64) -> Result<u64, LineFault>
    ensures read { Reads result (guarded (nat_le low number && nat_le number high) OutOfRange number) }
    ensures within { IfOk result (λ n. n ≤ high) }
{
    if !is_within(low, high, number) {
        return Err(LineFault::Refused(Refusal::OutOfRange));
    }
    Ok(number)
}

/// Reads the text of a word at this column as a number from low to high.
pub fn read_number(text: &str, column: u32, low: u64, high: u64) -> Result<u64, LineFault>
    requires high { high < greatest_number }
    ensures read { Reads result (number_from low high column text.now) }
    ensures within { IfOk result (λ n. n ≤ high) }
{
    match number_of(text.as_bytes()) {
        Some(number) => in_range(low, high, number),
        None => Err(LineFault::bad_line(column)),
    }
}

/// The same for numbers of 32 bits.
pub fn read_small(text: &str, column: u32, low: u32, high: u32) -> Result<u32, LineFault>
    ensures { Reads result (number_from low high column text.now) }
{
    let number = read_number(text, column, low as u64, high as u64)?;
    Ok(number as u32)
}

/// The length of a file that a text of a word at this column is, in bytes: 0 to 17,592,185,978,880.
pub fn read_length(text: &str, column: u32) -> Result<u64, LineFault>
    ensures { Reads result (number_from 0 longest_file column text.now) }
{
    read_number(text, column, 0, LONGEST_FILE)
}

/// The path that a text spells.
pub fn read_path_word(alloc: Global, text: &str) -> Result<Path, LineFault>
    ensures { Reads result (path_from text.now) }
{
    match read_path(alloc, text) {
        Ok(path) => Ok(path),
        Err(PathFault::InvalidPath) => Err(LineFault::Refused(Refusal::InvalidPath)),
        Err(PathFault::InvalidName) => Err(LineFault::Refused(Refusal::InvalidName)),
        Err(PathFault::NoMemory) => Err(LineFault::NoMemory),
    }
}

/// Reads a text as the name of a file or a folder.
pub fn read_name(alloc: Global, text: &str) -> Result<Text, LineFault>
    ensures { Reads result (name_from text.now) }
{
    if !is_name(text) {
        return Err(LineFault::Refused(Refusal::InvalidName));
    }
    Ok(Text::from_str(alloc, text)?)
}

/// Reads a text as the name of a file group, a template or a report job: 1 to 255 bytes, no `|` and no control character.
pub fn read_object_name(alloc: Global, text: &str) -> Result<Text, LineFault>
    ensures { Reads result (object_from text.now) }
{
    if !is_object_name(text) {
        return Err(LineFault::Refused(Refusal::InvalidName));
    }
    Ok(Text::from_str(alloc, text)?)
}

/// Whether a word is this name, in letters of either case.
pub fn is_named(name: &str, word: &str) -> bool
    ensures { result ≡ str_eq_ignore_ascii_case name.now word.now }
{
    // Most are written as the name is, and then all bytes are compared at once.
    name == word || name.eq_ignore_ascii_case(word)
}

/// Whether a text of a word at this column is the first of two words, or the second.
pub fn read_choice(first: &str, second: &str, text: &str, column: u32) -> Result<bool, LineFault>
    ensures { Reads result (choice_from first.now second.now column text.now) }
{
    if is_named(first, text) {
        return Ok(true);
    }
    if is_named(second, text) {
        return Ok(false);
    }
    Err(LineFault::bad_line(column))
}

/// Which derived quotas a text of a word at this column names: none, matching or all.
pub fn read_update(text: &str, column: u32) -> Result<Update, LineFault>
    ensures { Reads result (update_from column text.now) }
{
    if is_named("none", text) {
        return Ok(Update::Keep);
    }
    if is_named("matching", text) {
        return Ok(Update::Matching);
    }
    if is_named("all", text) {
        return Ok(Update::All);
    }
    Err(LineFault::bad_line(column))
}

impl<'a> Words<'a> {
    // Takes a number from low to high. This, `length` and `owner` are inlined, since a call with its result would take
    // as long as the reading itself.
    #[inline(always)]
    fn number(&mut self, alloc: Global, low: u64, high: u64) -> Result<u64, LineFault>
        requires { high < greatest_number }
        ensures read { Takes result self.old self.new (number_word low high) }
        ensures within { IfOk result (λ n. n ≤ high) }
    {
        self.skip_blanks();
        let text = self.rest().as_bytes();
        let digits = leading_digits(text);
        if is_word(text, digits.count) {
            self.take_plain(digits.count);
            return in_range(low, high, digits.number);
        }
        if is_spoilt(text, digits.count) {
            return Err(LineFault::bad_line(self.column()));
        }
        self.other_number(alloc, low, high)
    }

    // The same of a word that has quotes or more digits, or is missing.
    #[inline(never)]
    fn other_number(&mut self, alloc: Global, low: u64, high: u64) -> Result<u64, LineFault>
        requires { high < greatest_number }
        ensures read { Takes result self.old self.new (number_word low high) }
        ensures within { IfOk result (λ n. n ≤ high) }
    {
        let word = self.next(alloc)?;
        read_number(word.text.as_str(), word.column, low, high)
    }

    /// Takes a moment, in seconds since 1970-01-01 00:00:00 UTC.
    pub fn moment(&mut self, alloc: Global) -> Result<u64, LineFault>
        ensures { Takes result self.old self.new (number_word 0 latest_moment) }
    {
        self.number(alloc, 0, LATEST_MOMENT)
    }

    /// Takes a file's length, in bytes.
    #[inline(always)]
    pub fn length(&mut self, alloc: Global) -> Result<u64, LineFault>
        ensures { Takes result self.old self.new length_word }
    {
        self.number(alloc, 0, LONGEST_FILE)
    }

    /// Takes the number of an owner, from 1.
    #[inline(always)]
    pub fn owner(&mut self, alloc: Global) -> Result<u32, LineFault>
        ensures { Takes result self.old self.new owner_word }
    {
        let owner = self.number(alloc, 1, LAST_OWNER as u64)?;
        Ok(owner as u32)
    }

    /// Takes how many folders a step of a scan may visit, from 1.
    pub fn visits(&mut self, alloc: Global) -> Result<u32, LineFault>
        ensures { Takes result self.old self.new (number_word 1 most_visits) }
    {
        let visits = self.number(alloc, 1, MOST_VISITS as u64)?;
        Ok(visits as u32)
    }

    /// Takes a path.
    pub fn path(&mut self, alloc: Global) -> Result<Path, LineFault>
        ensures { Takes result self.old self.new path_word }
    {
        match self.next_plain() {
            Some(word) => read_path_word(alloc, word.text),
            None => self.other_path(alloc),
        }
    }

    // The same of a word that has quotes, or is missing.
    #[inline(never)]
    fn other_path(&mut self, alloc: Global) -> Result<Path, LineFault>
        ensures { Takes result self.old self.new path_word }
    {
        let word = self.next(alloc)?;
        read_path_word(alloc, word.text.as_str())
    }
}
