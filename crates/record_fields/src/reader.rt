//! Reading single fields from the front of bytes.

ghost use Rattle.std.specs.Prelude.{◌≡◌, ◌≤◌, ◌<◌, ◌^◌, List, ℕ, length, IfOk};
ghost use Rattle.record_fields.specs.Formats.{number_within, truth, number_at, text_at};
ghost use Rattle.record_fields.specs.Readers.{Shows, Lends};

use crate::flaw::Flaw;
use byteorder::{ByteOrder, LittleEndian};
use std::marker::Model;
use std::str::from_utf8;

/// Bytes that are still to be read. Contracts see it as these bytes. Each call that reads a field takes it off the
/// front. After a flaw, what is left isn't said: a record that has one isn't read any further.
#[derive(Drop)]
pub struct Reader<'a> {
    rest: &'a [u8],
}

impl<'a> Model for Reader<'a> {
    ghost use Rattle.std.specs.Prelude.{List, ℕ};

    ghost Value = { List ℕ };

    ghost view = { λ r. r.rest.now };
}

impl<'a> Reader<'a> {
    /// A reader of all these bytes.
    pub fn new(bytes: &'a [u8]) -> Reader<'a>
        ensures { result ≡ bytes.now }
    {
        Reader { rest: bytes }
    }

    /// The bytes that are left.
    pub fn rest(&self) -> &'a [u8]
        ensures { result.now ≡ self.now }
    {
        self.rest
    }

    /// How many bytes are left.
    pub fn left(&self) -> usize
        ensures { result ≡ length self.now }
    {
        self.rest.len()
    }

    /// A number in one byte. Truncated if no byte is left.
    #[tactic(auto, unfolding(crate::specs::Formats::number_at))]
    pub fn read_u8(&mut self) -> Result<u8, Flaw>
        ensures { Shows result self.new (number_at 1 self.old) }
    {
        if self.rest.is_empty() {
            return Err(Flaw::Truncated { left: 0 });
        }
        let byte = self.rest[0];
        self.rest = &self.rest[1..];
        Ok(byte)
    }

    /// A number in two bytes. Truncated if fewer are left.
    #[tactic(auto, unfolding(crate::specs::Formats::number_at))]
    pub fn read_u16(&mut self) -> Result<u16, Flaw>
        ensures { Shows result self.new (number_at 2 self.old) }
    {
        let left = self.rest.len();
        if left < 2 {
            return Err(Flaw::Truncated { left });
        }
        let number = LittleEndian::read_u16(self.rest);
        self.rest = &self.rest[2..];
        Ok(number)
    }

    /// A number in four bytes. Truncated if fewer are left.
    #[tactic(auto, unfolding(crate::specs::Formats::number_at))]
    pub fn read_u32(&mut self) -> Result<u32, Flaw>
        ensures { Shows result self.new (number_at 4 self.old) }
    {
        let left = self.rest.len();
        if left < 4 {
            return Err(Flaw::Truncated { left });
        }
        let number = LittleEndian::read_u32(self.rest);
        self.rest = &self.rest[4..];
        Ok(number)
    }

    /// A number in eight bytes. Truncated if fewer are left.
    #[tactic(auto, unfolding(crate::specs::Formats::number_at))]
    pub fn read_u64(&mut self) -> Result<u64, Flaw>
        ensures { Shows result self.new (number_at 8 self.old) }
    {
        let left = self.rest.len();
        if left < 8 {
            return Err(Flaw::Truncated { left });
        }
        let number = LittleEndian::read_u64(self.rest);
        self.rest = &self.rest[8..];
        Ok(number)
    }

    /// A number in two bytes, from `low` to `high`. Truncated if fewer bytes are left; Illegal if it is another one.
    #[tactic(auto, unfolding(crate::specs::Formats::known_at))]
    pub fn read_u16_within(&mut self, low: u16, high: u16) -> Result<u16, Flaw>
        ensures read { Shows result self.new ((number_within 2 low high).read self.old) }
        ensures within { IfOk result (λ n. n ≤ high) }
    {
        let left = self.left();
        let number = self.read_u16()?;
        if low <= number && number <= high {
            return Ok(number);
        }
        Err(Flaw::Illegal { left })
    }

    /// A number in eight bytes, from `low` to `high`. Truncated if fewer bytes are left; Illegal if it is another one.
    #[tactic(auto, unfolding(crate::specs::Formats::known_at))]
    pub fn read_u64_within(&mut self, low: u64, high: u64) -> Result<u64, Flaw>
        ensures read { Shows result self.new ((number_within 8 low high).read self.old) }
        ensures within { IfOk result (λ n. n ≤ high) }
    {
        let left = self.left();
        let number = self.read_u64()?;
        if low <= number && number <= high {
            return Ok(number);
        }
        Err(Flaw::Illegal { left })
    }

    /// A truth value, in one byte. Truncated if no byte is left; Illegal if it is neither 0 nor 1.
    #[tactic(auto, unfolding(crate::specs::Formats::known_at))]
    pub fn read_truth(&mut self) -> Result<bool, Flaw>
        ensures { Shows result self.new (truth.read self.old) }
    {
        let left = self.left();
        match self.read_u8()? {
            0 => Ok(false),
            1 => Ok(true),
            _ => Err(Flaw::Illegal { left }),
        }
    }

    /// A text, after its length in two bytes. Truncated if its bytes aren't all there; Illegal if they aren't UTF-8.
    /// Either is told from its length on, with which the field begins.
    #[tactic(auto, unfolding(crate::specs::Formats::text_at))]
    pub fn read_text(&mut self) -> Result<&'a str, Flaw>
        ensures { Lends result self.new (text_at self.old) }
    {
        let left = self.rest.len();
        if left < 2 {
            return Err(Flaw::Truncated { left });
        }
        let len = LittleEndian::read_u16(self.rest) as usize;
        let (_, rest) = self.rest.split_at(2);
        if rest.len() < len {
            return Err(Flaw::Truncated { left });
        }
        let (bytes, rest) = rest.split_at(len);
        let Ok(text) = from_utf8(bytes) else {
            return Err(Flaw::Illegal { left });
        };
        self.rest = rest;
        Ok(text)
    }
}
