//! An owned text.

ghost use Rattle.std.specs.Prelude.{◌≡◌, IfOk};
ghost use Rattle.std.specs.String.{string_bytes};

use crate::memory::{Duplicate, NoMemory};
use std::alloc::Global;
use std::convert::AsStr;
use std::marker::Model;

/// An owned UTF-8 text. Contracts see it as the list of its bytes.
#[derive(Drop)]
pub struct Text {
    inner: String,
}

impl Model for Text {
    ghost use Rattle.std.specs.Prelude.{List, ℕ};
    ghost use Rattle.std.specs.String.{string_bytes};

    ghost Value = { List ℕ };

    ghost view = { λ t. string_bytes t.inner };
}

impl Text {
    /// A text of its own, equal to the one that is lent.
    pub fn from_str(alloc: Global, text: &str) -> Result<Text, NoMemory>
        ensures { IfOk result (λ made. made ≡ text.now) }
    {
        let inner = String::from_str(alloc, text)?;
        Ok(Text { inner })
    }

    /// The text that a string holds.
    pub fn from_string(inner: String) -> Text
        ensures { result ≡ string_bytes inner }
    {
        Text { inner }
    }

    /// The text, lent.
    pub fn as_str(&self) -> &str
        ensures { result.now ≡ self.now }
    {
        self.inner.as_str()
    }
}

impl AsStr for Text {
    ghost text = { λ t. t };

    fn as_str(&self) -> &str {
        Text::as_str(self)
    }
}

impl Duplicate for Text {
    fn copy(&self, alloc: Global) -> Result<Self, NoMemory> {
        Text::from_str(alloc, self.as_str())
    }
}

impl Duplicate for Option<Text> {
    fn copy(&self, alloc: Global) -> Result<Self, NoMemory> {
        match self {
            Some(text) => Ok(Some(text.copy(alloc)?)),
            None => Ok(None),
        }
    }
}
