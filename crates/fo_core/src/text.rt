ghost use Rattle.std.specs.Prelude.{◌≡◌, string_bytes, IfOk};

use crate::seq::Seq;
use std::alloc::{AllocError, Global};
use std::marker::Model;

/// A `String` that contracts see as the list of its bytes.
#[derive(Debug, Drop)]
pub struct Text {
    text: String,
}

impl Model for Text {
    ghost use Rattle.std.specs.Prelude.{ℕ, List, string_bytes};

    ghost Value = { List ℕ };

    ghost view = { λ t. string_bytes t.text };
}

impl Text {
    /// The text of a string, without taking memory.
    pub fn from_string(text: String) -> Text
        ensures { result ≡ string_bytes text }
    {
        Text { text }
    }

    /// The text as a `str`.
    pub fn as_str(&self) -> &str
        ensures { result.now ≡ self.now }
    {
        self.text.as_str()
    }

    /// The string, without taking memory.
    pub fn into_string(self) -> String
        ensures { string_bytes result ≡ self }
    {
        self.text
    }

    /// A copy.
    pub fn copy(&self, alloc: Global) -> Result<Text, AllocError>
        ensures { IfOk result (λ t. t ≡ self.now) }
    {
        Ok(Text {
            text: String::from_str(alloc, self.text.as_str())?,
        })
    }
}

impl Seq<Text> {
    /// A copy.
    pub fn copy(&self, alloc: Global) -> Result<Seq<Text>, AllocError>
        ensures { IfOk result (λ s. s ≡ self.now) }
    {
        let mut copies = Seq::new(alloc);
        'each: for item in self.as_slice() {
            copies.push(item.copy(alloc)?)?;
        }
        Ok(copies)
    }
}
