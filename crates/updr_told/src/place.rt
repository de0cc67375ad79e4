//! Lines and columns of a text.

ghost use Rattle.std.specs.Prelude.{◌≡◌, ◌<◌, ◌^◌, length, string_bytes, IfOk};
ghost use Rattle.updr_told.specs.Places.{line_at, column_at, place_words};

use std::alloc::{AllocError, Global};

/// A place of a text, as it is told: both numbers count from 1.
#[derive(Clone, Copy, Debug, PartialEq, Eq)]
pub struct Place {
    /// One more than the line feeds before it.
    pub line: u64,
    /// One more than the bytes behind the last of them.
    pub column: u64,
}

impl Place {
    /// The place of a byte of a text of fewer than 2^32 bytes.
    pub fn of(bytes: &[u8], at: u32) -> Place
        requires { length bytes.now < 2 ^ 32 }
        ensures line { result.line ≡ line_at bytes.now at }
        ensures column { result.column ≡ column_at bytes.now at }
    {
        let before = &bytes[..bytes.len().min(at as usize)];
        let (mut line, mut column) = (1, 1);
        'each: for byte in before {
            if *byte == b'\n' {
                line += 1;
                column = 1;
            } else {
                column += 1;
            }
        }
        Place { line, column }
    }

    /// The line and the column, with a colon between them.
    pub fn words(self, alloc: Global) -> Result<String, AllocError>
        ensures { IfOk result (λ words. string_bytes words ≡ place_words self.line self.column) }
    {
        let Place { line, column } = self;
        format!(in alloc; "{line}:{column}")
    }
}
