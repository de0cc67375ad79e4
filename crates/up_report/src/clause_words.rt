//! Words of a clause and what ends them.

ghost use Rattle.std.specs.Prelude.{◌≡◌, Ok, Err, ℕ};
ghost use Rattle.fo_text.specs.Reading.{Gives, Read, choice_at, or_else};
ghost use Rattle.up_report.specs.declared.clause_heads.Head.{Head};
ghost use Rattle.up_report.specs.ClauseReading.{texts};

use crate::clause_heads::{Ending, Head};
use fo_text::{Halt, choice_after};

/// Reads a mark, a word and one of the texts that end it: which one, by its place.
pub fn ended<'a>(
    bytes: &'a [u8],
    mark: &[u8],
    word: &[u8],
    ending: Ending,
) -> Result<(usize, &'a [u8]), Halt>
    ensures { Gives (λ x. (x.0, x.1.now)) result
        (choice_at mark.now word.now (texts ending) bytes.now) }
{
    match ending {
        Ending::Argument => choice_after(bytes, mark, word, &[b", V".as_slice()]),
        Ending::LastArgument => choice_after(bytes, mark, word, &[b")".as_slice()]),
        Ending::Denial => choice_after(bytes, mark, word, &[b" | ".as_slice(), b"\n".as_slice()]),
        Ending::Equality => choice_after(bytes, mark, word, &[b" = V".as_slice()]),
        Ending::Arguments => choice_after(bytes, mark, word, &[b"(V".as_slice()]),
        Ending::Unequal => choice_after(bytes, mark, word, &[b" != V".as_slice()]),
        Ending::Sort => choice_after(bytes, mark, word, &[b". ".as_slice(), b", V".as_slice()]),
        Ending::LastSort => choice_after(bytes, mark, word, &[b". ".as_slice()]),
    }
}

/// The number whose digits are at the front, as far as 32 bits hold it. It is a guess: who uses it
/// compares the number's text with the bytes.
pub fn guess(bytes: &[u8]) -> u32 {
    let mut number: u32 = 0;
    'each: for byte in bytes {
        if !byte.is_ascii_digit() {
            return number;
        }
        number = number
            .wrapping_mul(10)
            .wrapping_add(u32::from(*byte - b'0'));
    }
    number
}

/// What was read, where this number of bytes was left at the fault of other heads: of two faults the
/// later one stands.
pub fn later<'a>(
    left: usize,
    read: Result<(Head, &'a [u8]), Halt>,
) -> Result<(Head, &'a [u8]), Halt>
    ensures { (r : Read Head) → Gives (λ x. (x.0, x.1.now)) read.entry r →
        Gives (λ x. (x.0, x.1.now)) result (or_else (Err left) r) }
{
    match read {
        Ok(found) => Ok(found),
        Err(Halt::Memory) => Err(Halt::Memory),
        Err(Halt::Fault(other)) => Err(Halt::Fault(left.min(other))),
    }
}
