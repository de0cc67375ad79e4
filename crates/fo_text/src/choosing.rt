//! Which one of several texts stands at the front.

ghost use Rattle.std.specs.Prelude.{◌≡◌, ◌++◌, ◌≤◌, [], length, map};
ghost use Rattle.fo_text.specs.Reading.{Gives, Read, literal_at, choice_at, or_else};

use crate::halt::Halt;
use crate::parts::literal;

/// Reads a mark, a word and a text.
fn marked<'a>(bytes: &'a [u8], mark: &[u8], word: &[u8], text: &[u8]) -> Result<&'a [u8], Halt>
    ensures { Gives (λ rest. rest.now) result (literal_at (mark.now ++ (word.now ++ text.now)) bytes.now) }
{
    let rest = literal(bytes, mark)?;
    let rest = literal(rest, word)?;
    literal(rest, text)
}

/// Reads one of these texts, each after the same mark and the same word, from the front of the
/// bytes. It answers the place of the text in the list and what stands after it.
///
/// Where several of the texts stand at the front, the first of the list is answered. A fault tells
/// how many bytes are left at the first one by which none of the texts goes on. It takes no memory.
pub fn choice_after<'a>(
    bytes: &'a [u8],
    mark: &[u8],
    word: &[u8],
    texts: &[&[u8]],
) -> Result<(usize, &'a [u8]), Halt>
    ensures { Gives (λ x. (x.0, x.1.now)) result (choice_at mark.now word.now (map (λ t. t.now) texts.now) bytes.now) }
{
    let mut least = bytes.len();
    'each: for (i, text) in texts.iter().enumerate() {
        match marked(bytes, mark, word, text) {
            Ok(rest) => return Ok((i, rest)),
            Err(Halt::Memory) => return Err(Halt::Memory),
            Err(Halt::Fault(left)) => least = least.min(left),
        }
    }
    Err(Halt::Fault(least))
}

/// Reads one of these texts from the front of the bytes. It answers the place of the text in the
/// list and what stands after it.
///
/// Where several of the texts stand at the front, the first of the list is answered. A fault tells
/// how many bytes are left at the first one by which none of the texts goes on. It takes no memory.
pub fn choice<'a>(bytes: &'a [u8], texts: &[&[u8]]) -> Result<(usize, &'a [u8]), Halt>
    ensures { Gives (λ x. (x.0, x.1.now)) result (choice_at [] [] (map (λ t. t.now) texts.now) bytes.now) }
{
    choice_after(bytes, b"", b"", texts)
}
