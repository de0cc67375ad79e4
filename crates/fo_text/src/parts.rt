ghost use Rattle.std.specs.Prelude.{◌≡◌, ◌==◌, ◌&&◌, nat_le, ◌++◌, ◌<◌, ◌≤◌, ℕ, List, IfOk, IfErr};
ghost use Rattle.fo_text.specs.Parts.{StartsWith, HasNumber, BeginsNumber, HasPlace, IsOk, IsStop};
ghost use Rattle.fo_text.specs.Reading.{Gives, literal_at, begins_some, begins_number, goes_on, digits_at, number_at};

use crate::halt::Halt;

/// Reads this text from the front of the bytes, and answers what stands after it. A fault tells
/// how many bytes are left where they differ from the text first, or end. It takes no memory.
pub fn literal<'a>(bytes: &'a [u8], text: &[u8]) -> Result<&'a [u8], Halt>
    // What is answered stands after the text.
    ensures found { IfOk result (λ rest. bytes.now ≡ text.now ++ rest.now) }
    // Bytes that begin with the text are answered.
    ensures only { (rest : List ℕ) → bytes.now ≡ text.now ++ rest → IsOk (λ r. r.now) result rest }
    // A fault is at the first byte at which the text doesn't go on.
    ensures fault { IfErr result (IsStop (StartsWith text.now) bytes.now) }
    // The same as a step of a reader of longer texts.
    ensures read { Gives (λ rest. rest.now) result (literal_at text.now bytes.now) }
{
    'each: for (i, expected) in text.iter().enumerate() {
        if i == bytes.len() {
            return Err(Halt::Fault(0));
        }
        if bytes[i] != *expected {
            return Err(Halt::Fault(bytes.len() - i));
        }
    }
    Ok(&bytes[text.len()..])
}

/// Whether the digits of `number` begin those of a number from `least` to `most`: the number
/// itself, or one that has more digits after them. 0 begins itself alone.
fn begins_one(least: u64, most: u64, number: u128) -> bool
    ensures { result ≡ begins_some least most number }
{
    let lengths: u8 = if number == 0 { 1 } else { 20 };
    let mut low = number;
    let mut high = number;
    'each: for step in 0..lengths {
        if low > u128::from(most) {
            return false;
        }
        if high >= u128::from(least) {
            return true;
        }
        low = 10 * low;
        high = 10 * high + 9;
    }
    false
}

/// Whether the byte is the first digit of a number from `least` to `most`.
fn begins(least: u64, most: u64, byte: u8) -> bool
    ensures { result ≡ begins_number least most byte }
{
    byte.is_ascii_digit() && begins_one(least, most, u128::from(byte - b'0'))
}

/// Whether the byte is a digit by which the number goes on to one from `least` to `most`.
fn continues(least: u64, most: u64, number: u64, byte: u8) -> bool
    ensures { result ≡ goes_on least most number byte }
{
    if number == 0 || !byte.is_ascii_digit() {
        return false;
    }
    begins_one(
        least,
        most,
        10 * u128::from(number) + u128::from(byte - b'0'),
    )
}

/// Whether the byte ends the number, which is large enough.
fn ends(least: u64, ending: u8, number: u64, byte: u8) -> bool
    ensures { result ≡ (byte == ending && nat_le least number) }
{
    byte == ending && least <= number
}

/// Reads the other digits of a number, up to the byte that ends it.
fn digits(bytes: &[u8], first: u64, least: u64, most: u64, ending: u8) -> Result<(u64, &[u8]), Halt>
    requires { first ≤ most }
    ensures read { Gives (λ x. (x.0, x.1.now)) result (digits_at least most ending first bytes.now) }
    ensures place { IfErr result HasPlace }
{
    let mut number = first;
    'each: for (i, byte) in bytes.iter().enumerate() {
        if ends(least, ending, number, *byte) {
            return Ok((number, &bytes[i + 1..]));
        }
        if !continues(least, most, number, *byte) {
            return Err(Halt::Fault(bytes.len() - i));
        }
        number = 10 * number + u64::from(*byte - b'0');
    }
    Err(Halt::Fault(0))
}

/// Reads a decimal number from `least` to `most`, without leading zeros, and the byte that ends
/// it, from the front of the bytes. It answers the number and what stands after that byte.
///
/// `least` is at most `most`, and the byte that ends the number is one below the digits, as a
/// space or the end of a line. A fault tells how many bytes are left at the first one by which no
/// such number goes on: with `least` 2 the digit 1 may begin one, as in `10`, and where the number
/// ends after it that end is the fault. Where the bytes end too early none are left. It takes no
/// memory.
pub fn number(bytes: &[u8], least: u64, most: u64, ending: u8) -> Result<(u64, &[u8]), Halt>
    requires range { least ≤ most }
    requires below { ending < 48 }
    // What is answered is a number from the least to the most that stands at the front.
    ensures found { IfOk result (λ x. HasNumber least most ending bytes.now (x.0, x.1.now)) }
    // Such a number that stands there is answered.
    ensures only { (x : ℕ × List ℕ) → HasNumber least most ending bytes.now x → IsOk (λ y. (y.0, y.1.now)) result x }
    // A fault is at the first byte at which none goes on.
    ensures fault { IfErr result (IsStop (BeginsNumber least most ending) bytes.now) }
    // The same as a step of a reader of longer texts.
    ensures read { Gives (λ x. (x.0, x.1.now)) result (number_at least most ending bytes.now) }
{
    if bytes.is_empty() {
        return Err(Halt::Fault(0));
    }
    let first = bytes[0];
    if !begins(least, most, first) {
        return Err(Halt::Fault(bytes.len()));
    }
    digits(&bytes[1..], u64::from(first - b'0'), least, most, ending)
}

/// The same for a number of 32 bits.
pub fn short_number(bytes: &[u8], least: u32, most: u32, ending: u8) -> Result<(u32, &[u8]), Halt>
    requires range { least ≤ most }
    requires below { ending < 48 }
    ensures { Gives (λ x. (x.0, x.1.now)) result (number_at least most ending bytes.now) }
{
    let (number, rest) = number(bytes, u64::from(least), u64::from(most), ending)?;
    Ok((number as u32, rest))
}
