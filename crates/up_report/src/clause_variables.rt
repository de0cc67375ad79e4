//! Variables of a clause.

ghost use Rattle.std.specs.Prelude.{◌≡◌, ◌^◌, ◌<◌, ◌-◌, [], length, decimal, IfSome, Ok};
ghost use Rattle.fo_text.specs.Reading.{Gives, choice_at};
ghost use Rattle.up_report.specs.ClauseReading.{texts, variable_at, arguments_at, argument_ending as ending_of};

use crate::clause_heads::Ending;
use crate::clause_words::{ended, guess};
use fo_core::Seq;
use fo_text::Halt;
use itoa::Buffer;
use std::alloc::Global;

/// Reads the number of this variable and a text that ends it.
fn read_number<'a>(bytes: &'a [u8], v: u32, ending: Ending) -> Result<(usize, &'a [u8]), Halt>
    ensures { Gives (λ x. (x.0, x.1.now)) result
        (choice_at [] (decimal v) (texts ending) bytes.now) }
{
    let mut buffer = Buffer::new();
    ended(bytes, b"", buffer.format(v).as_bytes(), ending)
}

/// The variable whose number is at the front, if it has the sort and one of the texts ends it.
fn find_variable<'a>(
    bytes: &'a [u8],
    sorts: &[u32],
    sort: u32,
    ending: Ending,
) -> Option<(u32, usize, &'a [u8])>
    ensures { IfSome result (λ x.
        variable_at sorts.now ending sort bytes.now ≡ Ok ((x.0, x.1), x.2.now)) }
{
    let v = guess(bytes);
    if v as usize >= sorts.len() {
        return None;
    }
    if sorts[v as usize] != sort {
        return None;
    }
    match read_number(bytes, v, ending) {
        Ok((e, rest)) => Some((v, e, rest)),
        Err(_) => None,
    }
}

/// Tries all variables of the sort.
fn try_variables<'a>(
    bytes: &'a [u8],
    sorts: &[u32],
    sort: u32,
    ending: Ending,
) -> Result<(u32, usize, &'a [u8]), Halt>
    requires few { length sorts.now < 2 ^ 32 }
    ensures { Gives (λ x. ((x.0, x.1), x.2.now)) result
        (variable_at sorts.now ending sort bytes.now) }
{
    let mut least = bytes.len();
    'each: for v in 0..sorts.len() {
        if sorts[v] != sort {
            continue;
        }
        match read_number(bytes, v as u32, ending) {
            Ok((e, rest)) => return Ok((v as u32, e, rest)),
            Err(Halt::Memory) => return Err(Halt::Memory),
            Err(Halt::Fault(left)) => least = least.min(left),
        }
    }
    Err(Halt::Fault(least))
}

/// Reads the number of a variable of this sort and a text that ends it: which one, by its place.
pub fn read_variable<'a>(
    bytes: &'a [u8],
    sorts: &[u32],
    sort: u32,
    ending: Ending,
) -> Result<(u32, usize, &'a [u8]), Halt>
    requires few { length sorts.now < 2 ^ 32 }
    ensures { Gives (λ x. ((x.0, x.1), x.2.now)) result
        (variable_at sorts.now ending sort bytes.now) }
{
    match find_variable(bytes, sorts, sort, ending) {
        Some(found) => Ok(found),
        None => try_variables(bytes, sorts, sort, ending),
    }
}

/// What ends an argument that this number of arguments follows.
fn argument_ending(following: usize) -> Ending
    ensures { result ≡ ending_of following }
{
    if following == 0 {
        Ending::LastArgument
    } else {
        Ending::Argument
    }
}

/// Reads variables of these sorts, up to the bracket that closes.
pub fn read_arguments<'a>(
    alloc: Global,
    sorts: &[u32],
    wanted: &[u32],
    bytes: &'a [u8],
) -> Result<(Seq<u32>, &'a [u8]), Halt>
    requires few { length sorts.now < 2 ^ 32 }
    ensures { Gives (λ x. (x.0, x.1.now)) result (arguments_at sorts.now wanted.now bytes.now) }
{
    let mut variables = Seq::new(alloc);
    let mut rest = bytes;
    'each: for i in 0..wanted.len() {
        let ending = argument_ending(wanted.len() - i - 1);
        let (variable, _, after) = read_variable(rest, sorts, wanted[i], ending)?;
        variables.push(variable)?;
        rest = after;
    }
    Ok((variables, rest))
}
