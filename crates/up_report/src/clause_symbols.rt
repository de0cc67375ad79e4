//! Which symbols may stand in a clause, and the head of a denial.

ghost use Rattle.std.specs.Prelude.{◌≡◌, ◌^◌, ◌<◌, [], length, map, codes, decimal, IfSome, IfOk, Ok};
ghost use Rattle.std.specs.List.{list_all};
ghost use Rattle.fo_core.specs.Tables.{symbol_at};
ghost use Rattle.fo_core.specs.Sorted.{IsSig};
ghost use Rattle.fo_text.specs.Texts.{NamesEach};
ghost use Rattle.fo_text.specs.Reading.{Gives, literal_at};
ghost use Rattle.up_report.specs.declared.clause_heads.Ending.TheVariants.{Equality};
ghost use Rattle.up_report.specs.ClauseTexts.{CanName, mark as mark_of};
ghost use Rattle.up_report.specs.ClauseReading.{has_variable, stands as stands_of, may_stand as may_stand_of};
ghost use Rattle.up_report.specs.ClauseReading.{ended as ended_text, name_ending as ending_of, name_at};
ghost use Rattle.up_report.specs.ClauseReading.{equal_at, signed_at, either_at, head_at, body_head_at, first_head_at};

use crate::clause_heads::{Ending, Head};
use crate::clause_words::{ended, guess, later};
use fo_core::{Names, Seq, Sig, Symbol};
use fo_text::{Halt, literal};
use itoa::Buffer;
use std::alloc::{AllocError, Global};

/// Whether some variable has each of these sorts.
fn have_variables(sorts: &[u32], wanted: &[u32]) -> bool
    ensures { result ≡ list_all (has_variable sorts.now) wanted.now }
{
    'each: for sort in wanted {
        if !sorts.contains(sort) {
            return false;
        }
    }
    true
}

/// Whether variables have all sorts that the symbol needs.
fn stands(sorts: &[u32], symbol: &Symbol) -> bool
    ensures { result ≡ stands_of sorts.now symbol.now }
{
    have_variables(sorts, symbol.args.as_slice())
        && (symbol.relation || sorts.contains(&symbol.result))
}

/// For each symbol, whether variables have all sorts that it needs.
pub fn standing(alloc: Global, sig: &Sig, sorts: &[u32]) -> Result<Seq<bool>, AllocError>
    ensures { IfOk result (λ each. each ≡ map (stands_of sorts.now) sig.now.symbols) }
{
    let mut each = Seq::new(alloc);
    'each: for symbol in sig.symbols.as_slice() {
        each.push(stands(sorts, symbol))?;
    }
    Ok(each)
}

/// What ends a symbol's name.
fn name_ending(symbol: &Symbol) -> Ending
    ensures { result ≡ ending_of symbol.now }
{
    if !symbol.args.is_empty() {
        Ending::Arguments
    } else if symbol.relation {
        Ending::Denial
    } else {
        Ending::Unequal
    }
}

/// What stands in front of a symbol's name.
fn mark(sign: bool) -> &'static [u8]
    ensures { result.now ≡ mark_of sign }
{
    if sign { b"!" } else { b"" }
}

/// Reads the name of this symbol and a text that ends it.
fn read_name<'a>(
    bytes: &'a [u8],
    sig: &Sig,
    names: &Names,
    sign: bool,
    k: usize,
) -> Result<(usize, &'a [u8]), Halt>
    requires named { NamesEach sig.now names.now }
    requires within { k < length sig.now.symbols }
    ensures { Gives (λ x. (x.0, x.1.now)) result (name_at sig.now names.now sign k bytes.now) }
{
    let name = names.symbols.at(k).as_str().as_bytes();
    ended(bytes, mark(sign), name, name_ending(sig.symbols.at(k)))
}

/// Whether the symbol of number k may stand here, with `!` before it or not.
fn may_stand(sig: &Sig, sorts: &[u32], standing: &[bool], sign: bool, k: usize) -> bool
    requires within { k < length sig.now.symbols }
    requires standing { standing.now ≡ map (stands_of sorts.now) sig.now.symbols }
    ensures { result ≡ may_stand_of sorts.now sign (symbol_at sig.now k) }
{
    standing[k] && (!sign || sig.symbols.at(k).relation)
}

/// Reads a symbol that may stand here, with `!` before it or not, and the text that ends its name.
fn read_signed<'a>(
    bytes: &'a [u8],
    sig: &Sig,
    names: &Names,
    sorts: &[u32],
    standing: &[bool],
    sign: bool,
) -> Result<(Head, &'a [u8]), Halt>
    requires signature { IsSig sig.now }
    requires named { NamesEach sig.now names.now }
    requires standing { standing.now ≡ map (stands_of sorts.now) sig.now.symbols }
    ensures { Gives (λ x. (x.0, x.1.now)) result
        (signed_at sig.now names.now sorts.now sign bytes.now) }
{
    let mut least = bytes.len();
    'each: for k in 0..sig.symbols.len() {
        if !may_stand(sig, sorts, standing, sign, k) {
            continue;
        }
        match read_name(bytes, sig, names, sign, k) {
            Ok((e, rest)) => return Ok((Head::Applied(sign, k as u32, e == 1), rest)),
            Err(Halt::Memory) => return Err(Halt::Memory),
            Err(Halt::Fault(left)) => least = least.min(left),
        }
    }
    Err(Halt::Fault(least))
}

/// Reads a symbol that may stand here, and the text that ends its name.
fn read_symbol<'a>(
    bytes: &'a [u8],
    sig: &Sig,
    names: &Names,
    sorts: &[u32],
    standing: &[bool],
) -> Result<(Head, &'a [u8]), Halt>
    requires signature { IsSig sig.now }
    requires named { NamesEach sig.now names.now }
    requires standing { standing.now ≡ map (stands_of sorts.now) sig.now.symbols }
    ensures { Gives (λ x. (x.0, x.1.now)) result (either_at sig.now names.now sorts.now bytes.now) }
{
    match read_signed(bytes, sig, names, sorts, standing, false) {
        Ok(found) => Ok(found),
        Err(Halt::Memory) => Err(Halt::Memory),
        Err(Halt::Fault(left)) => {
            later(left, read_signed(bytes, sig, names, sorts, standing, true))
        }
    }
}

/// Reads this variable as one of two that aren't to differ.
fn read_equal<'a>(bytes: &'a [u8], v: u32) -> Result<&'a [u8], Halt>
    ensures { Gives (λ rest. rest.now) result
        (literal_at (ended_text (codes "V") (decimal v) Equality 0) bytes.now) }
{
    let mut buffer = Buffer::new();
    let rest = literal(bytes, b"V")?;
    let rest = literal(rest, buffer.format(v).as_bytes())?;
    literal(rest, b" = V")
}

/// The variable at the front, if it is one of two that aren't to differ.
fn find_equal<'a>(bytes: &'a [u8], count: usize) -> Option<(u32, &'a [u8])>
    ensures { IfSome result (λ x. (x.0 < count) ×
        (literal_at (ended_text (codes "V") (decimal x.0) Equality 0) bytes.now ≡ Ok x.1.now)) }
{
    if bytes.is_empty() {
        return None;
    }
    let v = guess(&bytes[1..]);
    if v as usize >= count {
        return None;
    }
    match read_equal(bytes, v) {
        Ok(rest) => Some((v, rest)),
        Err(_) => None,
    }
}

/// Tries all variables as one of two that aren't to differ.
fn try_equal<'a>(
    bytes: &'a [u8],
    sig: &Sig,
    names: &Names,
    count: usize,
) -> Result<(Head, &'a [u8]), Halt>
    requires few { count < 2 ^ 32 }
    ensures { Gives (λ x. (x.0, x.1.now)) result (equal_at sig.now names.now count bytes.now) }
{
    let mut least = bytes.len();
    'each: for v in 0..count {
        match read_equal(bytes, v as u32) {
            Ok(rest) => return Ok((Head::Equal(v as u32), rest)),
            Err(Halt::Memory) => return Err(Halt::Memory),
            Err(Halt::Fault(left)) => least = least.min(left),
        }
    }
    Err(Halt::Fault(least))
}

/// Reads the head of a denial over variables of these sorts.
pub fn read_head<'a>(
    bytes: &'a [u8],
    sig: &Sig,
    names: &Names,
    sorts: &[u32],
    standing: &[bool],
) -> Result<(Head, &'a [u8]), Halt>
    requires signature { IsSig sig.now }
    requires named { CanName sig.now names.now }
    requires standing { standing.now ≡ map (stands_of sorts.now) sig.now.symbols }
    requires few { length sorts.now < 2 ^ 32 }
    ensures { Gives (λ x. (x.0, x.1.now)) result (head_at sig.now names.now sorts.now bytes.now) }
{
    if let Some((v, rest)) = find_equal(bytes, sorts.len()) {
        return Ok((Head::Equal(v), rest));
    }
    match read_symbol(bytes, sig, names, sorts, standing) {
        Ok(found) => Ok(found),
        Err(Halt::Memory) => Err(Halt::Memory),
        Err(Halt::Fault(left)) => later(left, try_equal(bytes, sig, names, sorts.len())),
    }
}

/// Reads the head of what follows the binders.
pub fn read_body_head<'a>(
    bytes: &'a [u8],
    sig: &Sig,
    names: &Names,
    sorts: &[u32],
    standing: &[bool],
) -> Result<(Head, &'a [u8]), Halt>
    requires signature { IsSig sig.now }
    requires named { CanName sig.now names.now }
    requires standing { standing.now ≡ map (stands_of sorts.now) sig.now.symbols }
    requires few { length sorts.now < 2 ^ 32 }
    ensures { Gives (λ x. (x.0, x.1.now)) result
        (body_head_at sig.now names.now sorts.now bytes.now) }
{
    match literal(bytes, b"false\n") {
        Ok(rest) => Ok((Head::Nothing, rest)),
        Err(Halt::Memory) => Err(Halt::Memory),
        Err(Halt::Fault(left)) => later(left, read_head(bytes, sig, names, sorts, standing)),
    }
}

/// Reads the head of what follows a clause's level.
pub fn read_first_head<'a>(
    bytes: &'a [u8],
    sig: &Sig,
    names: &Names,
    standing: &[bool],
) -> Result<(Head, &'a [u8]), Halt>
    requires signature { IsSig sig.now }
    requires named { CanName sig.now names.now }
    requires standing { standing.now ≡ map (stands_of []) sig.now.symbols }
    ensures { Gives (λ x. (x.0, x.1.now)) result (first_head_at sig.now names.now bytes.now) }
{
    if sig.sorts == 0 {
        return read_body_head(bytes, sig, names, &[], standing);
    }
    match literal(bytes, b"forall V0:") {
        Ok(rest) => Ok((Head::Forall, rest)),
        Err(Halt::Memory) => Err(Halt::Memory),
        Err(Halt::Fault(left)) => later(left, read_body_head(bytes, sig, names, &[], standing)),
    }
}
