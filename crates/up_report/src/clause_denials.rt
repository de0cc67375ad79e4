//! The denials of a clause.

ghost use Rattle.std.specs.Prelude.{◌≡◌, ◌^◌, ◌<◌, ◌++◌, length, map, codes, ⊤};
ghost use Rattle.fo_core.specs.Tables.{symbol_at};
ghost use Rattle.fo_core.specs.Sorted.{IsSig};
ghost use Rattle.fo_text.specs.Reading.{Gives, choice_at};
ghost use Rattle.up_report.specs.ClauseTexts.{CanName};
ghost use Rattle.up_report.specs.ClauseReading.{IsHeadOf, stands, differ_at, fact_at, constant_at, value_at};
ghost use Rattle.up_report.specs.ClauseReading.{applied_at, denied_at, denial_at, denials_after, denials_from, body_from, body_at};

use crate::clause_heads::{Ending, Head, is_nothing};
use crate::clause_symbols::{read_body_head, read_head};
use crate::clause_variables::{read_arguments, read_variable};
use crate::clause_words::ended;
use fo_core::{Names, Seq, Sig};
use fo_text::{Halt, literal};
use std::alloc::Global;
use up_diagram::Flat;

/// Reads that this variable doesn't differ from one of its sort, and whether the line ends.
#[tactic(auto, unfolding(crate::specs::ClauseReading::differ_at))]
fn read_differ<'a>(sorts: &[u32], i: u32, bytes: &'a [u8]) -> Result<(Flat, bool, &'a [u8]), Halt>
    requires few { length sorts.now < 2 ^ 32 }
    requires within { i < length sorts.now }
    ensures { Gives (λ x. ((x.0, x.1), x.2.now)) result (differ_at sorts.now i bytes.now) }
{
    let (j, e, rest) = read_variable(bytes, sorts, sorts[i as usize], Ending::Denial)?;
    Ok((Flat::Differ(i, j), e == 1, rest))
}

/// Reads the arguments of a relation, and whether the line ends.
#[tactic(auto, unfolding(crate::specs::ClauseReading::fact_at))]
fn read_fact<'a>(
    alloc: Global,
    sig: &Sig,
    sorts: &[u32],
    sign: bool,
    r: u32,
    bytes: &'a [u8],
) -> Result<(Flat, bool, &'a [u8]), Halt>
    requires few { length sorts.now < 2 ^ 32 }
    requires within { r < length sig.now.symbols }
    ensures { Gives (λ x. ((x.0, x.1), x.2.now)) result
        (fact_at sig.now sorts.now sign r bytes.now) }
{
    let wanted = sig.symbols.at(r as usize).args.as_slice();
    let (variables, rest) = read_arguments(alloc, sorts, wanted, bytes)?;
    let (e, rest) = ended(rest, b"", b"", Ending::Denial)?;
    Ok((Flat::Fact(sign, r, variables), e == 1, rest))
}

/// Reads the value that a constant isn't, and whether the line ends.
#[tactic(auto, unfolding(crate::specs::ClauseReading::constant_at))]
fn read_constant<'a>(
    alloc: Global,
    sig: &Sig,
    sorts: &[u32],
    f: u32,
    bytes: &'a [u8],
) -> Result<(Flat, bool, &'a [u8]), Halt>
    requires few { length sorts.now < 2 ^ 32 }
    requires within { f < length sig.now.symbols }
    ensures { Gives (λ x. ((x.0, x.1), x.2.now)) result
        (constant_at sig.now sorts.now f bytes.now) }
{
    let sort = sig.symbols.at(f as usize).result;
    let (v, e, rest) = read_variable(bytes, sorts, sort, Ending::Denial)?;
    Ok((Flat::Value(f, Seq::new(alloc), v), e == 1, rest))
}

/// Reads the arguments of a function and the value that it hasn't for them, and whether the line ends.
#[tactic(auto, unfolding(crate::specs::ClauseReading::value_at))]
fn read_value<'a>(
    alloc: Global,
    sig: &Sig,
    sorts: &[u32],
    f: u32,
    bytes: &'a [u8],
) -> Result<(Flat, bool, &'a [u8]), Halt>
    requires few { length sorts.now < 2 ^ 32 }
    requires within { f < length sig.now.symbols }
    ensures { Gives (λ x. ((x.0, x.1), x.2.now)) result (value_at sig.now sorts.now f bytes.now) }
{
    let symbol = sig.symbols.at(f as usize);
    let (variables, rest) = read_arguments(alloc, sorts, symbol.args.as_slice(), bytes)?;
    let rest = literal(rest, b" != V")?;
    let (v, e, rest) = read_variable(rest, sorts, symbol.result, Ending::Denial)?;
    Ok((Flat::Value(f, variables, v), e == 1, rest))
}

/// Reads what follows a symbol, and whether the line ends.
#[tactic(auto, unfolding(crate::specs::ClauseReading::applied_at))]
fn read_applied<'a>(
    alloc: Global,
    sig: &Sig,
    sorts: &[u32],
    sign: bool,
    k: u32,
    last: bool,
    bytes: &'a [u8],
) -> Result<(Flat, bool, &'a [u8]), Halt>
    requires few { length sorts.now < 2 ^ 32 }
    requires within { k < length sig.now.symbols }
    ensures { Gives (λ x. ((x.0, x.1), x.2.now)) result
        (applied_at sig.now sorts.now sign k last bytes.now) }
{
    let symbol = sig.symbols.at(k as usize);
    if symbol.args.is_empty() {
        if symbol.relation {
            return Ok((Flat::Fact(sign, k, Seq::new(alloc)), last, bytes));
        }
        return read_constant(alloc, sig, sorts, k, bytes);
    }
    if symbol.relation {
        return read_fact(alloc, sig, sorts, sign, k, bytes);
    }
    read_value(alloc, sig, sorts, k, bytes)
}

/// Reads what follows the head of a denial: the literal that is denied, and whether the line ends.
fn read_denied<'a>(
    alloc: Global,
    sig: &Sig,
    sorts: &[u32],
    head: Head,
    bytes: &'a [u8],
) -> Result<(Flat, bool, &'a [u8]), Halt>
    requires few { length sorts.now < 2 ^ 32 }
    requires head { IsHeadOf sig.now sorts.now head }
    ensures { Gives (λ x. ((x.0, x.1), x.2.now)) result
        (denied_at sig.now sorts.now head bytes.now) }
{
    match head {
        Head::Forall => Err(Halt::Fault(bytes.len())),
        Head::Nothing => Err(Halt::Fault(bytes.len())),
        Head::Equal(i) => read_differ(sorts, i, bytes),
        Head::Applied(sign, k, last) => read_applied(alloc, sig, sorts, sign, k, last, bytes),
    }
}

/// Reads a denial: the literal that is denied, and whether the line ends.
#[tactic(auto, unfolding(crate::specs::ClauseReading::denial_at))]
fn read_denial<'a>(
    alloc: Global,
    sig: &Sig,
    names: &Names,
    sorts: &[u32],
    standing: &[bool],
    bytes: &'a [u8],
) -> Result<(Flat, bool, &'a [u8]), Halt>
    requires signature { IsSig sig.now }
    requires named { CanName sig.now names.now }
    requires standing { standing.now ≡ map (stands sorts.now) sig.now.symbols }
    requires few { length sorts.now < 2 ^ 32 }
    ensures { Gives (λ x. ((x.0, x.1), x.2.now)) result
        (denial_at sig.now names.now sorts.now bytes.now) }
{
    let (head, rest) = read_head(bytes, sig, names, sorts, standing)?;
    read_denied(alloc, sig, sorts, head, rest)
}

/// Reads denials to the end of the line, and appends their literals to these.
fn read_denials<'a>(
    alloc: Global,
    sig: &Sig,
    names: &Names,
    sorts: &[u32],
    standing: &[bool],
    mut lits: Seq<Flat>,
    bytes: &'a [u8],
) -> Result<(Seq<Flat>, &'a [u8]), Halt>
    requires signature { IsSig sig.now }
    requires named { CanName sig.now names.now }
    requires standing { standing.now ≡ map (stands sorts.now) sig.now.symbols }
    requires few { length sorts.now < 2 ^ 32 }
    ensures { Gives (λ x. (x.0, x.1.now)) result
        (denials_after sig.now names.now sorts.now lits bytes.now) }
{
    let mut rest = bytes;
    'each: for i in 0..bytes.len() + 1 {
        let (lit, last, after) = read_denial(alloc, sig, names, sorts, standing, rest)?;
        lits.push(lit)?;
        if last {
            return Ok((lits, after));
        }
        rest = after;
    }
    Err(Halt::Fault(0))
}

/// Reads the denial with this head, and those that follow it to the end of the line.
#[tactic(auto, unfolding(crate::specs::ClauseReading::denials_from))]
fn read_denials_from<'a>(
    alloc: Global,
    sig: &Sig,
    names: &Names,
    sorts: &[u32],
    standing: &[bool],
    head: Head,
    bytes: &'a [u8],
) -> Result<(Seq<Flat>, &'a [u8]), Halt>
    requires signature { IsSig sig.now }
    requires named { CanName sig.now names.now }
    requires standing { standing.now ≡ map (stands sorts.now) sig.now.symbols }
    requires few { length sorts.now < 2 ^ 32 }
    requires head { IsHeadOf sig.now sorts.now head }
    ensures { Gives (λ x. (x.0, x.1.now)) result
        (denials_from sig.now names.now sorts.now head bytes.now) }
{
    let (lit, last, rest) = read_denied(alloc, sig, sorts, head, bytes)?;
    let mut lits = Seq::new(alloc);
    lits.push(lit)?;
    if last {
        return Ok((lits, rest));
    }
    read_denials(alloc, sig, names, sorts, standing, lits, rest)
}

/// Reads what follows this head to the end of the line.
pub fn read_body_from<'a>(
    alloc: Global,
    sig: &Sig,
    names: &Names,
    sorts: &[u32],
    standing: &[bool],
    head: Head,
    bytes: &'a [u8],
) -> Result<(Seq<Flat>, &'a [u8]), Halt>
    requires signature { IsSig sig.now }
    requires named { CanName sig.now names.now }
    requires standing { standing.now ≡ map (stands sorts.now) sig.now.symbols }
    requires few { length sorts.now < 2 ^ 32 }
    requires head { IsHeadOf sig.now sorts.now head }
    ensures { Gives (λ x. (x.0, x.1.now)) result
        (body_from sig.now names.now sorts.now head bytes.now) }
{
    if is_nothing(head) {
        return Ok((Seq::new(alloc), bytes));
    }
    read_denials_from(alloc, sig, names, sorts, standing, head, bytes)
}

/// Reads what follows the binders.
#[tactic(auto, unfolding(crate::specs::ClauseReading::body_at))]
pub fn read_body<'a>(
    alloc: Global,
    sig: &Sig,
    names: &Names,
    sorts: &[u32],
    standing: &[bool],
    bytes: &'a [u8],
) -> Result<(Seq<Flat>, &'a [u8]), Halt>
    requires signature { IsSig sig.now }
    requires named { CanName sig.now names.now }
    requires standing { standing.now ≡ map (stands sorts.now) sig.now.symbols }
    requires few { length sorts.now < 2 ^ 32 }
    ensures { Gives (λ x. (x.0, x.1.now)) result (body_at sig.now names.now sorts.now bytes.now) }
{
    let (head, rest) = read_body_head(bytes, sig, names, sorts, standing)?;
    read_body_from(alloc, sig, names, sorts, standing, head, rest)
}
