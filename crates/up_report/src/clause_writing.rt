//! A clause is written.

ghost use Rattle.std.specs.Prelude.{◌≡◌, ◌++◌, ◌<◌, [], length, map, codes, slice_index_or, OnOk};
ghost use Rattle.std.specs.List.{All, flat_map};
ghost use Rattle.fo_text.specs.Texts.{NamesEach};
ghost use Rattle.up_diagram.specs.Cubes.{IsCube, IsKnown};
ghost use Rattle.up_report.specs.ClauseTexts.{joined, variable_text, applied_text, symbol_name, denial_text};
ghost use Rattle.up_report.specs.ClauseTexts.{denials_text, binder_texts, binders_text, clause_text};

use fo_core::{Names, Sig};
use itoa::Buffer;
use std::alloc::AllocError;
use up_claims::Kept;
use up_diagram::Flat;

/// Writes a variable.
fn push_variable(into: &mut Vec<u8>, v: u32) -> Result<(), AllocError>
    ensures { OnOk result (into.new.items ≡ into.old.items ++ variable_text v) }
{
    let mut buffer = Buffer::new();
    into.push(b'V')?;
    into.extend_from_slice(buffer.format(v).as_bytes())
}

/// Writes variables, each after a comma.
fn push_more_variables(into: &mut Vec<u8>, variables: &[u32]) -> Result<(), AllocError>
    ensures { OnOk result (into.new.items ≡ into.old.items ++
        flat_map (λ v. codes ", " ++ variable_text v) variables.now) }
{
    'each: for v in variables {
        into.extend_from_slice(b", ")?;
        push_variable(into, *v)?;
    }
    Ok(())
}

/// Writes variables with commas between them.
fn push_variables(into: &mut Vec<u8>, variables: &[u32]) -> Result<(), AllocError>
    ensures { OnOk result (into.new.items ≡ into.old.items ++
        joined (codes ", ") (map variable_text variables.now)) }
{
    match variables {
        [] => Ok(()),
        [first, others @ ..] => {
            push_variable(into, *first)?;
            push_more_variables(into, others)
        }
    }
}

/// Writes a symbol with variables.
fn push_applied(
    into: &mut Vec<u8>,
    names: &Names,
    symbol: u32,
    variables: &[u32],
) -> Result<(), AllocError>
    requires within { symbol < length names.now.symbols }
    ensures { OnOk result (into.new.items ≡ into.old.items ++
        applied_text (symbol_name names.now symbol) variables.now) }
{
    into.extend_from_slice(names.symbols.at(symbol as usize).as_str().as_bytes())?;
    if variables.is_empty() {
        return Ok(());
    }
    into.push(b'(')?;
    push_variables(into, variables)?;
    into.push(b')')?;
    Ok(())
}

/// Writes the negation of a literal.
fn push_denial(into: &mut Vec<u8>, sig: &Sig, names: &Names, lit: &Flat) -> Result<(), AllocError>
    requires named { NamesEach sig.now names.now }
    requires known { IsKnown sig.now lit.now }
    ensures { OnOk result (into.new.items ≡ into.old.items ++ denial_text names.now lit.now) }
{
    match lit {
        Flat::Differ(i, j) => {
            push_variable(into, *i)?;
            into.extend_from_slice(b" = ")?;
            push_variable(into, *j)
        }
        Flat::Fact(sign, r, variables) => {
            if *sign {
                into.push(b'!')?;
            }
            push_applied(into, names, *r, variables.as_slice())
        }
        Flat::Value(f, variables, v) => {
            push_applied(into, names, *f, variables.as_slice())?;
            into.extend_from_slice(b" != ")?;
            push_variable(into, *v)
        }
    }
}

/// Writes the negations of literals, each after a bar.
fn push_more_denials(
    into: &mut Vec<u8>,
    sig: &Sig,
    names: &Names,
    lits: &[Flat],
) -> Result<(), AllocError>
    requires named { NamesEach sig.now names.now }
    requires known { All (IsKnown sig.now) lits.now }
    ensures { OnOk result (into.new.items ≡ into.old.items ++
        flat_map (λ lit. codes " | " ++ denial_text names.now lit) lits.now) }
{
    'each: for lit in lits {
        into.extend_from_slice(b" | ")?;
        push_denial(into, sig, names, lit)?;
    }
    Ok(())
}

/// Writes the negations of literals.
fn push_denials(
    into: &mut Vec<u8>,
    sig: &Sig,
    names: &Names,
    lits: &[Flat],
) -> Result<(), AllocError>
    requires named { NamesEach sig.now names.now }
    requires known { All (IsKnown sig.now) lits.now }
    ensures { OnOk result (into.new.items ≡ into.old.items ++ denials_text names.now lits.now) }
{
    if lits.is_empty() {
        return into.extend_from_slice(b"false");
    }
    push_denial(into, sig, names, &lits[0])?;
    push_more_denials(into, sig, names, &lits[1..])
}

/// Writes variable k with its sort.
fn push_binder(into: &mut Vec<u8>, names: &Names, k: usize, sort: u32) -> Result<(), AllocError>
    requires within { sort < length names.now.sorts }
    ensures { OnOk result (into.new.items ≡ into.old.items ++
        (variable_text k ++ codes ":" ++ slice_index_or names.now.sorts sort [])) }
{
    let mut buffer = Buffer::new();
    into.push(b'V')?;
    into.extend_from_slice(buffer.format(k).as_bytes())?;
    into.push(b':')?;
    into.extend_from_slice(names.sorts.at(sort as usize).as_str().as_bytes())
}

/// Writes the variables from the second one on with their sorts, each after a comma.
fn push_more_binders(into: &mut Vec<u8>, names: &Names, sorts: &[u32]) -> Result<(), AllocError>
    requires within { All (λ s. s < length names.now.sorts) sorts.now }
    ensures { OnOk result (into.new.items ≡ into.old.items ++
        flat_map (λ u. codes ", " ++ u) (binder_texts names.now 1 sorts.now)) }
{
    'each: for (i, sort) in sorts.iter().enumerate() {
        into.extend_from_slice(b", ")?;
        push_binder(into, names, i + 1, *sort)?;
    }
    Ok(())
}

/// Writes the variables with their sorts, if there are some.
fn push_binders(into: &mut Vec<u8>, names: &Names, sorts: &[u32]) -> Result<(), AllocError>
    requires within { All (λ s. s < length names.now.sorts) sorts.now }
    ensures { OnOk result (into.new.items ≡ into.old.items ++ binders_text names.now sorts.now) }
{
    match sorts {
        [] => Ok(()),
        [first, others @ ..] => {
            into.extend_from_slice(b"forall ")?;
            push_binder(into, names, 0, *first)?;
            push_more_binders(into, names, others)?;
            into.extend_from_slice(b". ")
        }
    }
}

/// Writes a clause and the end of its line: its level, its variables, and the negations of the
/// literals of its cube.
///
/// There has to be a name for each sort and symbol, and the cube has to be well-sorted. The one error
/// is out of memory; `into` then holds a part of the text besides.
pub fn push_clause(
    sig: &Sig,
    names: &Names,
    kept: &Kept,
    into: &mut Vec<u8>,
) -> Result<(), AllocError>
    requires named { NamesEach sig.now names.now }
    requires cube { IsCube sig.now kept.now.cube }
    ensures { OnOk result (into.new.items ≡ into.old.items ++ clause_text names.now kept.now) }
{
    let mut buffer = Buffer::new();
    into.extend_from_slice(buffer.format(kept.level).as_bytes())?;
    into.push(b' ')?;
    push_binders(into, names, kept.cube.sorts.as_slice())?;
    push_denials(into, sig, names, kept.cube.lits.as_slice())?;
    into.push(b'\n')?;
    Ok(())
}
