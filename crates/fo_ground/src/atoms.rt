ghost use Rattle.std.specs.Prelude.{◌≡◌, ◌<◌, ◌++◌, ◌%◌, ◌^◌, ℕ, Bool, map, length, cond, [], IfOk, OnOk, true};
ghost use Rattle.std.specs.List.{All};
ghost use Rattle.fo_core.specs.Sorted.{IsSig};
ghost use Rattle.fo_core.specs.Weights.{power};
ghost use Rattle.fo_ground.specs.Layout.{IsLaidOut};
ghost use Rattle.fo_ground.specs.Numbers.{count_of, layout_of, row, facts_of, atoms_of};
ghost use Rattle.fo_terms.specs.Blocks.{raised};
ghost use Rattle.fo_core.specs.Tuples.{tuple_at};

use crate::grounded::Atom;
use crate::layout::{Layout, tuples};
use fo_core::Seq;
use fo_terms::{Universe, copies_of};
use std::alloc::{AllocError, Global};

/// The places of the arguments with this number in lexicographic order. The number has to be below
/// the number of all tuples of arguments of these sorts, which is `tuples`.
fn arguments(
    alloc: Global,
    lay: &Layout,
    u: &Universe,
    sorts: &[u32],
    tuples: u32,
    number: u32,
) -> Result<Seq<u32>, AllocError>
    requires ready { IsLaidOut u.now lay.now }
    requires same { lay.now ≡ layout_of lay.now.sig lay.now.copies u.now }
    requires sorts { All (λ s. s < lay.now.sig.sorts) sorts.now }
    requires tuples { tuples ≡ power lay.now.sizes sorts.now }
    requires number { number < tuples }
    ensures { IfOk result (λ args. args ≡ raised u.now.firsts sorts.now (tuple_at (map (count_of lay.now.sig lay.now.copies u.now) sorts.now) number)) }
{
    let mut args = Vec::with_capacity(alloc, sorts.len())?;
    let mut tuples = tuples;
    let mut number = number;
    'each: for sort in sorts {
        tuples /= *lay.sizes.at(*sort as usize);
        args.push(*u.firsts.at(*sort as usize) + number / tuples)?;
        number %= tuples;
    }
    Ok(Seq::from_vec(args))
}

/// Puts the equations of a term with itself and the later ones of its sort behind the atoms.
fn push_row(lay: &Layout, u: &Universe, place: u32, atoms: &mut Vec<Atom>) -> Result<(), AllocError>
    requires ready { IsLaidOut u.now lay.now }
    requires same { lay.now ≡ layout_of lay.now.sig lay.now.copies u.now }
    requires place { place < length u.now.terms }
    ensures { OnOk result (atoms.new.items ≡ atoms.old.items ++ row lay.now.sig lay.now.copies u.now place) }
{
    let sort = u.terms.at(place as usize).sort as usize;
    let end = *u.firsts.at(sort) + *lay.sizes.at(sort);
    'each: for q in place..end {
        atoms.push(Atom::Same(place, q))?;
    }
    Ok(())
}

/// Puts a relation in all its copies of all tuples behind the atoms. Of a function nothing is put.
fn push_facts(
    alloc: Global,
    lay: &Layout,
    u: &Universe,
    symbol: u32,
    atoms: &mut Vec<Atom>,
) -> Result<(), AllocError>
    requires ready { IsLaidOut u.now lay.now }
    requires sig { IsSig lay.now.sig }
    requires same { lay.now ≡ layout_of lay.now.sig lay.now.copies u.now }
    requires symbol { symbol < length lay.now.sig.symbols }
    ensures { OnOk result (atoms.new.items ≡ atoms.old.items ++ facts_of lay.now.sig lay.now.copies u.now symbol) }
{
    let relation = lay.sig.symbols.at(symbol as usize);
    if !relation.relation {
        return Ok(());
    }
    let sorts = relation.args.as_slice();
    let sizes = lay.sizes.as_slice();
    let (Some(tuples), Some(count)) = (
        tuples(1, sorts, sizes),
        tuples(copies_of(relation, lay.copies), sorts, sizes),
    ) else {
        return Err(AllocError);
    };
    'each: for number in 0..count {
        let args = arguments(alloc, lay, u, sorts, tuples, number % tuples)?;
        atoms.push(Atom::Fact(symbol, number / tuples, args))?;
    }
    Ok(())
}

/// What each variable says: the equations of terms of one sort, then the relations in their copies.
pub fn atoms(alloc: Global, lay: &Layout, u: &Universe) -> Result<Vec<Atom>, AllocError>
    requires ready { IsLaidOut u.now lay.now }
    requires sig { IsSig lay.now.sig }
    requires same { lay.now ≡ layout_of lay.now.sig lay.now.copies u.now }
    ensures { IfOk result (λ atoms. atoms.items ≡ atoms_of lay.now.sig lay.now.copies u.now) }
{
    let mut atoms = Vec::with_capacity(alloc, lay.base as usize)?;
    'rows: for place in 0..u.terms.len() as u32 {
        push_row(lay, u, place, &mut atoms)?;
    }
    'facts: for symbol in 0..lay.sig.symbols.len() as u32 {
        push_facts(alloc, lay, u, symbol, &mut atoms)?;
    }
    Ok(atoms)
}
