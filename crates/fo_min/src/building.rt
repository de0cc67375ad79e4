ghost use Rattle.std.specs.Prelude.{◌≡◌, ◌==◌, ◌<◌, ◌≤◌, ◌^◌, ◌++◌, ◌∷◌, [], cond, length};
ghost use Rattle.std.specs.Prelude.{replicate, sum, take, IfOk, OnOk};
ghost use Rattle.std.specs.List.{All};
ghost use Rattle.fo_core.specs.declared.signature.Sig.{Sig};
ghost use Rattle.fo_core.specs.declared.formula.Formula.TheVariants as F;
ghost use Rattle.fo_core.specs.Trials.{element_sorts as element_sorts_of, element as element_of};
ghost use Rattle.fo_core.specs.Trials.{elements as elements_of, cover as cover_of};
ghost use Rattle.fo_core.specs.Trials.{covers as covers_of, has_value as has_value_of};
ghost use Rattle.fo_core.specs.Trials.{have_values as have_values_of, trial};
ghost use Rattle.fo_core.specs.Cells.{cells as cells_of};
ghost use Rattle.fo_min.specs.Search.{HasSymbol};
ghost use Rattle.fo_core.specs.Over.{some_over as some_over_of};

use fo_core::{Boxed, Cell, Formula, Query, Seq, Sig, Term, some_over};
use std::alloc::{AllocError, Global};

/// How many elements the sorts before this one have. Where the number doesn't fit 32 bits, it
/// answers out of memory.
fn first_variable(sizes: &[u32], sort: usize) -> Result<u32, AllocError>
    ensures { IfOk result (λ n. n ≡ sum (take sort sizes.now)) }
{
    let mut total: u32 = 0;
    'each: for (s, size) in sizes.iter().enumerate() {
        if s == sort {
            return Ok(total);
        }
        if *size > u32::MAX - total {
            return Err(AllocError);
        }
        total += *size;
    }
    Ok(total)
}

/// The variable that names this element of the sort.
fn element(sizes: &[u32], sort: u32, x: u32) -> Result<Term, AllocError>
    ensures { IfOk result (λ t. t ≡ element_of sizes.now sort x) }
{
    let first = first_variable(sizes, sort as usize)?;
    if x > u32::MAX - first {
        return Err(AllocError);
    }
    Ok(Term::Var(first + x))
}

/// The variables that name these elements, of these sorts.
#[tactic(auto, using(crate::proofs::BuildingLemmas::elements_end, crate::proofs::BuildingLemmas::elements_last, crate::proofs::BuildingLemmas::elements_step))]
fn elements(
    alloc: Global,
    sizes: &[u32],
    sorts: &[u32],
    xs: &[u32],
) -> Result<Seq<Term>, AllocError>
    ensures { IfOk result (λ ts. ts ≡ elements_of sizes.now sorts.now xs.now) }
{
    let mut terms = Seq::new(alloc);
    'each: for (i, sort) in sorts.iter().enumerate() {
        if i == xs.len() {
            return Ok(terms);
        }
        terms.push(element(sizes, *sort, xs[i])?)?;
    }
    Ok(terms)
}

/// Adds the sort `size` times.
fn add_sort(sort: u32, size: u32, sorts: &mut Seq<u32>) -> Result<(), AllocError>
    ensures { OnOk result (sorts.new ≡ sorts.old ++ replicate size sort) }
{
    'each: for _i in 0..size {
        sorts.push(sort)?;
    }
    Ok(())
}

/// The sorts of the variables that name elements.
#[tactic(auto, using(crate::proofs::ListLemmas::flat_map_more))]
fn element_sorts(alloc: Global, sizes: &[u32]) -> Result<Seq<u32>, AllocError>
    requires { length sizes.now < 2 ^ 32 }
    ensures { IfOk result (λ ss. ss ≡ element_sorts_of sizes.now) }
{
    let mut sorts = Seq::new(alloc);
    let count = sizes.len() as u32;
    'each: for s in 0..count {
        add_sort(s, sizes[s as usize], &mut sorts)?;
    }
    Ok(sorts)
}

/// The named elements of the sort are all that it has.
#[tactic(auto, using(crate::proofs::ListLemmas::map_more))]
fn cover(alloc: Global, sizes: &[u32], sort: u32) -> Result<Formula, AllocError>
    requires { sort < length sizes.now }
    ensures { IfOk result (λ f. f ≡ cover_of sizes.now sort) }
{
    let bound = first_variable(sizes, sizes.len())?;
    let size = sizes[sort as usize];
    let mut parts = Seq::new(alloc);
    'each: for x in 0..size {
        parts.push(Formula::Eq(Term::Var(bound), element(sizes, sort, x)?))?;
    }
    Ok(Formula::All(sort, Boxed::new(alloc, Formula::Or(parts))?))
}

/// For each of the sorts, that the named elements are all that it has.
#[tactic(auto, using(crate::proofs::ListLemmas::map_more))]
fn covers(alloc: Global, sizes: &[u32]) -> Result<Seq<Formula>, AllocError>
    requires { length sizes.now < 2 ^ 32 }
    ensures { IfOk result (λ fs. fs ≡ covers_of sizes.now) }
{
    let mut parts = Seq::new(alloc);
    let count = sizes.len() as u32;
    'each: for s in 0..count {
        parts.push(cover(alloc, sizes, s)?)?;
    }
    Ok(parts)
}

/// The relation holds, or where the value is 0 doesn't.
fn truth(alloc: Global, atom: Formula, v: u32) -> Result<Formula, AllocError>
    ensures { IfOk result (λ f. f ≡ cond (v == 0) (F.Not atom) atom) }
{
    if v == 0 {
        return Ok(Formula::Not(Boxed::new(alloc, atom)?));
    }
    Ok(atom)
}

/// The symbol's value at this place is this one.
fn has_value(
    alloc: Global,
    sig: &Sig,
    sizes: &[u32],
    cell: &Cell,
    v: u32,
) -> Result<Formula, AllocError>
    requires { HasSymbol sig.now cell.now }
    ensures { IfOk result (λ f. f ≡ has_value_of sizes.now sig.now cell.now v) }
{
    let symbol = sig.symbols.at(cell.symbol as usize);
    let args = elements(alloc, sizes, symbol.args.as_slice(), cell.args.as_slice())?;
    if symbol.relation {
        return truth(alloc, Formula::Rel(cell.symbol, cell.copy, args), v);
    }
    let named = element(sizes, symbol.result, v)?;
    Ok(Formula::Eq(Term::App(cell.symbol, cell.copy, args), named))
}

/// Adds that the values at these places, from the first on, are these.
#[tactic(auto, using(crate::proofs::BuildingLemmas::have_values_end, crate::proofs::BuildingLemmas::have_values_step))]
fn add_values(
    alloc: Global,
    sig: &Sig,
    sizes: &[u32],
    cells: &[Cell],
    values: &[u32],
    parts: &mut Seq<Formula>,
) -> Result<(), AllocError>
    requires symbols { All (HasSymbol sig.now) cells.now }
    requires enough { length values.now ≤ length cells.now }
    ensures { OnOk result
        (parts.new ≡ parts.old ++ have_values_of sizes.now sig.now cells.now values.now) }
{
    'each: for (i, v) in values.iter().enumerate() {
        parts.push(has_value(alloc, sig, sizes, &cells[i], *v)?)?;
    }
    Ok(())
}

/// The query with these claims about named elements after its own.
fn with_claim(
    alloc: Global,
    q: &Query,
    sizes: &[u32],
    parts: Seq<Formula>,
) -> Result<Query, AllocError>
    requires { length sizes.now < 2 ^ 32 }
    ensures copies { IfOk result (λ p. p.copies ≡ q.now.copies) }
    ensures claims { IfOk result (λ p.
        p.claims ≡ q.now.claims ++ some_over_of (element_sorts_of sizes.now) (F.And parts) ∷ []) }
{
    let sorts = element_sorts(alloc, sizes)?;
    let claim = some_over(alloc, sorts.as_slice(), Formula::And(parts))?;
    let Query { copies, mut claims } = q.copy(alloc)?;
    claims.push(claim)?;
    Ok(Query { copies, claims })
}

/// The query with the claim that the first sorts have no more elements than these sizes say.
pub fn size_trial(alloc: Global, q: &Query, sizes: &[u32]) -> Result<Query, AllocError>
    requires { length sizes.now < 2 ^ 32 }
    ensures { IfOk result (λ p. (sig : Sig) → p ≡ trial sig q.now sizes.now []) }
{
    with_claim(alloc, q, sizes, covers(alloc, sizes)?)
}

/// The query with that claim, and that the first table entries have these values.
pub fn value_trial(
    alloc: Global,
    sig: &Sig,
    q: &Query,
    sizes: &[u32],
    cells: &[Cell],
    values: &[u32],
) -> Result<Query, AllocError>
    requires few { length sizes.now < 2 ^ 32 }
    requires cells { cells.now ≡ cells_of sig.now sizes.now q.now.copies }
    requires enough { length values.now ≤ length cells.now }
    ensures { IfOk result (λ p. p ≡ trial sig.now q.now sizes.now values.now) }
{
    let mut parts = covers(alloc, sizes)?;
    add_values(alloc, sig, sizes, cells, values, &mut parts)?;
    with_claim(alloc, q, sizes, parts)
}
