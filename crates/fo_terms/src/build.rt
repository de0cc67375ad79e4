ghost use Rattle.std.specs.Prelude.{◌≡◌, ◌≢◌, ◌<◌, ◌++◌, length, map, slice_index, IfOk, OnOk};
ghost use Rattle.std.specs.List.{All, AllPairs};
ghost use Rattle.fo_core.specs.SortGraph.{FunctionEdge, Rises};
ghost use Rattle.fo_core.specs.Sorted.{IsSig};
ghost use Rattle.fo_core.specs.Tables.{symbol_at};
ghost use Rattle.fo_core.specs.QueryWeight.{cut};
ghost use Rattle.fo_core.specs.Weights.{added, power};
ghost use Rattle.fo_norm.specs.Forms.{whole, IsForm};
ghost use Rattle.fo_terms.specs.Arranged.{IsArranged};
ghost use Rattle.fo_terms.specs.Blocks.{AreFirsts, AreBases, function_numbers, arguments_at, copy_block, function_block, sort_block};
ghost use Rattle.fo_core.specs.TermCounts.{term_counts};
ghost use Rattle.fo_terms.specs.FormWeight.{AreFew};
ghost use Rattle.fo_terms.specs.Universe.{IsU32, IsUniverse};

use crate::counting::{copies_of, counts, tuples};
use crate::ranking::ranked;
use crate::symbols::{functions, symbol_of};
use crate::terms::{Ground, Universe};
use fo_core::{Order, Seq, Sig, Symbol};
use fo_norm::SkolemForm;
use std::alloc::{AllocError, Global};

/// The symbol number of spare constants.
const SPARE: u32 = u32::MAX;

/// The first place and the number of terms of each sort.
#[derive(Drop)]
struct Sizes {
    firsts: Seq<u32>,
    counts: Seq<u64>,
}

/// Where each sort's terms begin, if blocks of so many terms stand in this order.
fn firsts(alloc: Global, ranked: &[u32], counts: &[u64]) -> Result<Seq<u32>, AllocError>
    requires sorts { All (λ s. s < length counts.now) ranked.now }
    requires once { AllPairs (λ s t. s ≢ t) ranked.now }
    requires few { IsU32 (added (slice_index counts.now) ranked.now) }
    ensures { IfOk result (λ firsts. AreFirsts ranked.now counts.now firsts) }
{
    let mut firsts = vec![in alloc; 0u32; counts.len()]?;
    let mut next: u32 = 0;
    'each: for sort in ranked {
        let sort = *sort as usize;
        firsts[sort] = next;
        next += counts[sort] as u32;
    }
    Ok(Seq::from_vec(firsts))
}

/// The places of the arguments with this number, in lexicographic order. The number has to be below
/// the number of all tuples of arguments of these sorts, which is `tuples`.
fn arguments(
    alloc: Global,
    sizes: &Sizes,
    sorts: &[u32],
    tuples: u64,
    number: u64,
) -> Result<Seq<u32>, AllocError>
    requires bases { AreBases sizes.now.firsts sizes.now.counts }
    requires sorts { All (λ s. s < length sizes.now.counts) sorts.now }
    requires tuples { tuples ≡ power sizes.now.counts sorts.now }
    requires number { number < tuples }
    ensures { IfOk result (λ args. args ≡ arguments_at sizes.now.firsts sizes.now.counts sorts.now number) }
{
    let mut args = Seq::new(alloc);
    let mut tuples = tuples;
    let mut number = number;
    'each: for sort in sorts {
        tuples /= *sizes.counts.at(*sort as usize);
        let offset = (number / tuples) as u32;
        args.push(*sizes.firsts.at(*sort as usize) + offset)?;
        number %= tuples;
    }
    Ok(args)
}

/// Puts all applications of the function in one copy behind the terms.
fn push_copy(
    alloc: Global,
    sizes: &Sizes,
    number: u32,
    symbol: &Symbol,
    copy: u32,
    terms: &mut Seq<Ground>,
) -> Result<(), AllocError>
    requires bases { AreBases sizes.now.firsts sizes.now.counts }
    requires sorts { All (λ s. s < length sizes.now.counts) symbol.now.args }
    requires few { IsU32 (power sizes.now.counts symbol.now.args) }
    ensures { OnOk result (terms.new ≡ terms.old ++ copy_block sizes.now.firsts sizes.now.counts number symbol.now copy) }
{
    let sorts = symbol.args.as_slice();
    let tuples = tuples(sorts, sizes.counts.as_slice());
    'each: for tuple in 0..tuples {
        terms.push(Ground {
            symbol: number,
            copy,
            args: arguments(alloc, sizes, sorts, tuples, tuple)?,
            sort: symbol.result,
        })?;
    }
    Ok(())
}

/// Puts all applications of the function behind the terms.
fn push_function(
    alloc: Global,
    sizes: &Sizes,
    copies: u32,
    number: u32,
    symbol: &Symbol,
    terms: &mut Seq<Ground>,
) -> Result<(), AllocError>
    requires bases { AreBases sizes.now.firsts sizes.now.counts }
    requires sorts { All (λ s. s < length sizes.now.counts) symbol.now.args }
    requires few { IsU32 (power sizes.now.counts symbol.now.args) }
    ensures { OnOk result (terms.new ≡ terms.old ++ function_block sizes.now.firsts sizes.now.counts copies number symbol.now) }
{
    'each: for copy in 0..copies_of(symbol, copies) {
        push_copy(alloc, sizes, number, symbol, copy, terms)?;
    }
    Ok(())
}

/// Puts all terms of the sort behind the terms. The functions are those to the sort.
fn push_sort(
    alloc: Global,
    sig: &Sig,
    form: &SkolemForm,
    sizes: &Sizes,
    sort: u32,
    functions: &[u32],
    terms: &mut Seq<Ground>,
) -> Result<(), AllocError>
    requires sig { IsSig sig.now }
    requires form { IsForm sig.now form.now }
    requires bases { AreBases sizes.now.firsts sizes.now.counts }
    requires sorts { length sizes.now.counts ≡ sig.now.sorts }
    requires functions { functions.now ≡ function_numbers (whole sig.now form.now) sort }
    requires few { All (λ k. IsU32 (power sizes.now.counts (symbol_at (whole sig.now form.now) k).args)) functions.now }
    ensures { OnOk result (terms.new ≡ terms.old ++ sort_block sizes.now.firsts sizes.now.counts (whole sig.now form.now) form.now.copies sort) }
{
    if functions.is_empty() {
        return terms.push(Ground {
            symbol: SPARE,
            copy: 0,
            args: Seq::new(alloc),
            sort,
        });
    }
    'each: for number in functions {
        let symbol = symbol_of(sig, form, *number);
        push_function(alloc, sizes, form.copies, *number, symbol, terms)?;
    }
    Ok(())
}

/// All ground terms of a form, each once and after its arguments. They are the applications of the
/// functions of the signature, in all copies of the form, and of the Skolem functions, to ground
/// terms, and one spare constant of each sort that has no other term (the Herbrand universe).
///
/// It asks for what [`counts`] asks, for at most [`crate::MOST_TERMS`] terms of each sort, and for
/// fewer than 2^32 terms. The one error is out of memory.
pub fn universe(
    alloc: Global,
    sig: &Sig,
    form: &SkolemForm,
    order: &Order,
) -> Result<Universe, AllocError>
    requires sig { IsSig sig.now }
    requires form { IsForm sig.now form.now }
    requires order { Rises (FunctionEdge (whole sig.now form.now)) sig.now.sorts order.now.numbers }
    requires few { AreFew (term_counts (whole sig.now form.now) form.now.copies) }
    ensures universe { IfOk result (λ u. IsUniverse (whole sig.now form.now) form.now.copies u.terms) }
    ensures arranged { IfOk result (λ u. IsArranged (whole sig.now form.now) form.now.copies u) }
{
    let counts = counts(alloc, sig, form, order)?;
    universe_from(alloc, sig, form, order, counts)
}

/// What [`universe`] gives, from the numbers of terms that [`counts`] gave for the form: so a caller
/// that has counted them, to weigh the form, doesn't count them again.
///
/// It asks for what [`universe`] asks. The one error is out of memory.
pub fn universe_from(
    alloc: Global,
    sig: &Sig,
    form: &SkolemForm,
    order: &Order,
    counts: Seq<u64>,
) -> Result<Universe, AllocError>
    requires sig { IsSig sig.now }
    requires form { IsForm sig.now form.now }
    requires order { Rises (FunctionEdge (whole sig.now form.now)) sig.now.sorts order.now.numbers }
    requires few { AreFew (term_counts (whole sig.now form.now) form.now.copies) }
    requires counts { counts ≡ map cut (term_counts (whole sig.now form.now) form.now.copies) }
    ensures universe { IfOk result (λ u. IsUniverse (whole sig.now form.now) form.now.copies u.terms) }
    ensures arranged { IfOk result (λ u. IsArranged (whole sig.now form.now) form.now.copies u) }
{
    let functions = functions(alloc, sig, form)?;
    let ranked = ranked(alloc, sig.sorts, order)?;
    let firsts = firsts(alloc, ranked.as_slice(), counts.as_slice())?;
    let sizes = Sizes { firsts, counts };
    let mut terms = Seq::new(alloc);
    'each: for sort in &ranked {
        let to_sort = functions.at(*sort as usize).as_slice();
        push_sort(alloc, sig, form, &sizes, *sort, to_sort, &mut terms)?;
    }
    let Sizes { firsts, counts: _ } = sizes;
    Ok(Universe { terms, firsts })
}
