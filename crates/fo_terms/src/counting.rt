ghost use Rattle.std.specs.Prelude.{◌≡◌, ℕ, ◌<◌, length, map, slice_index, IfOk};
ghost use Rattle.std.specs.List.{All};
ghost use Rattle.fo_core.specs.SortGraph.{FunctionEdge, Rises};
ghost use Rattle.fo_core.specs.Sorted.{HasSorts, IsSig};
ghost use Rattle.fo_core.specs.Weights.{power};
ghost use Rattle.fo_norm.specs.Forms.{whole, IsForm};
ghost use Rattle.fo_terms.specs.Blocks.{function_numbers};
ghost use Rattle.fo_core.specs.TermCounts.{copies_of as copies_in, applications as applications_of, count_over, term_counts, AreCounts};
ghost use Rattle.fo_core.specs.QueryWeight.{cut};

use crate::ranking::ranked;
use crate::symbols::{functions, symbol_of};
use fo_core::{Order, Seq, Sig, Symbol};
use fo_norm::SkolemForm;
use std::alloc::{AllocError, Global};

/// How many tuples there are of terms of these sorts, of which each has so many, cut at `u64::MAX`.
pub fn tuples(sorts: &[u32], counts: &[u64]) -> u64
    requires { All (λ s. s < length counts.now) sorts.now }
    ensures { result ≡ cut (power counts.now sorts.now) }
{
    let mut product: u64 = 1;
    'each: for sort in sorts {
        product = product.saturating_mul(counts[*sort as usize]);
    }
    product
}

/// In how many copies the symbol is read.
pub fn copies_of(symbol: &Symbol, copies: u32) -> u32
    ensures { result ≡ copies_in copies symbol.now }
{
    if symbol.mutable { copies } else { 1 }
}

/// How often the symbol is applied, in all its copies, to terms of which each sort has so many, cut
/// at `u64::MAX`.
pub fn applications(symbol: &Symbol, copies: u32, counts: &[u64]) -> u64
    requires { All (λ s. s < length counts.now) symbol.now.args }
    ensures { result ≡ cut (applications_of copies counts.now symbol.now) }
{
    let tuples = tuples(symbol.args.as_slice(), counts);
    u64::from(copies_of(symbol, copies)).saturating_mul(tuples)
}

/// How many terms these functions, which are those to one sort, give with terms of which each sort
/// has so many, cut at `u64::MAX`.
fn sort_count(sig: &Sig, form: &SkolemForm, sort: u32, functions: &[u32], counts: &[u64]) -> u64
    requires sig { IsSig sig.now }
    requires form { IsForm sig.now form.now }
    requires functions { functions.now ≡ function_numbers (whole sig.now form.now) sort }
    requires counts { length counts.now ≡ sig.now.sorts }
    ensures { result ≡ cut (count_over (whole sig.now form.now) form.now.copies counts.now sort) }
{
    if functions.is_empty() {
        return 1;
    }
    let mut sum: u64 = 0;
    'each: for number in functions {
        let symbol = symbol_of(sig, form, *number);
        sum = sum.saturating_add(applications(symbol, form.copies, counts));
    }
    sum
}

/// How many ground terms each sort has, cut at `u64::MAX`. They are built from the functions of the
/// signature, in all copies of the form, and from the Skolem functions; a sort to which no function
/// leads has one spare constant.
///
/// The order has to rise along functions, from the sorts of arguments to those of values: so there
/// are finitely many terms (Yeting Ge and Leonardo de Moura, "Complete Instantiation for Quantified
/// Formulas in Satisfiability Modulo Theories", 2009). The one error is want of memory.
pub fn counts(
    alloc: Global,
    sig: &Sig,
    form: &SkolemForm,
    order: &Order,
) -> Result<Seq<u64>, AllocError>
    requires sig { IsSig sig.now }
    requires form { IsForm sig.now form.now }
    requires order { Rises (FunctionEdge (whole sig.now form.now)) sig.now.sorts order.now.numbers }
    ensures counts { IfOk result (λ counts. counts ≡ map cut (term_counts (whole sig.now form.now) form.now.copies)) }
    ensures equations { IfOk result (λ _. AreCounts (whole sig.now form.now) form.now.copies (term_counts (whole sig.now form.now) form.now.copies)) }
{
    let functions = functions(alloc, sig, form)?;
    let ranked = ranked(alloc, sig.sorts, order)?;
    let mut counts = vec![in alloc; 0u64; sig.sorts as usize]?;
    'each: for sort in &ranked {
        let to_sort = functions.at(*sort as usize).as_slice();
        let count = sort_count(sig, form, *sort, to_sort, counts.as_slice());
        counts[*sort as usize] = count;
    }
    Ok(Seq::from_vec(counts))
}
