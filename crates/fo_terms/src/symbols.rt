ghost use Rattle.std.specs.Prelude.{◌≡◌, ℕ, ◌<◌, [], ◌∷◌, ◌++◌, cond, length, slice_index_or, IfOk, OnOk};
ghost use Rattle.fo_core.specs.Sorted.{HasSorts, IsSig};
ghost use Rattle.fo_core.specs.Tables.{symbol_at};
ghost use Rattle.fo_norm.specs.Forms.{whole, IsForm};
ghost use Rattle.fo_core.specs.TermCounts.{leads_to};
ghost use Rattle.fo_terms.specs.Blocks.{function_numbers};

use fo_core::{Seq, Sig, Symbol};
use fo_norm::SkolemForm;
use std::alloc::{AllocError, Global};

/// The symbol with this number: one of the signature, or a Skolem function of the form, which are
/// numbered behind these. There has to be such a symbol.
pub fn symbol_of<'a>(sig: &'a Sig, form: &'a SkolemForm, number: u32) -> &'a Symbol
    requires { number < length (whole sig.now form.now).symbols }
    ensures { result.now ≡ symbol_at (whole sig.now form.now) number }
{
    let number = number as usize;
    let own = sig.symbols.len();
    if number < own {
        sig.symbols.at(number)
    } else {
        form.skolems.at(number - own)
    }
}

/// A list for each sort, with nothing in it.
fn empty_lists(alloc: Global, sorts: u32) -> Result<Vec<Seq<u32>>, AllocError>
    ensures len { IfOk result (λ lists. length lists.items ≡ sorts) }
    ensures empty { IfOk result (λ lists. (t : ℕ) → t < sorts → slice_index_or lists.items t [] ≡ []) }
{
    let mut lists = Vec::new(alloc);
    'each: for _ in 0..sorts {
        lists.push(Seq::new(alloc))?;
    }
    Ok(lists)
}

/// Puts the number of a function behind those that lead to the same sort. Of a relation nothing is
/// kept.
fn add(lists: &mut Vec<Seq<u32>>, symbol: &Symbol, number: u32) -> Result<(), AllocError>
    requires { HasSorts (length lists.old.items) symbol.now }
    ensures len { OnOk result (length lists.new.items ≡ length lists.old.items) }
    ensures each { OnOk result ((t : ℕ) → t < length lists.old.items → slice_index_or lists.new.items t [] ≡ slice_index_or lists.old.items t [] ++ cond (leads_to t symbol.now) (number ∷ []) []) }
{
    if symbol.relation {
        return Ok(());
    }
    lists[symbol.result as usize].push(number)?;
    Ok(())
}

/// For each sort the numbers of the functions with values of the sort.
pub fn functions(alloc: Global, sig: &Sig, form: &SkolemForm) -> Result<Seq<Seq<u32>>, AllocError>
    requires sig { IsSig sig.now }
    requires form { IsForm sig.now form.now }
    ensures len { IfOk result (λ lists. length lists ≡ sig.now.sorts) }
    ensures each { IfOk result (λ lists. (t : ℕ) → t < sig.now.sorts → slice_index_or lists t [] ≡ function_numbers (whole sig.now form.now) t) }
{
    let mut lists = empty_lists(alloc, sig.sorts)?;
    let count = (sig.symbols.len() + form.skolems.len()) as u32;
    'each: for number in 0..count {
        let symbol = symbol_of(sig, form, number);
        add(&mut lists, symbol, number)?;
    }
    Ok(Seq::from_vec(lists))
}
