ghost use Rattle.std.specs.Prelude.{◌≡◌, ◌↔◌, ◌<◌, ◌^◌, false, length, slice_index, IfOk, IsTrue};
ghost use Rattle.std.specs.List.{All};
ghost use Rattle.fo_core.specs.SortGraph.{FunctionEdge, Rises};
ghost use Rattle.fo_core.specs.Sorted.{HasSorts, IsSig};
ghost use Rattle.fo_core.specs.Tables.{symbol_at};
ghost use Rattle.fo_norm.specs.Forms.{whole, IsForm};
ghost use Rattle.fo_terms.specs.Blocks.{IsRanking};
ghost use Rattle.fo_terms.specs.Entries.{entries_of};

use crate::symbols::symbol_of;
use fo_core::{Order, Sig, Symbol};
use fo_norm::SkolemForm;
use std::alloc::{AllocError, Global};

/// A sort with its number.
#[derive(Clone, Copy, Drop)]
struct Entry {
    number: u32,
    sort: u32,
}

/// The sorts with their numbers, in the order of sorts.
fn entries(alloc: Global, sorts: u32, numbers: &[u32]) -> Result<Vec<Entry>, AllocError>
    requires { length numbers.now ≡ sorts }
    ensures { IfOk result (λ entries. entries.items ≡ entries_of numbers.now) }
{
    let mut entries = Vec::new(alloc);
    'each: for sort in 0..sorts {
        entries.push(Entry {
            number: numbers[sort as usize],
            sort,
        })?;
    }
    Ok(entries)
}

/// The sorts, one with a lower number before one with a higher.
pub fn ranked(alloc: Global, sorts: u32, order: &Order) -> Result<Vec<u32>, AllocError>
    requires { length order.now.numbers ≡ sorts }
    ensures { IfOk result (λ ranked. IsRanking order.now.numbers ranked.items) }
{
    let mut entries = entries(alloc, sorts, order.numbers.as_slice())?;
    entries.sort_by_key(|entry| entry.number)?;
    let mut ranked = Vec::new(alloc);
    'each: for entry in entries.as_slice() {
        ranked.push(entry.sort)?;
    }
    Ok(ranked)
}

/// Whether the sorts of the symbol's arguments have lower numbers than the sort of its values.
fn rises_to(symbol: &Symbol, numbers: &[u32]) -> bool
    requires sorts { HasSorts (length numbers.now) symbol.now }
    requires function { symbol.now.relation ≡ false }
    ensures { IsTrue result ↔ All (λ s. slice_index numbers.now s < slice_index numbers.now symbol.now.result) symbol.now.args }
{
    let to = numbers[symbol.result as usize];
    symbol
        .args
        .as_slice()
        .iter()
        .all(|sort| numbers[*sort as usize] < to)
}

/// Whether the order has a number for each sort and rises along each function of the signature and
/// each Skolem function, from the sorts of arguments to those of values. It takes no memory.
pub fn rises(sig: &Sig, form: &SkolemForm, order: &Order) -> bool
    requires sig { IsSig sig.now }
    requires form { IsForm sig.now form.now }
    ensures { IsTrue result ↔ Rises (FunctionEdge (whole sig.now form.now)) sig.now.sorts order.now.numbers }
{
    if order.numbers.len() != sig.sorts as usize {
        return false;
    }
    let count = (sig.symbols.len() + form.skolems.len()) as u32;
    'each: for number in 0..count {
        let symbol = symbol_of(sig, form, number);
        if !symbol.relation && !rises_to(symbol, order.numbers.as_slice()) {
            return false;
        }
    }
    true
}
