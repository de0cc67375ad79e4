ghost use Rattle.std.specs.Prelude.{[], ◌≡◌, ◌<◌, ◌≤◌, ℕ, Bool, length, map, cond, slice_index, slice_index_or, IfOk};
ghost use Rattle.std.specs.List.{All};
ghost use Rattle.fo_core.specs.declared.signature.Symbol.{Symbol};
ghost use Rattle.fo_core.specs.Sorted.{IsSig};
ghost use Rattle.fo_core.specs.Tables.{symbol_at};
ghost use Rattle.fo_core.specs.Weights.{power};
ghost use Rattle.fo_terms.specs.Universe.{AreOf};
ghost use Rattle.prop_core.specs.Formula.{value_of};
ghost use Rattle.fo_ground.specs.Layout.{IsLaidOut};
ghost use Rattle.fo_ground.specs.Reading.{AreRead, entry_by, table_by, tables_by, picked};
ghost use Rattle.fo_core.specs.Tuples.{tuple_at};

use crate::classes::Classes;
use crate::layout::{Layout, tuples};
use crate::place::slot;
use fo_core::{Seq, Symbol, Table};
use fo_terms::Universe;
use std::alloc::{AllocError, Global};

/// The first terms of the classes in the tuple with this number in lexicographic order, where there
/// are `tuples`.
fn tuple_heads(
    alloc: Global,
    classes: &Classes,
    sorts: &[u32],
    tuples: u32,
    number: u32,
) -> Result<Vec<u32>, AllocError>
    requires one_each { length classes.now.heads ≡ length classes.now.sizes }
    requires sizes { (s : ℕ) → s < length classes.now.sizes → length (slice_index_or classes.now.heads s []) ≡ slice_index classes.now.sizes s }
    requires sorts { All (λ s. s < length classes.now.sizes) sorts.now }
    requires tuples { tuples ≡ power classes.now.sizes sorts.now }
    requires number { number < tuples }
    ensures { IfOk result (λ args. args.items ≡ picked classes.now.heads sorts.now (tuple_at (map (slice_index classes.now.sizes) sorts.now) number)) }
{
    let mut args = Vec::with_capacity(alloc, sorts.len())?;
    let mut tuples = tuples;
    let mut number = number;
    'each: for sort in sorts {
        tuples /= *classes.sizes.at(*sort as usize);
        let heads = classes.heads.at(*sort as usize);
        args.push(*heads.at((number / tuples) as usize))?;
        number %= tuples;
    }
    Ok(args)
}

/// The value of a symbol in a copy for the classes of these ground terms.
fn entry(
    lay: &Layout,
    u: &Universe,
    classes: &Classes,
    values: &[bool],
    symbol: u32,
    copy: u32,
    args: &[u32],
) -> u32
    requires ready { IsLaidOut u.now lay.now }
    requires long { lay.now.base ≤ length values.now }
    requires read { AreRead u.now lay.now (value_of values.now) classes.now }
    requires symbol { symbol < length lay.now.sig.symbols }
    requires copy { copy < cond (symbol_at lay.now.sig symbol).mutable lay.now.copies 1 }
    requires args { AreOf u.now.terms args.now (symbol_at lay.now.sig symbol).args }
    ensures { result ≡ entry_by u.now lay.now (value_of values.now) symbol copy args.now }
{
    let at = slot(lay, u, symbol, copy, args) as usize;
    if !lay.sig.symbols.at(symbol as usize).relation {
        return *classes.numbers.at(at);
    }
    if values[at] {
        return 1;
    }
    0
}

/// The table of a symbol in a copy, read off the first terms of the classes.
fn table(
    alloc: Global,
    lay: &Layout,
    u: &Universe,
    classes: &Classes,
    values: &[bool],
    symbol: u32,
    copy: u32,
) -> Result<Table, AllocError>
    requires ready { IsLaidOut u.now lay.now }
    requires sig { IsSig lay.now.sig }
    requires long { lay.now.base ≤ length values.now }
    requires read { AreRead u.now lay.now (value_of values.now) classes.now }
    requires symbol { symbol < length lay.now.sig.symbols }
    requires copy { copy < cond (symbol_at lay.now.sig symbol).mutable lay.now.copies 1 }
    ensures { IfOk result (λ t. t ≡ table_by u.now lay.now (value_of values.now) copy symbol (symbol_at lay.now.sig symbol)) }
{
    let sorts = lay.sig.symbols.at(symbol as usize).args.as_slice();
    let Some(tuples) = tuples(1, sorts, classes.sizes.as_slice()) else {
        return Err(AllocError);
    };
    let mut entries = Vec::with_capacity(alloc, tuples as usize)?;
    'each: for number in 0..tuples {
        let heads = tuple_heads(alloc, classes, sorts, tuples, number)?;
        let entry = entry(lay, u, classes, values, symbol, copy, heads.as_slice());
        entries.push(entry)?;
    }
    Ok(Table {
        values: Seq::from_vec(entries),
    })
}

/// The tables of the mutable, or of the immutable, symbols in a copy. The symbols are the first ones
/// of the layout's signature.
pub fn tables(
    alloc: Global,
    lay: &Layout,
    u: &Universe,
    classes: &Classes,
    values: &[bool],
    symbols: &[Symbol],
    mutable: bool,
    copy: u32,
) -> Result<Seq<Table>, AllocError>
    requires ready { IsLaidOut u.now lay.now }
    requires sig { IsSig lay.now.sig }
    requires long { lay.now.base ≤ length values.now }
    requires read { AreRead u.now lay.now (value_of values.now) classes.now }
    requires few { length symbols.now ≤ length lay.now.sig.symbols }
    requires own { (k : ℕ) (d : Symbol) → k < length symbols.now → symbol_at lay.now.sig k ≡ slice_index_or symbols.now k d }
    requires copy { copy < cond mutable lay.now.copies 1 }
    ensures { IfOk result (λ ts. ts ≡ tables_by u.now lay.now (value_of values.now) mutable copy 0 symbols.now) }
{
    let mut tables = Vec::new(alloc);
    'each: for (k, symbol) in symbols.iter().enumerate() {
        if symbol.mutable == mutable {
            tables.push(table(alloc, lay, u, classes, values, k as u32, copy)?)?;
        }
    }
    Ok(Seq::from_vec(tables))
}
