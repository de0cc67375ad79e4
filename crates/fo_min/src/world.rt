ghost use Rattle.std.specs.Prelude.{true, false, ◌≡◌, ◌<◌, ◌≤◌, ◌++◌, ◌∷◌, [], length, map, sum};
ghost use Rattle.std.specs.Prelude.{take, drop, IfOk, OnOk};
ghost use Rattle.std.specs.List.{All, filter};
ghost use Rattle.fo_core.specs.Sorted.{HasSorts, IsSig};
ghost use Rattle.fo_core.specs.Tables.{is_like, Fits};
ghost use Rattle.fo_core.specs.Cells.{cells};
ghost use Rattle.fo_core.specs.Least.{world_values};
ghost use Rattle.fo_min.specs.Cut.{value_count, counts_like, cut as cut_of};
ghost use Rattle.fo_min.specs.Cut.{cut_copies as cut_copies_of, AreInRange};

use fo_core::{Seq, Sig, Symbol, Table, World, tuple_count};
use std::alloc::{AllocError, Global};

/// Adds how many values the table of the symbol has, where the symbol is of the kind. Where the
/// number doesn't fit 64 bits, it answers out of memory.
fn add_count(
    sizes: &[u32],
    symbol: &Symbol,
    mutable: bool,
    counts: &mut Seq<usize>,
) -> Result<(), AllocError>
    requires positive { All (λ n. 1 ≤ n) sizes.now }
    requires known { All (λ s. s < length sizes.now) symbol.now.args }
    ensures { OnOk result
        (counts.new ≡ counts.old ++
        map (value_count sizes.now) (filter (is_like mutable) (symbol.now ∷ []))) }
{
    if symbol.mutable == mutable {
        let count = tuple_count(sizes, symbol.args.as_slice()).ok_or(AllocError)?;
        counts.push(count as usize)?;
    }
    Ok(())
}

/// How many values the tables of the symbols of a kind have.
fn counts(
    alloc: Global,
    sizes: &[u32],
    symbols: &[Symbol],
    mutable: bool,
) -> Result<Seq<usize>, AllocError>
    requires positive { All (λ n. 1 ≤ n) sizes.now }
    requires known { All (HasSorts (length sizes.now)) symbols.now }
    ensures { IfOk result (λ ns. ns ≡ counts_like sizes.now symbols.now mutable) }
{
    let mut counts = Seq::new(alloc);
    'each: for symbol in symbols {
        add_count(sizes, symbol, mutable, &mut counts)?;
    }
    Ok(counts)
}

/// The sum of the numbers. Where it doesn't fit 64 bits, it answers out of memory.
fn total(numbers: &[usize]) -> Result<usize, AllocError>
    ensures { IfOk result (λ n. n ≡ sum numbers.now) }
{
    let mut total: usize = 0;
    'each: for n in numbers {
        if *n > usize::MAX - total {
            return Err(AllocError);
        }
        total += *n;
    }
    Ok(total)
}

/// The first n values, or all where there are fewer.
fn front(values: &[u32], n: usize) -> &[u32]
    ensures { result.now ≡ take n values.now }
{
    if n < values.len() {
        &values[..n]
    } else {
        values
    }
}

/// The values after these.
fn back(values: &[u32], n: usize) -> &[u32]
    ensures { result.now ≡ drop n values.now }
{
    if n < values.len() { &values[n..] } else { &[] }
}

/// Tables with these numbers of values, cut out of the values one after the other.
fn cut(alloc: Global, counts: &[usize], values: &[u32]) -> Result<Seq<Table>, AllocError>
    ensures { IfOk result (λ ts. ts ≡ cut_of counts.now values.now) }
{
    let mut tables = Seq::new(alloc);
    let mut rest = values;
    'each: for n in counts {
        let own = front(rest, *n).to_vec(alloc)?;
        tables.push(Table {
            values: Seq::from_vec(own),
        })?;
        rest = back(rest, *n);
    }
    Ok(tables)
}

/// Such tables for each of the copies.
fn cut_copies(
    alloc: Global,
    counts: &[usize],
    copies: u32,
    values: &[u32],
) -> Result<Seq<Seq<Table>>, AllocError>
    ensures { IfOk result (λ cs. cs ≡ cut_copies_of counts.now copies values.now) }
{
    let each = total(counts)?;
    let mut all = Seq::new(alloc);
    let mut rest = values;
    'each: for _d in 0..copies {
        all.push(cut(alloc, counts, front(rest, each))?)?;
        rest = back(rest, each);
    }
    Ok(all)
}

/// The world with these sizes and this number of copies whose tables are cut out of the values.
fn cut_world(
    alloc: Global,
    symbols: &[Symbol],
    copies: u32,
    sizes: &[u32],
    values: &[u32],
) -> Result<World, AllocError>
    requires positive { All (λ n. 1 ≤ n) sizes.now }
    requires known { All (HasSorts (length sizes.now)) symbols.now }
    ensures sizes { IfOk result (λ w. w.sizes ≡ sizes.now) }
    ensures fixed { IfOk result (λ w.
        w.fixed ≡ cut_of (counts_like sizes.now symbols.now false)
        (take (sum (counts_like sizes.now symbols.now false)) values.now)) }
    ensures copies { IfOk result (λ w.
        w.copies ≡ cut_copies_of (counts_like sizes.now symbols.now true) copies
        (drop (sum (counts_like sizes.now symbols.now false)) values.now)) }
{
    let fixed_counts = counts(alloc, sizes, symbols, false)?;
    let fixed_total = total(fixed_counts.as_slice())?;
    let copy_counts = counts(alloc, sizes, symbols, true)?;
    let own = front(values, fixed_total);
    let rest = back(values, fixed_total);
    Ok(World {
        sizes: Seq::from_vec(sizes.to_vec(alloc)?),
        fixed: cut(alloc, fixed_counts.as_slice(), own)?,
        copies: cut_copies(alloc, copy_counts.as_slice(), copies, rest)?,
    })
}

/// The world with these sizes and this number of copies whose tables have these values, one table
/// after the other: those of the immutable symbols, and then copy by copy those of the mutable
/// ones. Where the number of a table's values doesn't fit 64 bits, it answers out of memory.
pub fn world_from(
    alloc: Global,
    sig: &Sig,
    copies: u32,
    sizes: &[u32],
    values: &[u32],
) -> Result<World, AllocError>
    requires sig { IsSig sig.now }
    requires some { 1 ≤ copies }
    requires sorts { length sizes.now ≡ sig.now.sorts }
    requires positive { All (λ n. 1 ≤ n) sizes.now }
    requires all { length values.now ≡ length (cells sig.now sizes.now copies) }
    requires in_range { AreInRange sig.now copies sizes.now values.now }
    ensures fits { IfOk result (Fits sig.now) }
    ensures copies { IfOk result (λ w. length w.copies ≡ copies) }
    ensures sizes { IfOk result (λ w. w.sizes ≡ sizes.now) }
    ensures values { IfOk result (λ w. world_values w ≡ values.now) }
{
    cut_world(alloc, sig.symbols.as_slice(), copies, sizes, values)
}
