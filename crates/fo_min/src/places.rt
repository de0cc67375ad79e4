ghost use Rattle.std.specs.Prelude.{◌≡◌, ◌<◌, ◌-◌, ◌^◌, ◌++◌, ◌∷◌, map, length, slice_index, IfOk, OnOk};
ghost use Rattle.std.specs.List.{All, flat_map, range_with_len};
ghost use Rattle.fo_core.specs.Sorted.{IsSig};
ghost use Rattle.fo_core.specs.Tables.{symbol_at};
ghost use Rattle.fo_core.specs.Cells.{cells_in, numbers_like, cells as cells_of};
ghost use Rattle.fo_core.specs.Tuples.{all_tuples as all_tuples_of};

use fo_core::{Cell, Seq, Sig, all_tuples, sizes_of};
use std::alloc::{AllocError, Global};

/// Adds the places in a symbol's table in this copy.
fn add_table(
    alloc: Global,
    sig: &Sig,
    sizes: &[u32],
    copy: u32,
    number: u32,
    cells: &mut Seq<Cell>,
) -> Result<(), AllocError>
    requires sig { IsSig sig.now }
    requires sizes { length sizes.now ≡ sig.now.sorts }
    requires within { number < length sig.now.symbols }
    ensures { OnOk result (cells.new ≡ cells.old ++ cells_in sig.now sizes.now copy number) }
{
    let symbol = sig.symbols.at(number as usize);
    let ns = sizes_of(alloc, sizes, symbol.args.as_slice())?;
    let tuples = all_tuples(alloc, ns.as_slice())?;
    'each: for xs in tuples.as_slice() {
        cells.push(Cell {
            symbol: number,
            copy,
            args: xs.copy(alloc)?,
        })?;
    }
    Ok(())
}

/// Adds the places in the tables of the symbols of a kind in this copy.
#[tactic(auto, using(crate::proofs::ListLemmas::filter_more))]
fn add_tables(
    alloc: Global,
    sig: &Sig,
    sizes: &[u32],
    copy: u32,
    mutable: bool,
    cells: &mut Seq<Cell>,
) -> Result<(), AllocError>
    requires sig { IsSig sig.now }
    requires sizes { length sizes.now ≡ sig.now.sorts }
    ensures { OnOk result
        (cells.new ≡ cells.old ++
        flat_map (cells_in sig.now sizes.now copy) (numbers_like sig.now sizes.now mutable)) }
{
    let count = sig.symbols.len() as u32;
    'each: for k in 0..count {
        if sig.symbols.at(k as usize).mutable == mutable {
            add_table(alloc, sig, sizes, copy, k, cells)?;
        }
    }
    Ok(())
}

/// The places in the tables of a world with these sizes and this number of copies, in their order.
#[tactic(auto, using(crate::proofs::ListLemmas::flat_map_more))]
pub fn cells(alloc: Global, sig: &Sig, sizes: &[u32], copies: u32) -> Result<Seq<Cell>, AllocError>
    requires sig { IsSig sig.now }
    requires sizes { length sizes.now ≡ sig.now.sorts }
    ensures { IfOk result (λ cs. cs ≡ cells_of sig.now sizes.now copies) }
{
    let mut cells = Seq::new(alloc);
    add_tables(alloc, sig, sizes, 0, false, &mut cells)?;
    'each: for d in 0..copies {
        add_tables(alloc, sig, sizes, d, true, &mut cells)?;
    }
    Ok(cells)
}
