ghost use Rattle.std.specs.Prelude.{◌≡◌, ◌↔◌, ◌+◌, ◌<◌, ◌≤◌, ◌^◌, true, false, take, length, map, slice_index, IsTrue, IfOk};
ghost use Rattle.std.specs.List.{All, filter};
ghost use Rattle.fo_core.specs.Runs.{AreElements, alone as alone_copy, pair as pair_of_copies};
ghost use Rattle.fo_core.specs.Sorted.{HasSorts, IsSig};
ghost use Rattle.fo_core.specs.Tables.{symbol_at, table_of, entry, tuples, arg_sizes, is_like, range_of, IsTable, AreTables, Fits};

use crate::seq::Seq;
use crate::signature::{Sig, Symbol};
use crate::tuples::{tuple_count, tuple_place};
use std::alloc::{AllocError, Global};

/// The values of a symbol over its argument tuples in lexicographic order. A relation's values
/// are 0 and 1, a function's are elements.
#[derive(Debug, Drop)]
pub struct Table {
    pub values: Seq<u32>,
}

/// One or more states over one domain with one set of immutable tables: a finite structure of
/// many-sorted first-order logic whose mutable symbols have a table in each of its copies.
#[derive(Debug, Drop)]
pub struct World {
    /// How many elements each sort has. Elements are numbers below the size.
    pub sizes: Seq<u32>,
    /// A table for each immutable symbol, in the order of the symbols.
    pub fixed: Seq<Table>,
    /// For each copy a table for each mutable symbol, in the order of the symbols.
    pub copies: Seq<Seq<Table>>,
}

impl Table {
    /// A copy.
    pub fn copy(&self, alloc: Global) -> Result<Table, AllocError>
        ensures { IfOk result (λ x. x ≡ self.now) }
    {
        Ok(Table {
            values: self.values.copy(alloc)?,
        })
    }

    /// Whether the tables have the same values. It takes no memory.
    pub fn same(&self, other: &Table) -> bool
        ensures { IsTrue result ↔ (self.now ≡ other.now) }
    {
        self.values.as_slice() == other.values.as_slice()
    }
}

impl Seq<Table> {
    /// A copy.
    pub fn copy(&self, alloc: Global) -> Result<Seq<Table>, AllocError>
        ensures { IfOk result (λ s. s ≡ self.now) }
    {
        let mut copies = Seq::new(alloc);
        'each: for item in self.as_slice() {
            copies.push(item.copy(alloc)?)?;
        }
        Ok(copies)
    }
}

impl Seq<Seq<Table>> {
    /// A copy.
    pub fn copy(&self, alloc: Global) -> Result<Seq<Seq<Table>>, AllocError>
        ensures { IfOk result (λ s. s ≡ self.now) }
    {
        let mut copies = Seq::new(alloc);
        'each: for item in self.as_slice() {
            copies.push(item.copy(alloc)?)?;
        }
        Ok(copies)
    }
}

/// Whether the table is total and in range.
fn is_table(sizes: &Seq<u32>, symbol: &Symbol, table: &Table) -> bool
    requires nonempty { All (λ n. 1 ≤ n) sizes.now }
    requires known { HasSorts (length sizes.now) symbol.now }
    ensures { IsTrue result ↔ IsTable sizes.now symbol.now table.now }
{
    let range = if symbol.relation {
        2
    } else {
        *sizes.at(symbol.result as usize)
    };
    let cells = table.values.len() as u64;
    let Some(count) = tuple_count(sizes.as_slice(), symbol.args.as_slice()) else {
        return false;
    };
    cells == count && table.values.as_slice().iter().all(|v| *v < range)
}

/// Whether these are a table for each symbol of the kind, in their order.
fn are_tables(sizes: &Seq<u32>, symbols: &[Symbol], mutable: bool, tables: &[Table]) -> bool
    requires nonempty { All (λ n. 1 ≤ n) sizes.now }
    requires known { All (HasSorts (length sizes.now)) symbols.now }
    ensures { IsTrue result ↔ AreTables sizes.now (filter (is_like mutable) symbols.now) tables.now }
{
    let mut at = 0;
    'each: for symbol in symbols {
        if symbol.mutable == mutable {
            if at == tables.len() || !is_table(sizes, symbol, &tables[at]) {
                return false;
            }
            at += 1;
        }
    }
    at == tables.len()
}

/// Whether the lists of tables are the same.
fn same_tables(a: &[Table], b: &[Table]) -> bool
    ensures { IsTrue result ↔ (a.now ≡ b.now) }
{
    if a.len() != b.len() {
        return false;
    }
    'each: for i in 0..a.len() {
        if !a[i].same(&b[i]) {
            return false;
        }
    }
    true
}

/// Whether the lists of copies are the same.
fn same_copies(a: &[Seq<Table>], b: &[Seq<Table>]) -> bool
    ensures { IsTrue result ↔ (a.now ≡ b.now) }
{
    if a.len() != b.len() {
        return false;
    }
    'each: for i in 0..a.len() {
        if !same_tables(a[i].as_slice(), b[i].as_slice()) {
            return false;
        }
    }
    true
}

/// How many symbols of the kind come before the place.
fn rank(symbols: &[Symbol], at: usize, mutable: bool) -> usize
    requires { at ≤ length symbols.now }
    ensures { result ≡ length (filter (is_like mutable) (take at symbols.now)) }
{
    symbols[..at]
        .iter()
        .filter(|s| s.mutable == mutable)
        .count()
}

impl World {
    /// A copy.
    pub fn copy(&self, alloc: Global) -> Result<World, AllocError>
        ensures { IfOk result (λ x. x ≡ self.now) }
    {
        Ok(World {
            sizes: self.sizes.copy(alloc)?,
            fixed: self.fixed.copy(alloc)?,
            copies: self.copies.copy(alloc)?,
        })
    }

    /// Whether the world is one for the signature: it has an element of each sort, a copy, and a
    /// total table in range for each symbol. It takes no memory.
    pub fn fits(&self, sig: &Sig) -> bool
        requires { IsSig sig.now }
        ensures { IsTrue result ↔ Fits sig.now self.now }
    {
        if self.sizes.len() != sig.sorts as usize
            || !self.sizes.as_slice().iter().all(|n| *n >= 1)
            || self.copies.is_empty()
        {
            return false;
        }
        let symbols = sig.symbols.as_slice();
        if !are_tables(&self.sizes, symbols, false, self.fixed.as_slice()) {
            return false;
        }
        'each: for copy in self.copies.as_slice() {
            if !are_tables(&self.sizes, symbols, true, copy.as_slice()) {
                return false;
            }
        }
        true
    }

    /// The table of a symbol: in the given copy where it is mutable, else the fixed one.
    ///
    /// The world has to fit the signature, the symbol to be one of it, and the copy to be there
    /// where the symbol is mutable. It takes no memory.
    pub fn table(&self, sig: &Sig, copy: usize, symbol: usize) -> &Table
        requires fits { Fits sig.now self.now }
        requires within { symbol < length sig.now.symbols }
        requires copied { (symbol_at sig.now symbol).mutable ≡ true → copy < length self.now.copies }
        ensures { result.now ≡ table_of sig.now self.now copy symbol }
    {
        let mutable = sig.symbols.at(symbol).mutable;
        let place = rank(sig.symbols.as_slice(), symbol, mutable);
        if mutable {
            self.copies.at(copy).at(place)
        } else {
            self.fixed.at(place)
        }
    }

    /// The value of a symbol for these arguments, in the given copy where it is mutable: an
    /// element for a function, 1 or 0 for a relation that holds or doesn't.
    ///
    /// It asks for what `table` asks, and for arguments that are elements of the symbol's sorts.
    /// It takes no memory.
    pub fn value(&self, sig: &Sig, copy: u32, symbol: u32, args: &[u32]) -> u32
        requires fits { Fits sig.now self.now }
        requires within { symbol < length sig.now.symbols }
        requires copied { (symbol_at sig.now symbol).mutable ≡ true → copy < length self.now.copies }
        requires elements { AreElements self.now.sizes args.now (symbol_at sig.now symbol).args }
        ensures { result ≡ entry sig.now self.now copy symbol args.now }
    {
        let table = self.table(sig, copy as usize, symbol as usize);
        let _cells = table.values.len();
        let sorts = sig.symbols.at(symbol as usize).args.as_slice();
        let at = tuple_place(self.sizes.as_slice(), sorts, args);
        *table.values.at(at)
    }

    /// Whether the worlds are equal: the same sizes, the same tables of immutable symbols, and as
    /// many copies with the same tables. It takes no memory.
    pub fn same(&self, other: &World) -> bool
        ensures { IsTrue result ↔ (self.now ≡ other.now) }
    {
        self.sizes.as_slice() == other.sizes.as_slice()
            && same_tables(self.fixed.as_slice(), other.fixed.as_slice())
            && same_copies(self.copies.as_slice(), other.copies.as_slice())
    }

    /// A copy of the world taken out of it: a world of one copy, with the same sizes and tables of
    /// immutable symbols, in which the state is the same ([`copy_alone_keeps_meaning`]).
    ///
    /// The copy has to be there. Out of memory it answers `AllocError`; the world stays as it is.
    ///
    /// [`copy_alone_keeps_meaning`]: crate::copy_alone_keeps_meaning
    pub fn alone(&self, alloc: Global, copy: u32) -> Result<World, AllocError>
        requires { copy < length self.now.copies }
        ensures { IfOk result (λ w. w ≡ alone_copy self.now copy) }
    {
        let mut copies = Seq::new(alloc);
        copies.push(self.copies.at(copy as usize).copy(alloc)?)?;
        Ok(World {
            sizes: self.sizes.copy(alloc)?,
            fixed: self.fixed.copy(alloc)?,
            copies,
        })
    }

    /// A copy of the world and the next one taken out of it: a world of two copies, with the same
    /// sizes and tables of immutable symbols, in which the two states and the step are the same
    /// ([`pair_of_copies_keeps_meaning`]).
    ///
    /// The next copy has to be there. Out of memory it answers `AllocError`; the world stays as it
    /// is.
    ///
    /// [`pair_of_copies_keeps_meaning`]: crate::pair_of_copies_keeps_meaning
    pub fn pair(&self, alloc: Global, copy: u32) -> Result<World, AllocError>
        requires { copy + 1 < length self.now.copies }
        ensures { IfOk result (λ w. w ≡ pair_of_copies self.now copy) }
    {
        let at = copy as usize;
        let mut copies = Seq::new(alloc);
        copies.push(self.copies.at(at).copy(alloc)?)?;
        copies.push(self.copies.at(at + 1).copy(alloc)?)?;
        Ok(World {
            sizes: self.sizes.copy(alloc)?,
            fixed: self.fixed.copy(alloc)?,
            copies,
        })
    }
}
