//! Worlds of one sort with a relation of two elements and one of three.
use fo_core::{Seq, Sig, Symbol, Table, World, all_tuples};
use std::alloc::{AllocError, Global};

/// What the relations of a world are.
#[derive(Debug, Clone, Copy)]
pub enum Kind {
    /// They hold of no elements.
    Empty,
    /// They hold of elements that ascend.
    Order,
    /// They hold of elements each of which is the next after the one before it, round a ring.
    Ring,
    /// They hold of about half of all tuples, which the number chooses.
    Random(u64),
}

/// Whether one element is the next after the other in a ring of this size.
fn is_next(size: u32, from: u32, to: u32) -> bool {
    let next = from.wrapping_add(1);
    to == next || (to == 0 && next == size)
}

/// A number that looks random.
fn mixed(state: u64, element: u32) -> u64 {
    let sum = state.wrapping_add(element as u64);
    let product = sum.wrapping_mul(6364136223846793005);
    product.wrapping_add(1442695040888963407) >> 7
}

impl Kind {
    /// Whether two elements may stand side by side where the relations hold.
    fn holds_of(&self, size: u32, from: u32, to: u32) -> bool {
        match self {
            Kind::Empty => false,
            Kind::Order => from < to,
            Kind::Ring => is_next(size, from, to),
            Kind::Random(_) => true,
        }
    }

    /// Whether the relation of as many elements holds of these, in a world of this size.
    fn holds(&self, size: u32, elements: &[u32]) -> bool {
        let mut state = match self {
            Kind::Random(seed) => *seed,
            _ => 0,
        };
        for i in 0..elements.len() {
            if i > 0 && !self.holds_of(size, elements[i - 1], elements[i]) {
                return false;
            }
            state = mixed(state, elements[i]);
        }
        !matches!(self, Kind::Random(_)) || state % 2 == 0
    }
}

/// The table of the relation of elements of so many sorts, each of this size.
fn table(alloc: Global, kind: Kind, size: u32, sizes: &[u32]) -> Result<Table, AllocError> {
    let mut values = Seq::new(alloc);
    let tuples = all_tuples(alloc, sizes)?;
    for tuple in tuples.as_slice() {
        values.push(u32::from(kind.holds(size, tuple.as_slice())))?;
    }
    Ok(Table { values })
}

fn relation(alloc: Global, args: &[u32]) -> Result<Symbol, AllocError> {
    Ok(Symbol {
        relation: true,
        mutable: true,
        args: Seq::from_vec(args.to_vec(alloc)?),
        result: 0,
    })
}

/// One sort, a relation of two elements and one of three.
pub fn signature(alloc: Global) -> Result<Sig, AllocError> {
    let mut symbols = Seq::new(alloc);
    symbols.push(relation(alloc, &[0, 0])?)?;
    symbols.push(relation(alloc, &[0, 0, 0])?)?;
    Ok(Sig { sorts: 1, symbols })
}

/// A world of one copy with so many elements.
pub fn world(alloc: Global, kind: Kind, size: u32) -> Result<World, AllocError> {
    let mut copy = Seq::new(alloc);
    copy.push(table(alloc, kind, size, &[size, size])?)?;
    copy.push(table(alloc, kind, size, &[size, size, size])?)?;
    let mut copies = Seq::new(alloc);
    copies.push(copy)?;
    Ok(World {
        sizes: Seq::from_vec([size].to_vec(alloc)?),
        fixed: Seq::new(alloc),
        copies,
    })
}
