ghost use Rattle.std.specs.Prelude.{◌≡◌, ℕ, ◌+◌, ◌<◌, ◌++◌, [], ◌∷◌, false, cond, length, slice_index, IfOk, OnOk};
ghost use Rattle.fo_core.specs.Sorted.{HasSorts, IsSig};
ghost use Rattle.fo_core.specs.Tables.{symbol_at};
ghost use Rattle.fo_core.specs.TermCounts.{applications, leads_to, term_counts};
ghost use Rattle.fo_terms.specs.Arranged.{IsArranged};
ghost use Rattle.fo_terms.specs.Universe.{IsU32, IsUniverse};
ghost use Rattle.fo_ground.specs.Numbers.{term_start};

use crate::layout::tuples;
use fo_core::{Seq, Sig, Symbol};
use fo_terms::{Universe, copies_of};
use std::alloc::{AllocError, Global};

/// How many terms of each sort the universe has.
pub fn sizes(alloc: Global, sig: &Sig, copies: u32, u: &Universe) -> Result<Seq<u32>, AllocError>
    requires universe { IsUniverse sig.now copies u.now.terms }
    requires arranged { IsArranged sig.now copies u.now }
    requires few { IsU32 (length u.now.terms) }
    ensures { IfOk result (λ sizes. sizes ≡ term_counts sig.now copies) }
{
    let mut sizes = vec![in alloc; 0u32; sig.sorts as usize]?;
    'each: for term in u.terms.as_slice() {
        sizes[term.sort as usize] += 1;
    }
    Ok(Seq::from_vec(sizes))
}

/// Adds where a function's applications begin, at the next place of its sort, and moves this place
/// after them. Of a relation a 0 is added.
fn push_start(
    symbol: &Symbol,
    copies: u32,
    sizes: &[u32],
    next: &mut Vec<u32>,
    starts: &mut Seq<u32>,
) -> Result<(), AllocError>
    requires sorts { HasSorts (length sizes.now) symbol.now }
    requires one_each { length next.old.items ≡ length sizes.now }
    requires few { symbol.now.relation ≡ false → IsU32 (slice_index next.old.items symbol.now.result + applications copies sizes.now symbol.now) }
    ensures starts { OnOk result (starts.new ≡ starts.old ++ cond symbol.now.relation 0 (slice_index next.old.items symbol.now.result) ∷ []) }
    ensures len { OnOk result (length next.new.items ≡ length next.old.items) }
    ensures next { OnOk result ((t : ℕ) → t < length next.old.items → slice_index next.new.items t ≡ slice_index next.old.items t + cond (leads_to t symbol.now) (applications copies sizes.now symbol.now) 0) }
{
    if symbol.relation {
        starts.push(0)?;
        return Ok(());
    }
    let Some(count) = tuples(copies_of(symbol, copies), symbol.args.as_slice(), sizes) else {
        return Err(AllocError);
    };
    let sort = symbol.result as usize;
    starts.push(next[sort])?;
    next[sort] += count;
    Ok(())
}

/// Where the applications of each function begin in the universe. A relation's entry means nothing.
pub fn term_starts(
    alloc: Global,
    sig: &Sig,
    copies: u32,
    sizes: &[u32],
    u: &Universe,
) -> Result<Seq<u32>, AllocError>
    requires sig { IsSig sig.now }
    requires universe { IsUniverse sig.now copies u.now.terms }
    requires arranged { IsArranged sig.now copies u.now }
    requires few { IsU32 (length u.now.terms) }
    requires sizes { sizes.now ≡ term_counts sig.now copies }
    ensures len { IfOk result (λ starts. length starts ≡ length sig.now.symbols) }
    ensures each { IfOk result (λ starts. (f : ℕ) → f < length sig.now.symbols → (symbol_at sig.now f).relation ≡ false → slice_index starts f ≡ term_start sig.now copies u.now f) }
{
    let mut starts = Seq::new(alloc);
    let mut next = u.firsts.as_slice().to_vec(alloc)?;
    'each: for symbol in sig.symbols.as_slice() {
        push_start(symbol, copies, sizes, &mut next, &mut starts)?;
    }
    Ok(starts)
}
