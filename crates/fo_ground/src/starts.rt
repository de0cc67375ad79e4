ghost use Rattle.std.specs.Prelude.{◌≡◌, ◌<◌, ℕ, false, map, length, slice_index, IfOk};
ghost use Rattle.std.specs.List.{range_with_len};
ghost use Rattle.fo_core.specs.Sorted.{IsSig};
ghost use Rattle.fo_core.specs.Tables.{symbol_at};
ghost use Rattle.fo_norm.specs.Forms.{whole};
ghost use Rattle.fo_terms.specs.Arranged.{IsArranged};
ghost use Rattle.fo_core.specs.TermCounts.{term_counts};
ghost use Rattle.fo_terms.specs.Universe.{IsU32, IsUniverse};
ghost use Rattle.fo_ground.specs.Numbers.{row_start, symbol_start, term_start, atoms_of, rows};

use crate::layout::tuples;
use fo_core::Sig;
use fo_norm::SkolemForm;
use fo_terms::{Universe, copies_of};
use std::alloc::{AllocError, Global};

/// Where pieces of a list begin, and how long it is.
#[derive(Drop)]
pub struct Starts {
    pub starts: Vec<u32>,
    pub end: u32,
}

/// The signature with the Skolem functions after its own symbols.
pub fn with_skolems(alloc: Global, sig: &Sig, form: &SkolemForm) -> Result<Sig, AllocError>
    ensures { IfOk result (λ s. s ≡ whole sig.now form.now) }
{
    let mut whole = sig.copy(alloc)?;
    'each: for symbol in form.skolems.as_slice() {
        whole.symbols.push(symbol.copy(alloc)?)?;
    }
    Ok(whole)
}

/// Where the equations of each term with itself and the later ones of its sort begin. More of them
/// than have numbers of 32 bits are reported as out of memory.
pub fn row_starts(
    alloc: Global,
    sig: &Sig,
    copies: u32,
    sizes: &[u32],
    u: &Universe,
) -> Result<Starts, AllocError>
    requires universe { IsUniverse sig.now copies u.now.terms }
    requires arranged { IsArranged sig.now copies u.now }
    requires sizes { sizes.now ≡ term_counts sig.now copies }
    requires few { IsU32 (length u.now.terms) }
    ensures starts { IfOk result (λ s. s.starts.items ≡ map (row_start sig.now copies u.now) (range_with_len 0 (length u.now.terms))) }
    ensures end { IfOk result (λ s. s.end ≡ length (rows sig.now copies u.now)) }
{
    let mut starts = Vec::with_capacity(alloc, u.terms.len())?;
    let mut end: u32 = 0;
    'each: for (p, term) in u.terms.as_slice().iter().enumerate() {
        let sort = term.sort as usize;
        let later = *u.firsts.at(sort) + sizes[sort] - p as u32;
        starts.push(end)?;
        end = match end.checked_add(later) {
            Some(end) => end,
            None => return Err(AllocError),
        };
    }
    Ok(Starts { starts, end })
}

/// Where the tuples of each symbol begin: a relation's after the equations, which end at `end`, and a
/// function's as `term_starts` says. More variables than have numbers of 32 bits are reported as out
/// of memory.
pub fn symbol_starts(
    alloc: Global,
    sig: &Sig,
    copies: u32,
    term_starts: &[u32],
    sizes: &[u32],
    u: &Universe,
    end: u32,
) -> Result<Starts, AllocError>
    requires signature { IsSig sig.now }
    requires one_each { length term_starts.now ≡ length sig.now.symbols }
    requires term_starts { (f : ℕ) → f < length sig.now.symbols → (symbol_at sig.now f).relation ≡ false → slice_index term_starts.now f ≡ term_start sig.now copies u.now f }
    requires sizes { sizes.now ≡ term_counts sig.now copies }
    requires long { length sizes.now ≡ sig.now.sorts }
    requires end { end ≡ length (rows sig.now copies u.now) }
    ensures starts { IfOk result (λ s. s.starts.items ≡ map (symbol_start sig.now copies u.now) (range_with_len 0 (length sig.now.symbols))) }
    ensures end { IfOk result (λ s. s.end ≡ length (atoms_of sig.now copies u.now)) }
{
    let mut starts = Vec::with_capacity(alloc, sig.symbols.len())?;
    let mut end = end;
    'each: for (k, symbol) in sig.symbols.as_slice().iter().enumerate() {
        if symbol.relation {
            starts.push(end)?;
            end = match tuples(copies_of(symbol, copies), symbol.args.as_slice(), sizes) {
                Some(count) => match end.checked_add(count) {
                    Some(end) => end,
                    None => return Err(AllocError),
                },
                None => return Err(AllocError),
            };
        } else {
            starts.push(term_starts[k])?;
        }
    }
    Ok(Starts { starts, end })
}
