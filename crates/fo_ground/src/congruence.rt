ghost use Rattle.std.specs.Prelude.{◌≡◌, ◌<◌, ◌≤◌, true, [], length, slice_index, slice_set, OnOk, IfOk};
ghost use Rattle.std.specs.List.{All};
ghost use Rattle.fo_core.specs.Sorted.{IsSymbol};
ghost use Rattle.fo_core.specs.Tables.{symbol_at};
ghost use Rattle.fo_terms.specs.Universe.{IsOf, AreOf, IsUniverse, term_at};
ghost use Rattle.prop_core.specs.Formula.{AreWithin};
ghost use Rattle.fo_ground.specs.Axioms.{IsFactChangedTo, IsChangedFact, IsChangedAll, AreChangedFacts, IsChangedTerm, IsChangedRow, AreChangedTerms};
ghost use Rattle.fo_ground.specs.Emits.{Adds};
ghost use Rattle.fo_ground.specs.Grounds.{IsListed, IsShaped};
ghost use Rattle.fo_ground.specs.Layout.{IsLaidOut};

use crate::axioms::{add_implied, add_rule};
use crate::emit::Builder;
use crate::grounded::Atom;
use crate::layout::Layout;
use crate::place::{same, slot};
use fo_terms::Universe;
use std::alloc::{AllocError, Global};

/// The places with another one at an index.
fn changed(alloc: Global, args: &[u32], i: usize, p: u32) -> Result<Vec<u32>, AllocError>
    requires { i < length args.now }
    ensures { IfOk result (λ v. v.items ≡ slice_set args.now i p) }
{
    let mut changed = args.to_vec(alloc)?;
    changed[i] = p;
    Ok(changed)
}

/// Adds that a relation that is true of some terms is true where the argument at i is changed to the
/// term at p, if these are the same.
fn add_changed_to(
    alloc: Global,
    lay: &Layout,
    u: &Universe,
    symbol: u32,
    copy: u32,
    args: &[u32],
    i: usize,
    p: u32,
    into: &mut Builder,
) -> Result<(), AllocError>
    requires ready { IsLaidOut u.now lay.now }
    requires symbol { IsSymbol lay.now.sig lay.now.copies true symbol copy }
    requires sorted { AreOf u.now.terms args.now (symbol_at lay.now.sig symbol).args }
    requires index { i < length args.now }
    requires place { IsOf u.now.terms (slice_index (symbol_at lay.now.sig symbol).args i) p }
    requires over { lay.now.base ≤ into.old.vars }
    requires within { AreWithin into.old.vars into.old.clauses }
    ensures { OnOk result (Adds lay.now.base [] (IsFactChangedTo u.now lay.now symbol copy args.now i p) into.old.vars into.old.clauses into.new.vars into.new.clauses) }
{
    if p == args[i] {
        return Ok(());
    }
    let before = slot(lay, u, symbol, copy, args);
    let changed = changed(alloc, args, i, p)?;
    let after = slot(lay, u, symbol, copy, changed.as_slice());
    let alike = same(lay, u, args[i], p);
    add_rule(alloc, alike, before, after, into)?;
    Ok(())
}

/// Adds that a relation that is true of some terms is true where the argument at i is changed to one
/// that is the same.
fn add_changed_fact(
    alloc: Global,
    lay: &Layout,
    u: &Universe,
    symbol: u32,
    copy: u32,
    args: &[u32],
    i: usize,
    into: &mut Builder,
) -> Result<(), AllocError>
    requires ready { IsLaidOut u.now lay.now }
    requires symbol { IsSymbol lay.now.sig lay.now.copies true symbol copy }
    requires sorted { AreOf u.now.terms args.now (symbol_at lay.now.sig symbol).args }
    requires index { i < length args.now }
    requires over { lay.now.base ≤ into.old.vars }
    requires within { AreWithin into.old.vars into.old.clauses }
    ensures { OnOk result (Adds lay.now.base [] (IsChangedFact u.now lay.now symbol copy args.now i) into.old.vars into.old.clauses into.new.vars into.new.clauses) }
{
    let sort = lay.sig.symbols.at(symbol as usize).args.as_slice()[i] as usize;
    let first = *u.firsts.at(sort);
    let end = first + *lay.sizes.at(sort);
    'each: for p in first..end {
        add_changed_to(alloc, lay, u, symbol, copy, args, i, p, into)?;
    }
    Ok(())
}

/// Adds the same for each of the arguments.
fn add_changed_facts(
    alloc: Global,
    lay: &Layout,
    u: &Universe,
    symbol: u32,
    copy: u32,
    args: &[u32],
    into: &mut Builder,
) -> Result<(), AllocError>
    requires ready { IsLaidOut u.now lay.now }
    requires symbol { IsSymbol lay.now.sig lay.now.copies true symbol copy }
    requires sorted { AreOf u.now.terms args.now (symbol_at lay.now.sig symbol).args }
    requires over { lay.now.base ≤ into.old.vars }
    requires within { AreWithin into.old.vars into.old.clauses }
    ensures { OnOk result (Adds lay.now.base [] (IsChangedAll u.now lay.now symbol copy args.now) into.old.vars into.old.clauses into.new.vars into.new.clauses) }
{
    'each: for i in 0..args.len() {
        add_changed_fact(alloc, lay, u, symbol, copy, args, i, into)?;
    }
    Ok(())
}

/// Adds congruence of the relations, one argument at a time. The atoms are those of the layout.
pub fn add_relations(
    alloc: Global,
    lay: &Layout,
    u: &Universe,
    atoms: &[Atom],
    into: &mut Builder,
) -> Result<(), AllocError>
    requires ready { IsLaidOut u.now lay.now }
    requires listed { IsListed u.now lay.now atoms.now }
    requires shaped { All (IsShaped lay.now.sig lay.now.copies u.now) atoms.now }
    requires long { length atoms.now ≡ lay.now.base }
    requires over { lay.now.base ≤ into.old.vars }
    requires within { AreWithin into.old.vars into.old.clauses }
    ensures { OnOk result (Adds lay.now.base [] (AreChangedFacts u.now lay.now) into.old.vars into.old.clauses into.new.vars into.new.clauses) }
{
    'each: for atom in atoms {
        match atom {
            Atom::Fact(symbol, copy, args) => {
                add_changed_facts(alloc, lay, u, *symbol, *copy, args.as_slice(), into)?;
            }
            Atom::Same(_, _) => {}
            Atom::Helper => {}
        }
    }
    Ok(())
}

/// Adds that a term is the same where its argument at i is changed to a later one that is the same.
fn add_changed_term(
    alloc: Global,
    lay: &Layout,
    u: &Universe,
    place: u32,
    i: usize,
    into: &mut Builder,
) -> Result<(), AllocError>
    requires ready { IsLaidOut u.now lay.now }
    requires universe { IsUniverse lay.now.sig lay.now.copies u.now.terms }
    requires place { place < length u.now.terms }
    requires index { i < length (term_at u.now.terms place).args }
    requires over { lay.now.base ≤ into.old.vars }
    requires within { AreWithin into.old.vars into.old.clauses }
    ensures { OnOk result (Adds lay.now.base [] (IsChangedTerm u.now lay.now place i) into.old.vars into.old.clauses into.new.vars into.new.clauses) }
{
    let term = u.terms.at(place as usize);
    let args = term.args.as_slice();
    let sort = lay.sig.symbols.at(term.symbol as usize).args.as_slice()[i] as usize;
    let end = *u.firsts.at(sort) + *lay.sizes.at(sort);
    'each: for p in args[i] + 1..end {
        let changed = changed(alloc, args, i, p)?;
        let other = slot(lay, u, term.symbol, term.copy, changed.as_slice());
        let alike = same(lay, u, args[i], p);
        let then = same(lay, u, place, other);
        add_implied(alloc, alike, then, into)?;
    }
    Ok(())
}

/// Adds the same for each argument of the term.
fn add_changed_row(
    alloc: Global,
    lay: &Layout,
    u: &Universe,
    place: u32,
    into: &mut Builder,
) -> Result<(), AllocError>
    requires ready { IsLaidOut u.now lay.now }
    requires universe { IsUniverse lay.now.sig lay.now.copies u.now.terms }
    requires place { place < length u.now.terms }
    requires over { lay.now.base ≤ into.old.vars }
    requires within { AreWithin into.old.vars into.old.clauses }
    ensures { OnOk result (Adds lay.now.base [] (IsChangedRow u.now lay.now place) into.old.vars into.old.clauses into.new.vars into.new.clauses) }
{
    let count = u.terms.at(place as usize).args.len();
    'each: for i in 0..count {
        add_changed_term(alloc, lay, u, place, i, into)?;
    }
    Ok(())
}

/// Adds congruence of the functions, Skolem functions included, one argument at a time.
pub fn add_functions(
    alloc: Global,
    lay: &Layout,
    u: &Universe,
    into: &mut Builder,
) -> Result<(), AllocError>
    requires ready { IsLaidOut u.now lay.now }
    requires universe { IsUniverse lay.now.sig lay.now.copies u.now.terms }
    requires over { lay.now.base ≤ into.old.vars }
    requires within { AreWithin into.old.vars into.old.clauses }
    ensures { OnOk result (Adds lay.now.base [] (AreChangedTerms u.now lay.now) into.old.vars into.old.clauses into.new.vars into.new.clauses) }
{
    'each: for place in 0..u.terms.len() as u32 {
        add_changed_row(alloc, lay, u, place, into)?;
    }
    Ok(())
}
