ghost use Rattle.std.specs.Prelude.{◌≡◌, ◌+◌, ◌<◌, ◌≤◌, ◌^◌, ◌++◌, ◌∷◌, [], ℕ, length, map, take, slice_index, replicate, ◌↔◌, IsTrue, IfOk, OnOk};
ghost use Rattle.std.specs.List.{All, flat_map, range_with_len, sum};
ghost use Rattle.fo_core.specs.Runs.{AreElements};
ghost use Rattle.fo_core.specs.Tables.{symbol_at};
ghost use Rattle.fo_core.specs.Trials.{element_sorts as element_sorts_of};
ghost use Rattle.up_diagram.specs.Diagrams.{variables_of, differ as differ_of, pair_at, differ_from, fact_of, facts_of, diagram as diagram_of, CanDescribe, AreFirsts};

use crate::cube::{Cube, Flat};
use fo_core::{Seq, Sig, World, all_tuples, sizes_of};
use std::alloc::{AllocError, Global};

/// Whether the world has fewer than 2^32 elements in all. It takes no memory.
pub fn has_few_elements(w: &World) -> bool
    ensures { IsTrue result ↔ (sum w.now.sizes < 2 ^ 32) }
{
    let mut count: u32 = 0;
    'each: for size in w.sizes.as_slice() {
        match count.checked_add(*size) {
            Some(more) => count = more,
            None => return false,
        }
    }
    true
}

/// For each sort the variable of its first element.
fn first_variables(alloc: Global, sizes: &[u32]) -> Result<Seq<u32>, AllocError>
    requires few { sum sizes.now < 2 ^ 32 }
    ensures { IfOk result (λ firsts. AreFirsts sizes.now firsts) }
{
    let mut firsts = Seq::new(alloc);
    let mut next = 0;
    'each: for size in sizes {
        firsts.push(next)?;
        next += *size;
    }
    Ok(firsts)
}

/// Adds a sort after the others, this many times.
fn push_sorts(sorts: &mut Seq<u32>, sort: u32, count: u32) -> Result<(), AllocError>
    ensures { OnOk result (sorts.new ≡ sorts.old ++ replicate count sort) }
{
    'each: for _i in 0..count {
        sorts.push(sort)?;
    }
    Ok(())
}

/// The sorts of all elements, sort by sort.
#[tactic(auto, using(fo_core::proofs::Pieces::flat_map_more))]
fn element_sorts(alloc: Global, sizes: &[u32]) -> Result<Seq<u32>, AllocError>
    requires { length sizes.now < 2 ^ 32 }
    ensures { IfOk result (λ sorts. sorts ≡ element_sorts_of sizes.now) }
{
    let mut sorts = Seq::new(alloc);
    'each: for s in 0..sizes.len() {
        push_sorts(&mut sorts, s as u32, sizes[s])?;
    }
    Ok(sorts)
}

/// Says that variables i and j differ, where j is a later one of the same sort.
fn push_pair(lits: &mut Seq<Flat>, sorts: &[u32], i: usize, j: usize) -> Result<(), AllocError>
    requires few { length sorts.now < 2 ^ 32 }
    requires first { i < length sorts.now }
    requires second { j < length sorts.now }
    ensures { OnOk result (lits.new ≡ lits.old ++ pair_at sorts.now i j) }
{
    if i < j && sorts[i] == sorts[j] {
        return lits.push(Flat::Differ(i as u32, j as u32));
    }
    Ok(())
}

/// Says that variable i and each later one of its sort differ.
#[tactic(auto, using(fo_core::proofs::Pieces::flat_map_more))]
fn push_differ_from(lits: &mut Seq<Flat>, sorts: &[u32], i: usize) -> Result<(), AllocError>
    requires few { length sorts.now < 2 ^ 32 }
    requires within { i < length sorts.now }
    ensures { OnOk result (lits.new ≡ lits.old ++ differ_from sorts.now i) }
{
    'each: for j in 0..sorts.len() {
        push_pair(lits, sorts, i, j)?;
    }
    Ok(())
}

/// Says that any two variables of one sort differ.
#[tactic(auto, using(fo_core::proofs::Pieces::flat_map_more))]
fn push_differ(lits: &mut Seq<Flat>, sorts: &[u32]) -> Result<(), AllocError>
    requires few { length sorts.now < 2 ^ 32 }
    ensures { OnOk result (lits.new ≡ lits.old ++ differ_of sorts.now) }
{
    'each: for i in 0..sorts.len() {
        push_differ_from(lits, sorts, i)?;
    }
    Ok(())
}

/// A copy of a world, and for each sort the variable of its first element.
#[derive(Clone, Copy)]
struct Described<'a> {
    sig: &'a Sig,
    world: &'a World,
    copy: u32,
    firsts: &'a [u32],
}

impl Described<'_> {
    /// The variables of elements of these sorts.
    fn variables(
        &self,
        alloc: Global,
        sorts: &[u32],
        elements: &[u32],
    ) -> Result<Seq<u32>, AllocError>
        requires few { sum self.now.world.now.sizes < 2 ^ 32 }
        requires firsts { AreFirsts self.now.world.now.sizes self.now.firsts.now }
        requires elements { AreElements self.now.world.now.sizes elements.now sorts.now }
        ensures { IfOk result
            (λ vs. vs ≡ variables_of self.now.world.now.sizes sorts.now elements.now) }
    {
        let firsts = self.firsts;
        let mut list = Seq::new(alloc);
        'each: for (i, x) in elements.iter().enumerate() {
            list.push(firsts[sorts[i] as usize] + *x)?;
        }
        Ok(list)
    }

    /// What the symbol says of the elements.
    fn fact(&self, alloc: Global, symbol: u32, elements: &[u32]) -> Result<Flat, AllocError>
        requires describe { CanDescribe self.now.sig.now self.now.world.now self.now.copy }
        requires firsts { AreFirsts self.now.world.now.sizes self.now.firsts.now }
        requires within { symbol < length self.now.sig.now.symbols }
        requires elements { AreElements self.now.world.now.sizes elements.now
            (symbol_at self.now.sig.now symbol).args }
        ensures { IfOk result (λ lit. lit ≡
            fact_of self.now.sig.now self.now.world.now self.now.copy symbol elements.now) }
    {
        let found = self.sig.symbols.at(symbol as usize);
        let value = self.world.value(self.sig, self.copy, symbol, elements);
        let variables = self.variables(alloc, found.args.as_slice(), elements)?;
        if found.relation {
            return Ok(Flat::Fact(value == 1, symbol, variables));
        }
        let of_value = self.firsts[found.result as usize] + value;
        Ok(Flat::Value(symbol, variables, of_value))
    }

    /// Says all that the symbol says.
    fn push_facts(&self, alloc: Global, symbol: u32, lits: &mut Seq<Flat>) -> Result<(), AllocError>
        requires describe { CanDescribe self.now.sig.now self.now.world.now self.now.copy }
        requires firsts { AreFirsts self.now.world.now.sizes self.now.firsts.now }
        requires within { symbol < length self.now.sig.now.symbols }
        ensures { OnOk result (lits.new ≡
            lits.old ++ facts_of self.now.sig.now self.now.world.now self.now.copy symbol) }
    {
        let sorts = self.sig.symbols.at(symbol as usize).args.as_slice();
        let sizes = sizes_of(alloc, self.world.sizes.as_slice(), sorts)?;
        let tuples = all_tuples(alloc, sizes.as_slice())?;
        'each: for tuple in tuples.as_slice() {
            lits.push(self.fact(alloc, symbol, tuple.as_slice())?)?;
        }
        Ok(())
    }
}

/// The diagram of a copy of the world: the cube that says all of it (Robinson's diagram, of model
/// theory). Its variables are the elements, sort by sort. Its literals say first that any two
/// elements of one sort differ, and then for each symbol and each tuple of elements, in
/// lexicographic order, whether the relation holds or which element is the function's value.
///
/// The signature has to be well-sorted, the world to fit it and to have fewer than 2^32 elements in
/// all ([`has_few_elements`]), and the copy to be there. The one error is out of memory.
#[tactic(auto, using(fo_core::proofs::Pieces::flat_map_more))]
pub fn diagram(alloc: Global, sig: &Sig, w: &World, copy: u32) -> Result<Cube, AllocError>
    requires { CanDescribe sig.now w.now copy }
    ensures { IfOk result (λ cube. cube ≡ diagram_of sig.now w.now copy) }
{
    let sorts = element_sorts(alloc, w.sizes.as_slice())?;
    let firsts = first_variables(alloc, w.sizes.as_slice())?;
    let mut lits = Seq::new(alloc);
    push_differ(&mut lits, sorts.as_slice())?;
    let described = Described {
        sig,
        world: w,
        copy,
        firsts: firsts.as_slice(),
    };
    'each: for k in 0..sig.symbols.len() {
        described.push_facts(alloc, k as u32, &mut lits)?;
    }
    Ok(Cube { sorts, lits })
}
