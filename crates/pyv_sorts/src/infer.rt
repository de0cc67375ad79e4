//! The sorts of variables, by classes of variables that are said to be alike.

ghost use Rattle.std.specs.Prelude.{◌≡◌, ◌<◌, ℕ, length, slice_index_or, IfOk, IfErr, OnOk, []};
ghost use Rattle.pyv_meaning.specs.Gets.{Among};
ghost use Rattle.pyv_sorts.specs.Classes.{Falls, Leads};
ghost use Rattle.pyv_sorts.specs.Inferring.{named, place_in, mark, Classing, sort_in, AreSorted, IsUnsorted};
ghost use Rattle.pyv_sorts.specs.declared.mark.Mark.TheVariants.{Nothing};

use crate::classes::{find, unite};
use crate::mark::{Mark, add};
use indexmap::{IndexMap, IndexSet};
use pyv_meaning::{SortFault, Use};
use std::alloc::{AllocError, Global};

/// Adds the variables that the uses name, each once.
fn add_variables(found: &mut IndexSet<u32>, uses: &[Use]) -> Result<(), AllocError>
    ensures { OnOk result ((v : ℕ) → Among v (named uses.now) → Among v found.new.keys) }
{
    'each: for told in uses {
        match told {
            Use::Binder(v) | Use::Is(v, _) => {
                let _ = found.insert(*v)?;
            }
            Use::Alike(v, w) => {
                let _ = found.insert(*v)?;
                let _ = found.insert(*w)?;
            }
        }
    }
    Ok(())
}

/// The variables that the uses name, each once.
fn variables(alloc: Global, uses: &[Use]) -> Result<IndexSet<u32>, AllocError>
    ensures { IfOk result (λ s. (v : ℕ) → Among v (named uses.now) → Among v s.keys) }
{
    let mut found = IndexSet::new(alloc);
    add_variables(&mut found, uses)?;
    Ok(found)
}

/// The place of a variable among those of the set.
fn place(variables: &IndexSet<u32>, v: u32) -> usize
    ensures is { result ≡ place_in variables.now.keys v }
    ensures within { Among v variables.now.keys → result < length variables.now.keys }
{
    match variables.get_index_of(&v) {
        Some(place) => place,
        None => 0,
    }
}

/// Each number below the count, which is a class by itself.
fn alone(alloc: Global, count: usize) -> Result<Vec<usize>, AllocError>
    ensures falls { IfOk result (λ ps. Falls ps.items) }
    ensures len { IfOk result (λ ps. length ps.items ≡ count) }
    ensures classes { IfOk result (λ ps. Leads ps.items (λ x. x)) }
{
    let mut parents = Vec::new(alloc);
    'each: for i in 0..count {
        parents.push(i)?;
    }
    Ok(parents)
}

/// The classes of the variables that are alike, by their places.
fn joined(alloc: Global, variables: &IndexSet<u32>, uses: &[Use]) -> Result<Vec<usize>, AllocError>
    requires known { (v : ℕ) → Among v (named uses.now) → Among v variables.now.keys }
    ensures falls { IfOk result (λ ps. Falls ps.items) }
    ensures len { IfOk result (λ ps. length ps.items ≡ length variables.now.keys) }
    ensures classes { IfOk result (λ ps. (f : ℕ → ℕ) × Leads ps.items f × Classing uses.now [] variables.now.keys (λ v. f (place_in variables.now.keys v))) }
{
    let mut classes = alone(alloc, variables.len())?;
    let parents = classes.as_mut_slice();
    'each: for told in uses {
        if let Use::Alike(v, w) = told {
            unite(parents, place(variables, *v), place(variables, *w));
        }
    }
    Ok(classes)
}

/// Adds to the mark of each class, at the place that represents it, the sorts that its variables
/// get.
fn mark_each(variables: &IndexSet<u32>, parents: &mut [usize], marks: &mut [Mark], uses: &[Use])
    requires known { (v : ℕ) → Among v (named uses.now) → Among v variables.now.keys }
    requires falls { Falls parents.old }
    requires len { length parents.old ≡ length variables.now.keys }
    requires wide { length marks.old ≡ length parents.old }
    ensures falls { Falls parents.new }
    ensures kept { (f : ℕ → ℕ) → Leads parents.old f → Leads parents.new f }
    ensures marks { (f : ℕ → ℕ) → Leads parents.old f → (c : ℕ) → slice_index_or marks.new c Nothing ≡ mark (λ v. f (place_in variables.now.keys v)) c (slice_index_or marks.old c Nothing) uses.now }
{
    'each: for told in uses {
        if let Use::Is(v, sort) = told {
            let class = find(parents, place(variables, *v));
            marks[class] = add(marks[class], *sort);
        }
    }
}

/// The one sort that each variable gets, or the first variable that gets none or two, where the
/// marks say what each class gets.
fn only_sorts(
    alloc: Global,
    variables: &IndexSet<u32>,
    parents: &mut [usize],
    marks: &[Mark],
    uses: &[Use],
) -> Result<IndexMap<u32, u32>, SortFault>
    requires known { (v : ℕ) → Among v (named uses.now) → Among v variables.now.keys }
    requires falls { Falls parents.old }
    requires len { length parents.old ≡ length variables.now.keys }
    requires marks_len { length marks.now ≡ length parents.old }
    requires classes { (f : ℕ → ℕ) × Leads parents.old f × Classing uses.now [] variables.now.keys (λ v. f (place_in variables.now.keys v)) × ((c : ℕ) → c < length parents.old → slice_index_or marks.now c Nothing ≡ mark (λ v. f (place_in variables.now.keys v)) c Nothing uses.now) }
    ensures sorted { IfOk result (λ found. AreSorted uses.now (sort_in found)) }
    ensures fault { IfErr result (IsUnsorted uses.now) }
{
    let mut sorts = IndexMap::new(alloc);
    'each: for told in uses {
        if let Use::Binder(v) = told {
            match marks[find(parents, place(variables, *v))] {
                Mark::Nothing => return Err(SortFault::NoSort(*v)),
                Mark::Two => return Err(SortFault::SortClash(*v)),
                Mark::One(sort) => {
                    sorts.insert(*v, sort)?;
                }
            }
        }
    }
    Ok(sorts)
}

/// The one sort that each variable gets, or the first variable that gets none or two. Variables
/// are named by the places where they are bound.
pub fn infer(alloc: Global, uses: &[Use]) -> Result<IndexMap<u32, u32>, SortFault>
    ensures sorted { IfOk result (λ found. AreSorted uses.now (sort_in found)) }
    ensures fault { IfErr result (IsUnsorted uses.now) }
{
    let variables = variables(alloc, uses)?;
    let mut classes = joined(alloc, &variables, uses)?;
    let parents = classes.as_mut_slice();
    let mut blank = vec![in alloc; Mark::Nothing; parents.len()]?;
    let marks = blank.as_mut_slice();
    mark_each(&variables, parents, marks, uses);
    only_sorts(alloc, &variables, parents, marks, uses)
}
