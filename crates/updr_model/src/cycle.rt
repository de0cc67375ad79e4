//! The stage that asks whether a system is stratified.

ghost use Rattle.std.specs.Prelude.{◌≡◌, ◌++◌, codes, flat_map, IfOk, OnOk};
ghost use Rattle.fo_core.specs.Sorted.{IsSystem};
ghost use Rattle.fo_core.specs.SortGraph.{SortEdge, Rises};
ghost use Rattle.updr_told.specs.Ends.{refusal};
ghost use Rattle.updr_told.specs.Stops.{IfRefused};
ghost use Rattle.updr_told.specs.declared.status.Status.TheVariants.{NotStratified};
ghost use Rattle.updr_model.specs.Cycles.{sort_name, cycle_words, unstratified_words, RefusesSystem};

use fo_core::{Names, Order, Purpose, System};
use pyv_strat::{StratFault, order};
use std::alloc::{AllocError, Global};
use updr_told::{Status, Stop, Told};

/// The name of a sort.
fn sort_name(names: &Names, sort: u32) -> &[u8]
    ensures { result.now ≡ sort_name names.now sort }
{
    match names.sorts.as_slice().get(sort as usize) {
        Some(name) => name.as_str().as_bytes(),
        None => b"",
    }
}

/// Adds an arrow and a name for each of these sorts.
fn add_arrows(names: &Names, sorts: &[u32], words: &mut Vec<u8>) -> Result<(), AllocError>
    ensures { OnOk result (words.new.items ≡ words.old.items ++ flat_map (λ s. codes " -> " ++ sort_name names.now s) sorts.now) }
{
    'each: for sort in sorts {
        words.extend_from_slice(b" -> ")?;
        words.extend_from_slice(sort_name(names, *sort))?;
    }
    Ok(())
}

/// The names of the sorts of a cycle, with arrows between them.
fn cycle_words(alloc: Global, names: &Names, cycle: &[u32]) -> Result<Vec<u8>, AllocError>
    ensures { IfOk result (λ words. words.items ≡ cycle_words names.now cycle.now) }
{
    let mut words = Vec::new(alloc);
    if let [first, rest @ ..] = cycle {
        words.extend_from_slice(sort_name(names, *first))?;
        add_arrows(names, rest, &mut words)?;
    }
    Ok(words)
}

/// The end that tells a cycle.
fn cycle_refusal<L>(alloc: Global, names: &Names, cycle: &[u32]) -> Result<Told<L>, AllocError>
    ensures { IfOk result (λ end. end ≡ refusal NotStratified (unstratified_words names.now cycle.now)) }
{
    let mut words = b"not stratified: ".to_vec(alloc)?;
    words.extend_from_slice(&cycle_words(alloc, names, cycle)?)?;
    Told::refusal(alloc, Status::NotStratified, &words)
}

/// The order of the system's sorts for this purpose.
///
/// # Errors
///
/// Where there is none, the first of the shortest cycles of the system's sort graph is told.
pub fn order_for<L>(
    alloc: Global,
    sys: &System,
    names: &Names,
    purpose: Purpose,
) -> Result<Order, Stop<L>>
    requires { IsSystem sys.now }
    ensures rises { IfOk result (λ order. Rises (SortEdge sys.now purpose) sys.now.sig.sorts order.numbers) }
    ensures refused { IfRefused result (RefusesSystem purpose sys.now names.now) }
{
    match order(alloc, sys, purpose) {
        Ok(order) => Ok(order),
        Err(StratFault::Cycle(cycle)) => Err(Stop::Refused(cycle_refusal(
            alloc,
            names,
            cycle.as_slice(),
        )?)),
        Err(StratFault::Memory) => Err(Stop::Memory),
    }
}
