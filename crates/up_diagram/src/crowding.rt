//! Whether more variables of one sort are all to differ than there is room for. A search that puts one
//! after the other would try all ways to put them before it found out.

ghost use Rattle.std.specs.Prelude.{◌≡◌, ◌↔◌, ◌<◌, ℕ, length, slice_index, IsTrue};
ghost use Rattle.std.specs.List.{All};
ghost use Rattle.up_diagram.specs.declared.cube.Flat.TheVariants.{Differ};
ghost use Rattle.up_diagram.specs.Crowds.{of_sort, SayDiffer, AreApart, AreTooMany, IsProper};

use crate::cube::Flat;

/// Whether the literal says that variables i and j differ.
fn is_differ(lit: &Flat, i: usize, j: usize) -> bool
    ensures { IsTrue result ↔ (lit.now ≡ Differ i j) }
{
    match lit {
        Flat::Differ(first, second) => *first as usize == i && *second as usize == j,
        _ => false,
    }
}

/// Whether one of the literals says that variables i and j differ.
fn say_differ(lits: &[Flat], i: usize, j: usize) -> bool
    ensures { IsTrue result → SayDiffer lits.now i j }
{
    'each: for lit in lits {
        if is_differ(lit, i, j) {
            return true;
        }
    }
    false
}

/// Whether all earlier variables of its sort are to differ from variable j.
fn is_apart(sorts: &[u32], lits: &[Flat], j: usize) -> bool
    requires { j < length sorts.now }
    ensures { IsTrue result → (i : ℕ) → i < j →
        slice_index sorts.now i ≡ slice_index sorts.now j → SayDiffer lits.now i j }
{
    'each: for i in 0..j {
        if sorts[i] == sorts[j] && !say_differ(lits, i, j) {
            return false;
        }
    }
    true
}

/// Whether any two variables of this sort are to differ.
fn are_apart(sorts: &[u32], lits: &[Flat], sort: u32) -> bool
    ensures { IsTrue result → AreApart sorts.now lits.now sort }
{
    'each: for j in 0..sorts.len() {
        if sorts[j] == sort && !is_apart(sorts, lits, j) {
            return false;
        }
    }
    true
}

/// How many variables have this sort.
pub(crate) fn count_of(sorts: &[u32], sort: u32) -> usize
    ensures { result ≡ length (of_sort sorts.now sort) }
{
    let mut count = 0;
    'each: for v in 0..sorts.len() {
        if sorts[v] == sort {
            count += 1;
        }
    }
    count
}

/// Whether more variables of this sort are all to differ than there is room for.
pub(crate) fn are_too_many(sorts: &[u32], lits: &[Flat], sort: u32, room: usize) -> bool
    ensures { IsTrue result → AreTooMany sorts.now lits.now sort room }
{
    count_of(sorts, sort) > room && are_apart(sorts, lits, sort)
}

/// Whether the literal doesn't say of a variable that it differs from itself.
fn is_proper(lit: &Flat) -> bool
    ensures { IsTrue result → IsProper lit.now }
{
    match lit {
        Flat::Differ(i, j) => i != j,
        _ => true,
    }
}

/// Whether no literal says of a variable that it differs from itself.
pub(crate) fn are_proper(lits: &[Flat]) -> bool
    ensures { IsTrue result → All IsProper lits.now }
{
    'each: for lit in lits {
        if !is_proper(lit) {
            return false;
        }
    }
    true
}
