//! Lists of numbers in their order, beside the entries of which they are the numbers.

ghost use Rattle.std.specs.Prelude.{◌≡◌, ℕ, ◌+◌, ◌<◌, ◌≤◌, not, nat_eq, nat_lt, OnOk};
ghost use Rattle.std.specs.List.{count_by, filter, insert};
ghost use Rattle.std.specs.Vec.{vec_capacity, vec_len};
ghost use Rattle.up_core.specs.Keeping.{HasRoom};

use std::alloc::AllocError;

/// Takes a number out of the list.
pub(crate) fn strike(numbers: &mut Vec<usize>, gone: usize)
    ensures items { numbers.new.items ≡ filter (λ k. not (nat_eq k gone)) numbers.old.items }
    ensures room { (n : ℕ) → HasRoom n numbers.old → HasRoom n numbers.new }
    ensures capacity { vec_capacity numbers.new ≡ vec_capacity numbers.old }
    ensures fewer { vec_len numbers.new ≤ vec_len numbers.old }
{
    numbers.retain(|k| *k != gone);
}

/// Puts a number into the list, after those below it. There is room for it.
pub(crate) fn admit(numbers: &mut Vec<usize>, new: usize)
    requires { vec_len numbers.old < vec_capacity numbers.old }
    ensures items { numbers.new.items ≡
        insert numbers.old.items (count_by (λ k. nat_lt k new) numbers.old.items) new }
    ensures capacity { vec_capacity numbers.new ≡ vec_capacity numbers.old }
{
    let at = numbers.iter().filter(|k| **k < new).count();
    match numbers.insert(at, new) {
        Ok(()) => {}
        Err(_) => unreachable!(),
    }
}

/// Makes room in a list of numbers for this many more than the most that may stand in it now. Where
/// memory is refused nothing is lost.
pub(crate) fn reserve_beside(
    numbers: &mut Vec<usize>,
    most: usize,
    more: usize,
) -> Result<(), AllocError>
    ensures items { numbers.new.items ≡ numbers.old.items }
    ensures kept { vec_capacity numbers.old ≤ vec_capacity numbers.new }
    ensures room { OnOk result (most + more ≤ vec_capacity numbers.new) }
{
    let missing = most.saturating_sub(numbers.len());
    match missing.checked_add(more) {
        Some(wanted) => numbers.reserve(wanted),
        None => Err(AllocError),
    }
}
