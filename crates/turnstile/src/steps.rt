//! The steps of a pass on the table, each in a function that says what it does to the pass.
ghost use Rattle.std.specs.Prelude.{◌≡◌, ◌⊎◌, ◌+◌, ◌^◌, ◌<◌, length, All, Some};
ghost use Rattle.turnstile.specs.History.{AddsAtMostOne};
ghost use Rattle.turnstile.specs.Place.{view_of, HoldsNothing, HoldsSlot, IsSameSeat, IsOutside, IsInside};
ghost use Rattle.turnstile.specs.Plays.{entered, left, below, above, joined, Finds, IsJoined};

use crate::kept_value::KeptValue;
use crate::plays::{At, Both, Count, Cut, Give, Learn, Win};
use crate::rule::{Board, Place, Steps};
use crossbeam_utils::Backoff;
use std::marker::Brand;
use std::sync::Wait;

/// Tries to win the turn until it is won, and takes the value out of the slot.
pub fn win<R: Wait, S: KeptValue>(rt: &R, steps: &Steps<S>, place: &mut Place<S>) -> S
    requires own { place.old.table_id ≡ steps.now.table_id }
    requires words { steps.now.table_id.words ≡ 2 }
    requires outside { IsOutside place.old }
    requires live { (view_of place.old).from < (view_of place.old).to }
    ensures same { IsSameSeat place.old place.new }
    ensures inside { HoldsSlot place.new }
    ensures view { view_of place.new ≡ entered (view_of place.old) (S.history result) }
    ensures found { Finds S.base S.history S.number (view_of place.old) result }
{
    let backoff = Backoff::new();
    for _ in rt.forever() {
        let found = steps.compare_exchange::<Win>(place, 0, 0, 1);
        if found == 0 {
            return steps.exchange(place, 0, None).unwrap();
        }
        backoff.snooze();
    }
    unreachable!()
}

/// Puts the value back into the slot, counts what was added, and gives the turn back.
pub fn give<S: KeptValue>(steps: &Steps<S>, place: &mut Place<S>, value: S, added: u64)
    requires own { place.old.table_id ≡ steps.now.table_id }
    requires words { steps.now.table_id.words ≡ 2 }
    requires inside { IsInside place.old }
    requires base { (view_of place.old).base ≡ Some (S.base value) }
    requires adds { AddsAtMostOne S.number (view_of place.old).from (view_of place.old).to
        (view_of place.old).seen (S.history value) }
    requires added { length (view_of place.old).seen + added ≡ length (S.history value) }
    requires fits { length (S.history value) < 2 ^ 64 }
    ensures same { IsSameSeat place.old place.new }
    ensures outside { HoldsNothing place.new }
    ensures view { view_of place.new ≡ left (entered (view_of place.old) (S.history value)) }
{
    steps.exchange(place, 0, Some(value));
    steps.fetch_add::<Count>(place, 1, added);
    steps.store::<Give>(place, 0, 0);
}

fn cut<S: KeptValue, C: Cut>(steps: &Steps<S>, place: &mut Place<S>, at: u32) -> Place<S>
    requires pick { at ≡ C.at }
    requires own { place.old.table_id ≡ steps.now.table_id }
    requires words { steps.now.table_id.words ≡ 2 }
    requires outside { IsOutside place.old }
    requires inside { ((view_of place.old).from < C.at) × (C.at < (view_of place.old).to) }
    ensures same { IsSameSeat place.old place.new × (result.table_id ≡ place.old.table_id) }
    ensures outside { HoldsNothing place.new × HoldsNothing result }
    ensures lower { view_of place.new ≡ below C.at (view_of place.old) }
    ensures upper { view_of result ≡ above C.at (view_of place.old) }
{
    let _ = at;
    steps.split_seat::<At<C>>(place)
}

/// Splits the pass: the new one has the numbers from `at` on.
pub fn cut_at<S: KeptValue>(steps: &Steps<S>, place: &mut Place<S>, at: u32) -> Place<S>
    requires own { place.old.table_id ≡ steps.now.table_id }
    requires words { steps.now.table_id.words ≡ 2 }
    requires outside { IsOutside place.old }
    requires inside { ((view_of place.old).from < at) × (at < (view_of place.old).to) }
    ensures same { IsSameSeat place.old place.new × (result.table_id ≡ place.old.table_id) }
    ensures outside { HoldsNothing place.new × HoldsNothing result }
    ensures lower { view_of place.new ≡ below at (view_of place.old) }
    ensures upper { view_of result ≡ above at (view_of place.old) }
{
    cut::<S, Brand>(steps, place, at)
}

/// Joins another pass to this one, and learns that what is seen then goes on from what each had seen.
pub fn merge<S: KeptValue>(steps: &Steps<S>, place: &mut Place<S>, other: Place<S>)
    requires own { (place.old.table_id ≡ steps.now.table_id) × (other.table_id ≡ steps.now.table_id) }
    requires words { steps.now.table_id.words ≡ 2 }
    requires outside { IsOutside place.old × IsOutside other }
    requires live { (view_of place.old).from < (view_of place.old).to }
    requires other_live { (view_of other).from < (view_of other).to }
    requires touch { ((view_of place.old).to ≡ (view_of other).from)
        ⊎ ((view_of other).to ≡ (view_of place.old).from) }
    ensures same { IsSameSeat place.old place.new }
    ensures outside { HoldsNothing place.new }
    ensures view { view_of place.new ≡ joined (view_of place.old) (view_of other) }
    ensures goes_on { IsJoined S.number (view_of place.old) (view_of other) (view_of place.new).seen }
{
    steps.join_seat::<Both>(place, other);
    steps.load::<Learn>(place, 0);
}

/// Takes the value out for good. Only the pass that has all numbers is left then.
pub fn take_out<S: KeptValue>(board: Board<S>, place: Place<S>) -> S
    requires own { place.table_id ≡ board.shared.table_id }
    requires slots { board.shared.table_id.slots ≡ 1 }
    requires outside { IsOutside place }
    requires live { (view_of place).from < (view_of place).to }
    requires all { ((view_of place).from ≡ 0) × ((view_of place).to ≡ board.shared.key.callers) }
    ensures found { Finds S.base S.history S.number (view_of place) result }
    ensures carried { All (λ e. S.number e < board.shared.key.callers) (S.history result) }
{
    let mut closed = board.close_with(place);
    let value = closed.take(0);
    closed.free();
    value.unwrap()
}
