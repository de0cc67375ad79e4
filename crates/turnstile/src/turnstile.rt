//! The turnstile.
ghost use Rattle.std.specs.Prelude.{◌≡◌, All, ◌<◌, List, ◌∷◌, [], ◌++◌, min, max, Some, IfOk, IfErr};
ghost use Rattle.turnstile.specs.History.{AddsAtMostOne, longer};
ghost use Rattle.turnstile.specs.Views.{IsOf, IsInside, IsOutside, HasNumbers, Touches, LeavesBehind};
ghost use Rattle.turnstile.specs.Views.{GoesOnFrom};

use crate::kept_value::KeptValue;
use crate::pass::Pass;
use crate::rule::{Board, Opening};
use crate::steps::{cut_at, give, merge, take_out, win};
use atomic_table::{Refused, Table};
use std::alloc::{AllocError, Global};
use std::marker::Model;
use std::snapshot::Snapshot;
use std::sync::Wait;

/// A value that callers use in turn, each under numbers of its own.
///
/// A contract sees it as a `TurnstileView`. It is a lock of one word, which is tried again with growing pauses, as in
/// T. E. Anderson, "The Performance of Spin Lock Alternatives for Shared-Memory Multiprocessors" (1990).
#[derive(Drop)]
pub struct Turnstile<S: KeptValue> {
    board: Board<S>,
}

impl<S: KeptValue> Model for Turnstile<S> {
    ghost use Rattle.std.specs.Prelude.{◌≡◌};
    ghost use Rattle.turnstile.specs.Views.{TurnstileView};

    ghost Value = { TurnstileView S.Base };

    ghost view = { λ t. record {
      table = t.board.shared.table_id;
      base = S.base t.board.shared.key.value.value;
      callers = t.board.shared.key.callers;
    } };

    ghost invariant = { λ t. (t.board.shared.table_id.words ≡ 2) × (t.board.shared.table_id.slots ≡ 1) };
}

/// A table's one slot with the value in it, or the value where there is no memory.
fn only<S>(alloc: Global, value: S) -> Result<Vec<Option<S>>, S>
    ensures ok { IfOk result (λ v. v.items ≡ Some value ∷ []) }
    ensures err { IfErr result (λ x. x ≡ value) }
{
    let mut slots = Vec::new(alloc);
    match slots.push(Some(value)) {
        Ok(()) => Ok(slots),
        Err(failed) => {
            slots.destroy_empty();
            match failed.value {
                Some(value) => Err(value),
                None => unreachable!(),
            }
        }
    }
}

/// The value in the one slot.
fn first_of<S: Drop>(mut slots: Vec<Option<S>>) -> S
    requires { (x : S) × (slots.items ≡ Some x ∷ []) }
    ensures { slots.items ≡ Some result ∷ [] }
{
    let Some(Some(value)) = slots.pop() else {
        unreachable!()
    };
    value
}

impl<S: KeptValue> Turnstile<S> {
    /// A turnstile for the value, and the pass with all numbers, which are those below `callers`.
    ///
    /// Asks for a value with an empty history, and for at least one caller. The one error is want of
    /// memory, which gives the value back.
    pub fn new(
        alloc: Global,
        value: S,
        callers: u32,
    ) -> Result<(Turnstile<S>, Pass<S>), (AllocError, S)>
        requires empty { S.history value ≡ [] }
        requires callers { 0 < callers }
        ensures turnstile { IfOk result (λ t. (t.0.base ≡ S.base value) × (t.0.callers ≡ callers)) }
        ensures own { IfOk result (λ t. IsOf t.0 t.1) }
        ensures outside { IfOk result (λ t. IsOutside t.1) }
        ensures numbers { IfOk result (λ t. HasNumbers t.1 0 callers) }
        ensures seen { IfOk result (λ t. t.1.seen ≡ []) }
        ensures err { IfErr result (λ e. e.1 ≡ value) }
    {
        let about = Opening {
            value: Snapshot::of(&value),
            callers,
        };
        let slots = match only(alloc, value) {
            Ok(slots) => slots,
            Err(value) => return Err((AllocError, value)),
        };
        match Table::new(alloc, &[0, 0], slots, &about) {
            Ok((board, place)) => Ok((
                Turnstile { board },
                Pass {
                    place,
                    first: 0,
                    end: callers,
                    count: 0,
                },
            )),
            Err(Refused { slots }) => Err((AllocError, first_of(slots))),
        }
    }

    /// Splits the pass: it keeps the numbers below `at`, and the new one has the rest. Both have seen the same.
    ///
    /// Asks for a pass of this turnstile that is outside, and for a place strictly inside its numbers.
    pub fn split(&self, pass: &mut Pass<S>, at: u32) -> Pass<S>
        requires own { IsOf self.now pass.old }
        requires outside { IsOutside pass.old }
        requires inside { (pass.old.from < at) × (at < pass.old.to) }
        ensures own { IsOf self.now pass.new × IsOf self.now result }
        ensures outside { IsOutside pass.new × IsOutside result }
        ensures lower { HasNumbers pass.new pass.old.from at }
        ensures upper { HasNumbers result at pass.old.to }
        ensures seen { (pass.new.seen ≡ pass.old.seen) × (result.seen ≡ pass.old.seen) }
    {
        let place = cut_at(&self.board.shared, &mut pass.place, at);
        let end = pass.end;
        pass.end = at;
        Pass {
            place,
            first: at,
            end,
            count: 0,
        }
    }

    /// Waits for the turn, and gives the value out.
    ///
    /// Asks for a pass of this turnstile that is outside. The value has the base of the one that `new`
    /// took, and its history begins with what the pass had seen. For each number of the pass, the
    /// entries that carry it are those that were left under it, each once and in order.
    pub fn enter<R: Wait>(&self, rt: &R, pass: &mut Pass<S>) -> S
        requires own { IsOf self.now pass.old }
        requires outside { IsOutside pass.old }
        ensures own { IsOf self.now pass.new }
        ensures inside { IsInside pass.new }
        ensures numbers { HasNumbers pass.new pass.old.from pass.old.to }
        ensures seen { pass.new.seen ≡ S.history result }
        ensures base { S.base result ≡ self.now.base }
        ensures goes_on { GoesOnFrom S.number pass.old (S.history result) }
    {
        let value = win(rt, &self.board.shared, &mut pass.place);
        pass.count = value.entries();
        value
    }

    /// Takes the value back, and the turn with it.
    ///
    /// Asks for a pass of this turnstile that is inside, and for a value with the base of the one that
    /// `enter` gave and with its history, to which at most one entry of a number of the pass was added.
    pub fn leave(&self, pass: &mut Pass<S>, value: S)
        requires own { IsOf self.now pass.old }
        requires inside { IsInside pass.old }
        requires base { S.base value ≡ self.now.base }
        requires adds { AddsAtMostOne S.number pass.old.from pass.old.to pass.old.seen (S.history value) }
        ensures own { IsOf self.now pass.new }
        ensures outside { IsOutside pass.new }
        ensures numbers { HasNumbers pass.new pass.old.from pass.old.to }
        ensures seen { pass.new.seen ≡ S.history value }
        ensures left { (more : List S.Entry) → S.history value ≡ pass.old.seen ++ more →
            LeavesBehind S.number pass.old pass.new more }
    {
        let added = value.entries() - pass.count;
        give(&self.board.shared, &mut pass.place, value, added);
    }

    /// Joins another pass to this one, which then has the numbers of both, the entries of each number,
    /// and the longer of the two histories.
    ///
    /// Asks for two passes of this turnstile that are outside and whose numbers touch.
    pub fn join(&self, pass: &mut Pass<S>, other: Pass<S>)
        requires own { IsOf self.now pass.old × IsOf self.now other }
        requires outside { IsOutside pass.old × IsOutside other }
        requires touch { Touches pass.old other }
        ensures own { IsOf self.now pass.new }
        ensures outside { IsOutside pass.new }
        ensures numbers { HasNumbers pass.new (min pass.old.from other.from) (max pass.old.to other.to) }
        ensures longer { pass.new.seen ≡ longer pass.old.seen other.seen }
        ensures goes_on { GoesOnFrom S.number pass.old pass.new.seen }
        ensures goes_on_other { GoesOnFrom S.number other pass.new.seen }
    {
        let Pass {
            place,
            first,
            end,
            count: _,
        } = other;
        merge(&self.board.shared, &mut pass.place, place);
        pass.first = pass.first.min(first);
        pass.end = pass.end.max(end);
    }

    /// Takes the value out for good.
    ///
    /// Asks for the pass of this turnstile with all numbers, outside. For each number, the entries in
    /// the value's history that carry it are those that were left under it, and it has no others.
    pub fn close(self, pass: Pass<S>) -> S
        requires own { IsOf self pass }
        requires outside { IsOutside pass }
        requires all { HasNumbers pass 0 self.callers }
        ensures base { S.base result ≡ self.base }
        ensures goes_on { GoesOnFrom S.number pass (S.history result) }
        ensures carried { All (λ e. S.number e < self.callers) (S.history result) }
    {
        let Turnstile { board } = self;
        let Pass {
            place,
            first: _,
            end: _,
            count: _,
        } = pass;
        take_out(board, place)
    }
}
