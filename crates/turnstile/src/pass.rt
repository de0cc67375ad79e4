//! A caller's pass.
ghost use Rattle.std.specs.Prelude.{◌≡◌, ◌<◌};

use crate::kept_value::KeptValue;
use crate::rule::Place;
use std::marker::Model;

/// The right to enter a turnstile under some numbers, and what was seen there.
///
/// A contract sees it as a `PassView`. It ends in `join` or `close`. Where it is dropped, its numbers are
/// lost, and the turnstile can't be closed any more. Where it is dropped inside, the turn is lost too.
#[derive(Drop)]
pub struct Pass<S: KeptValue> {
    pub(crate) place: Place<S>,
    pub(crate) first: u32,
    pub(crate) end: u32,
    /// How many entries the history had at the last `enter`.
    pub(crate) count: u64,
}

impl<S: KeptValue> Model for Pass<S> {
    ghost use Rattle.turnstile.specs.Views.{PassView};
    ghost use Rattle.turnstile.specs.Place.{pass_view, IsWhole};

    ghost Value = { PassView S.Base S.Entry };

    ghost view = { λ p. pass_view p.place };

    ghost invariant = { λ p. IsWhole p.first p.end p.count p.place };
}

impl<S: KeptValue> Pass<S> {
    /// The least of the pass's numbers. It has at least this one.
    pub fn first(&self) -> u32
        ensures least { result ≡ self.now.from }
        ensures some { self.now.from < self.now.to }
    {
        self.first
    }
}
