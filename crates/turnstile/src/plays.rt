//! What each step on the table tells.
ghost use Rattle.std.specs.Prelude.{ℕ};
ghost use Rattle.turnstile.specs.Plays.{won, counted, given, learned, below, above, joined, spent};

use crate::kept_value::KeptValue;
use crate::rule::View;
use atomic_table::{Join, Play, Split};
use std::marker::{Brand, PhantomData};

/// Winning or losing the turn.
pub struct Win;

impl<S: KeptValue> Play<Option<S>, View<S::Base, S::Entry>> for Win {
    ghost then = { won S.base S.history S.number };
}

/// Counting the entries that a visit adds.
pub struct Count;

impl<S: KeptValue> Play<Option<S>, View<S::Base, S::Entry>> for Count {
    ghost then = { counted S.history };
}

/// Giving the turn back.
pub struct Give;

impl<S: KeptValue> Play<Option<S>, View<S::Base, S::Entry>> for Give {
    ghost then = { given };
}

/// Learning what a joined pass has seen.
pub struct Learn;

impl<S: KeptValue> Play<Option<S>, View<S::Base, S::Entry>> for Learn {
    ghost then = { learned S.number };
}

/// Where a pass is cut. Each call picks it.
pub trait Cut {
    ghost at: { ℕ };
}

impl Cut for Brand {
    ghost at = { 0 };
}

/// Splitting a pass.
pub struct At<C: Cut> {
    of: PhantomData<C>,
}

impl<B, E, C: Cut> Split<View<B, E>> for At<C> {
    ghost left = { below C.at };

    ghost right = { above C.at };
}

/// Joining two passes.
pub struct Both;

impl<B, E> Join<View<B, E>> for Both {
    ghost both = { joined };

    ghost spent = { spent };
}
