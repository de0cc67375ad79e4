//! The table on which a turnstile stands, what its passes know, and the rule that ties the two.
//! `specs/Rule.antt` states the rule, and says what each kind of step does.
ghost use Rattle.std.specs.Prelude.{[], Some};

use crate::kept_value::KeptValue;
use atomic_table::{Seat, Shared, Table, TableRule};
use std::alloc::Global;
use std::collections::LinkedList;
use std::snapshot::Snapshot;

/// What a pass knows. No value of it is made at run time.
pub struct View<B, E> {
    /// The base of the kept value, and none where the pass is spent.
    pub base: Option<B>,
    /// The history as this pass last saw it.
    pub seen: LinkedList<E>,
    /// The least of the pass's numbers.
    pub from: u32,
    /// One more than the greatest of them.
    pub to: u32,
    /// Whether the pass has the turn.
    pub inside: bool,
    /// The passes that were joined to make this one, as they were, until it has the turn again.
    pub parts: LinkedList<Part<E>>,
}

/// A pass that was joined to another: its numbers, and what it had seen.
pub struct Part<E> {
    pub from: u32,
    pub to: u32,
    pub seen: LinkedList<E>,
}

/// What the table is told when it is made.
#[derive(Drop)]
pub struct Opening<S> {
    pub value: Snapshot<S>,
    pub callers: u32,
}

/// The rule. It names no value.
pub struct InTurn;

impl<S: KeptValue> TableRule<Option<S>, View<S::Base, S::Entry>, Opening<S>> for InTurn {
    ghost use Rattle.turnstile.specs.Rule.{Kept, fresh};

    ghost holds = { λ key. Kept S.base S.history S.number key.callers };

    ghost first = { λ key. fresh (Some (S.base key.value.value)) 0 key.callers };
}

/// The table: a word for the turn, a word that counts the history, and a slot for the value.
pub type Board<S> = Table<
    Option<S>,
    View<<S as KeptValue>::Base, <S as KeptValue>::Entry>,
    Opening<S>,
    InTurn,
    Global,
>;

/// The seat of a pass.
pub type Place<S> = Seat<Option<S>, View<<S as KeptValue>::Base, <S as KeptValue>::Entry>>;

/// The table as its passes step on it.
pub type Steps<S> = Shared<
    Option<S>,
    View<<S as KeptValue>::Base, <S as KeptValue>::Entry>,
    Opening<S>,
    InTurn,
>;
