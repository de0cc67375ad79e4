//! Threads may send one another a machine, and share it: this file isn't taken where they may
//! not.
use crate::Core;
use crate::state::State;
use fo_core::{Order, System};
use up_diagram::Picks;

fn crosses_threads<T: Send + Sync>(_value: &T) {}

#[expect(dead_code, reason = "nothing calls it: that it is taken shows the bounds")]
fn parts_cross_threads(sys: &System, order: &Order, state: &State, picks: &Picks) {
    crosses_threads(sys);
    crosses_threads(order);
    crosses_threads(state);
    crosses_threads(picks);
}

#[expect(dead_code, reason = "nothing calls it: that it is taken shows the bounds")]
fn machines_cross_threads(core: &Core) {
    crosses_threads(core);
}
