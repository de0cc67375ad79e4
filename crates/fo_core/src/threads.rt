//! Threads may send one another values of this crate, and share them: this file isn't taken where they may not.
use crate::{Boxed, Formula, Found, Names, Order, Query, System};

fn crosses_threads<T: Send + Sync>(_value: &T) {}

#[expect(dead_code, reason = "nothing calls it: that it is taken shows the bounds")]
fn values_cross_threads(
    system: &System,
    names: &Names,
    order: &Order,
    query: &Query,
    found: &Found,
    boxed: &Boxed<Formula>,
) {
    crosses_threads(system);
    crosses_threads(names);
    crosses_threads(order);
    crosses_threads(query);
    crosses_threads(found);
    crosses_threads(boxed);
}
