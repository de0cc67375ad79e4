//! Threads may send one another values of this crate, and share them: this file isn't taken where
//! they may not.
use crate::Solved;

fn crosses_threads<T: Send + Sync>(_value: &T) {}

#[expect(dead_code, reason = "nothing calls it: that it is taken shows the bounds")]
fn values_cross_threads(solved: &Solved) {
    crosses_threads(solved);
}
