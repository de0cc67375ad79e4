//! Threads may send one another an engine: this file isn't taken where they may not.
use crate::context::Context;
use crate::engine::Engine;

fn crosses_threads<T: Send + Sync>(_value: &T) {}

#[expect(dead_code, reason = "nothing calls it: that it is taken shows the bounds")]
fn contexts_cross_threads(context: &Context) {
    crosses_threads(context);
}

#[expect(dead_code, reason = "nothing calls it: that it is taken shows the bounds")]
fn engines_cross_threads(engine: &Engine) {
    crosses_threads(engine);
}
