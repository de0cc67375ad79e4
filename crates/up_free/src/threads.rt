//! Threads may share a turnstile of machines, and send one another its passes: this file isn't taken
//! where they may not.
use turnstile::{Pass, Turnstile};
use up_core::Core;

fn is_shared<T: Sync>(_value: &T) {}

fn is_sent<T: Send>(_value: &T) {}

#[expect(dead_code, reason = "nothing calls it: that it is taken shows the bounds")]
fn turnstiles_cross_threads(shared: &Turnstile<Core>) {
    is_shared(shared);
}

#[expect(dead_code, reason = "nothing calls it: that it is taken shows the bounds")]
fn passes_cross_threads(pass: &Pass<Core>) {
    is_sent(pass);
}
