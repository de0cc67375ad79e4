ghost use Rattle.std.specs.Prelude.{None};

use crate::sink::{Failed, Sink};

/// A sink without faults. It keeps nothing, and tells no bytes.
#[derive(Debug, Default, Drop)]
pub struct GoodSink;

impl GoodSink {
    pub fn new() -> GoodSink {
        GoodSink
    }
}

impl Sink for GoodSink {
    ghost written = { λ _. None };

    ghost faults = { λ _. 0 };

    fn put(&mut self, _bytes: &[u8]) -> Result<(), Failed> {
        Ok(())
    }
}
