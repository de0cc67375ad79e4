ghost use Rattle.std.specs.Prelude.{◌≡◌, ◌≤◌, ◌+◌, ◌++◌, ◌∷◌, [], length, Some, IfOk, OnOk, OnErr};
ghost use Rattle.pv_base.specs.Counts.{Rose, raised};
ghost use Rattle.pv_base.specs.MemSink.{IsPut, Fits};
ghost use Rattle.pv_base.specs.Written.{Appends, AppendsPrefix, faults_after};

use crate::counter::Counter;
use crate::sink::{Failed, Sink};
use std::alloc::{AllocError, Global};
use std::marker::Model;

/// A sink over memory of a fixed size, in which chosen puts fail.
///
/// A put that is to fail appends the first half of its bytes, rounded down. A put that does not fit in what is left
/// of the room fails and appends nothing, also where it is to fail.
#[derive(Drop)]
pub struct MemSink {
    room: Vec<u8>,
    used: usize,
    failing: Vec<u64>,
    calls: Counter,
    faults: Counter,
}

impl Model for MemSink {
    ghost use Rattle.std.specs.Prelude.{◌≤◌, length, take};
    ghost use Rattle.pv_base.specs.MemSink.{SinkInMemory};

    ghost Value = { SinkInMemory };

    ghost view = { λ s. record {
      bytes = take s.used s.room.items;
      room = length s.room.items;
      failing = s.failing.items;
      calls = s.calls;
      faults = s.faults;
    } };

    ghost invariant = { λ s. s.used ≤ length s.room.items };
}

impl MemSink {
    /// An empty sink that has room for this many bytes, and of which no put is to fail.
    pub fn new(alloc: Global, room: usize) -> Result<MemSink, AllocError>
        ensures { IfOk result (λ sink. sink ≡ record {
          bytes = [];
          room = room;
          failing = [];
          calls = 0;
          faults = 0;
        }) }
    {
        Ok(MemSink {
            room: vec![in alloc; 0; room]?,
            used: 0,
            failing: Vec::new(alloc),
            calls: Counter::new(),
            faults: Counter::new(),
        })
    }

    /// Lets the put of this number fail, where the first put is 0. An error leaves the sink as it was.
    pub fn fail_at(&mut self, call: u64) -> Result<(), AllocError>
        ensures ok { OnOk result (self.new ≡ record self.old { failing = self.old.failing ++ call ∷ [] }) }
        ensures err { OnErr result (self.new ≡ self.old) }
    {
        self.failing.push(call)?;
        Ok(())
    }

    /// The bytes that went in.
    pub fn bytes(&self) -> &[u8]
        ensures { result.now ≡ self.now.bytes }
    {
        &self.room[..self.used]
    }

    fn append(&mut self, bytes: &[u8])
        requires { Fits self.old bytes.now }
        ensures { self.new ≡ record self.old { bytes = self.old.bytes ++ bytes.now } }
    {
        let end = self.used + bytes.len();
        self.room[self.used..end].copy_from_slice(bytes);
        self.used = end;
    }
}

impl Sink for MemSink {
    ghost written = { λ sink. Some sink.bytes };

    ghost faults = { λ sink. sink.faults };

    fn put(&mut self, bytes: &[u8]) -> Result<(), Failed>
        ensures whole { OnOk result (Appends (Some self.old.bytes) bytes.now (Some self.new.bytes)) }
        ensures quiet { OnOk result (self.new.faults ≡ self.old.faults) }
        ensures prefix { OnErr result (AppendsPrefix (Some self.old.bytes) bytes.now (Some self.new.bytes)) }
        ensures later { self.old.faults ≤ self.new.faults }
        ensures failed { OnErr result (Rose self.old.faults self.new.faults) }

        // Beyond what each implementation says: which answer comes with which bytes, and what is kept.
        ensures exact { IsPut self.old bytes.now result self.new.bytes }
        ensures kept { self.new ≡ record self.old {
          bytes = self.new.bytes;
          calls = raised self.old.calls;
          faults = faults_after self.old.faults result;
        } }
    {
        let call = self.calls.get();
        self.calls.raise();
        if bytes.len() > self.room.len() - self.used {
            self.faults.raise();
            return Err(Failed);
        }
        if self.failing.contains(&call) {
            self.append(&bytes[..bytes.len() / 2]);
            self.faults.raise();
            return Err(Failed);
        }
        self.append(bytes);
        Ok(())
    }
}
