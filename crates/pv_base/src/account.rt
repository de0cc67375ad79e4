ghost use Rattle.std.specs.Prelude.{◌≡◌, ◌≤◌, None, IsErrOf};
ghost use Rattle.pv_base.specs.Counts.{Rose};
ghost use Rattle.pv_base.specs.Refusals.{refused_by, faults_after};

use crate::counter::Counter;
use crate::files::ReadFault;
use std::marker::Model;

/// A read that was refused, as failed or as too long.
#[derive(Drop)]
pub struct Refused {
    name: Vec<u8>,
    fault: ReadFault,
}

impl Model for Refused {
    ghost use Rattle.pv_base.specs.Refusals.{Refusal};

    ghost Value = { Refusal };

    ghost view = { λ r. record { name = r.name.items; fault = r.fault } };
}

impl Refused {
    /// What a read of this name with this answer leaves as refused.
    pub fn by(name: Vec<u8>, answer: &Result<(), ReadFault>) -> Option<Refused>
        ensures { result ≡ refused_by name.items answer.now }
    {
        let fault = match answer {
            Ok(()) | Err(ReadFault::Memory) => return None,
            Err(ReadFault::Failed) => ReadFault::Failed,
            Err(ReadFault::TooLong) => ReadFault::TooLong,
        };
        Some(Refused { name, fault })
    }
}

/// What files keep of their reads: how many failed, and what the last one was refused for.
#[derive(Drop)]
pub struct Account {
    faults: Counter,
    refused: Option<Refused>,
}

impl Model for Account {
    ghost use Rattle.pv_base.specs.Refusals.{Noted};

    ghost Value = { Noted };

    ghost view = { λ a. record { faults = a.faults; refused = a.refused } };
}

impl Account {
    pub fn new() -> Account
        ensures { result ≡ record { faults = 0; refused = None } }
    {
        Account {
            faults: Counter::new(),
            refused: None,
        }
    }

    /// Begins a read: nothing is refused.
    pub fn begin(&mut self)
        ensures { self.new ≡ record self.old { refused = None } }
    {
        self.refused = None;
    }

    /// Ends a read of this name with its answer.
    pub fn end(&mut self, name: Vec<u8>, answer: &Result<(), ReadFault>)
        ensures refused { self.new.refused ≡ refused_by name.items answer.now }
        ensures counted { self.new.faults ≡ faults_after self.old.faults answer.now }
        ensures later { self.old.faults ≤ self.new.faults }
        ensures failed { IsErrOf answer.now ReadFault.Failed → Rose self.old.faults self.new.faults }
    {
        if let Err(ReadFault::Failed) = answer {
            self.faults.raise();
        }
        self.refused = Refused::by(name, answer);
    }
}
