ghost use Rattle.std.specs.Prelude.{◌≡◌, ◌≤◌, ◌++◌, ◌∷◌, ℕ, List, [], None, IfOk, OnOk, OnErr, IsErrOf, Contains};
ghost use Rattle.pv_base.specs.Counts.{Rose, raised};
ghost use Rattle.pv_base.specs.Entries.{content_of, SetsContent};
ghost use Rattle.pv_base.specs.MemFiles.{HasCause};
ghost use Rattle.pv_base.specs.Reading.{IsRead};
ghost use Rattle.pv_base.specs.Refusals.{refused_by, faults_after};

use crate::account::Account;
use crate::counter::Counter;
use crate::entries::{Entry, look_up, read_out, set_content};
use crate::files::{Files, LIMIT, ReadFault};
use std::alloc::{AllocError, Global};
use std::marker::Model;

/// Files in memory, in which chosen reads fail.
///
/// A name that is not held is a fault. A content that is too long is answered as such also by a read that is to fail.
#[derive(Drop)]
pub struct MemFiles {
    alloc: Global,
    entries: Vec<Entry>,
    failing: Vec<u64>,
    calls: Counter,
    account: Account,
}

impl Model for MemFiles {
    ghost use Rattle.pv_base.specs.MemFiles.{FilesInMemory};

    ghost Value = { FilesInMemory };

    ghost view = { λ f. record {
      entries = f.entries.items;
      failing = f.failing.items;
      calls = f.calls;
      noted = f.account;
    } };
}

impl MemFiles {
    /// Files that hold no name, and of which no read is to fail.
    pub fn new(alloc: Global) -> Result<MemFiles, AllocError>
        ensures { IfOk result (λ files. files ≡ record {
          entries = [];
          failing = [];
          calls = 0;
          noted = record { faults = 0; refused = None };
        }) }
    {
        Ok(MemFiles {
            alloc,
            entries: Vec::new(alloc),
            failing: Vec::new(alloc),
            calls: Counter::new(),
            account: Account::new(),
        })
    }

    /// Sets the content under a name, in the place of one that it holds. An error leaves the files as they were.
    pub fn add(&mut self, name: &str, bytes: &[u8]) -> Result<(), AllocError>
        ensures content { OnOk result (SetsContent name.now bytes.now self.old.entries self.new.entries) }
        ensures rest { OnOk result (self.new ≡ record self.old { entries = self.new.entries }) }
        ensures err { OnErr result (self.new ≡ self.old) }
    {
        set_content(self.alloc, &mut self.entries, name, bytes)
    }

    /// Lets the read of this number fail, where the first read is 0. An error leaves the files as they were.
    ///
    /// Each read counts, also one that is refused or for which memory is wanting.
    pub fn fail_at(&mut self, call: u64) -> Result<(), AllocError>
        ensures ok { OnOk result (self.new ≡ record self.old { failing = self.old.failing ++ call ∷ [] }) }
        ensures err { OnErr result (self.new ≡ self.old) }
    {
        self.failing.push(call)?;
        Ok(())
    }

    // What a read of this name answers.
    fn answer(&self, call: u64, name: &str, into: &mut Vec<u8>) -> Result<(), ReadFault>
        requires { into.old.items ≡ [] }
        ensures read { IsRead (content_of self.now.entries name.now) result into.new.items }
        ensures cause { HasCause (content_of self.now.entries name.now)
            (Contains self.now.failing call)
            result }
    {
        let content = look_up(&self.entries, name).ok_or(ReadFault::Failed)?;
        if content.len() <= LIMIT && self.failing.contains(&call) {
            return Err(ReadFault::Failed);
        }
        read_out(content, into)
    }
}

impl Files for MemFiles {
    ghost contents = { λ files. content_of files.entries };

    ghost faults = { λ files. files.noted.faults };

    ghost refused = { λ files. files.noted.refused };

    fn read(&mut self, alloc: Global, name: &str, into: &mut Vec<u8>) -> Result<(), ReadFault>
        requires { into.old.items ≡ [] }
        ensures unchanged { (n : List ℕ) → content_of self.new.entries n ≡ content_of self.old.entries n }
        ensures read { IsRead (content_of self.old.entries name.now) result into.new.items }
        ensures later { self.old.noted.faults ≤ self.new.noted.faults }
        ensures failed { IsErrOf result ReadFault.Failed → Rose self.old.noted.faults self.new.noted.faults }
        ensures refused { self.new.noted.refused ≡ refused_by name.now result }

        // Beyond what each implementation says: which answer comes, and what is kept.
        ensures cause { HasCause (content_of self.old.entries name.now)
            (Contains self.old.failing self.old.calls)
            result }
        ensures counted { self.new.noted.faults ≡ faults_after self.old.noted.faults result }
        ensures kept { self.new ≡ record self.old {
          calls = raised self.old.calls;
          noted = self.new.noted;
        } }
    {
        self.account.begin();
        let call = self.calls.get();
        self.calls.raise();
        let kept = name.as_bytes().to_vec(alloc)?;
        let answer = self.answer(call, name, into);
        self.account.end(kept, &answer);
        answer
    }
}
