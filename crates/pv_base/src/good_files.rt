ghost use Rattle.std.specs.Prelude.{◌≡◌, [], Some, None, IfOk, OnOk, OnErr};
ghost use Rattle.pv_base.specs.Entries.{content_or_empty, SetsContent};

use crate::account::Refused;
use crate::entries::{Entry, look_up, read_out, set_content};
use crate::files::{Files, ReadFault};
use std::alloc::{AllocError, Global};
use std::marker::Model;

/// Files in memory without faults: none of their reads fails, and a name that is not held reads as empty.
#[derive(Drop)]
pub struct GoodFiles {
    alloc: Global,
    entries: Vec<Entry>,
    refused: Option<Refused>,
}

impl Model for GoodFiles {
    ghost use Rattle.pv_base.specs.GoodFiles.{FilesWithoutFaults};

    ghost Value = { FilesWithoutFaults };

    ghost view = { λ f. record { entries = f.entries.items; refused = f.refused } };
}

impl GoodFiles {
    /// Files that hold no name.
    pub fn new(alloc: Global) -> Result<GoodFiles, AllocError>
        ensures { IfOk result (λ files. files ≡ record { entries = []; refused = None }) }
    {
        Ok(GoodFiles {
            alloc,
            entries: Vec::new(alloc),
            refused: None,
        })
    }

    /// Sets the content under a name, in the place of one that it holds. An error leaves the files as they were.
    pub fn add(&mut self, name: &str, bytes: &[u8]) -> Result<(), AllocError>
        ensures content { OnOk result (SetsContent name.now bytes.now self.old.entries self.new.entries) }
        ensures rest { OnOk result (self.new ≡ record self.old { entries = self.new.entries }) }
        ensures err { OnErr result (self.new ≡ self.old) }
    {
        set_content(self.alloc, &mut self.entries, name, bytes)
    }
}

impl Files for GoodFiles {
    ghost contents = { λ files n. Some (content_or_empty files.entries n) };

    ghost faults = { λ _. 0 };

    ghost refused = { λ files. files.refused };

    fn read(&mut self, alloc: Global, name: &str, into: &mut Vec<u8>) -> Result<(), ReadFault> {
        self.refused = None;
        let kept = name.as_bytes().to_vec(alloc)?;
        let answer = match look_up(&self.entries, name) {
            None => Ok(()),
            Some(content) => read_out(content, into),
        };
        self.refused = Refused::by(kept, &answer);
        answer
    }
}
