ghost use Rattle.std.specs.Prelude.{◌≡◌, ◌≤◌, ◌+◌, [], length, None, IfSome, OnOk, IsErrOf};
ghost use Rattle.std.specs.Io.KnownBytes.{Consumes};
ghost use Rattle.pv_base.specs.Reading.{IsRead};

use crate::account::Account;
use crate::files::{Files, LIMIT, ReadFault};
use std::alloc::Global;
use std::fs::File;
use std::io::Read;
use std::marker::Model;
use std::rt;

/// The files of the system. They tell no content.
#[derive(Drop)]
pub struct RealFiles<R> {
    rt: R,
    account: Account,
}

impl<R> Model for RealFiles<R> {
    ghost use Rattle.pv_base.specs.Refusals.{Noted};

    ghost Value = { Noted };

    ghost view = { λ f. f.account };
}

impl<R: rt::Files + Drop> RealFiles<R> {
    /// The files that a runtime gives, as `&rt` where `main` has `rt`.
    pub fn new(rt: R) -> RealFiles<R>
        ensures { result ≡ record { faults = 0; refused = None } }
    {
        RealFiles {
            rt,
            account: Account::new(),
        }
    }
}

// Reads to the end, or one byte past the limit. A source that tells its bytes gives these bytes.
fn fill<S: Read>(source: &mut S, into: &mut Vec<u8>) -> Result<(), ReadFault>
    requires { into.old.items ≡ [] }
    ensures read { IsRead None result into.new.items }
    ensures whole { OnOk result (IfSome (S.remaining source.old) (λ content. into.new.items ≡ content)) }
    ensures long { IsErrOf result ReadFault.TooLong
        → Consumes (S.remaining source.old) (S.remaining source.new) into.new.items }
{
    let mut piece = [0; 4096];
    'each: while into.len() <= LIMIT {
        let room = piece.len().min(LIMIT + 1 - into.len());
        match source.read(&mut piece[..room]) {
            Ok(0) => return Ok(()),
            Ok(count) => {
                if into.extend_from_slice(&piece[..count]).is_err() {
                    into.clear();
                    return Err(ReadFault::Memory);
                }
            }
            Err(_) => {
                into.clear();
                return Err(ReadFault::Failed);
            }
        }
    }
    Err(ReadFault::TooLong)
}

impl<R: rt::Files + Drop> Files for RealFiles<R> {
    ghost contents = { λ _ _. None };

    ghost faults = { λ noted. noted.faults };

    ghost refused = { λ noted. noted.refused };

    fn read(&mut self, alloc: Global, name: &str, into: &mut Vec<u8>) -> Result<(), ReadFault> {
        self.account.begin();
        let kept = name.as_bytes().to_vec(alloc)?;
        let answer = match File::open(&self.rt, name) {
            Ok(mut file) => fill(&mut file, into),
            Err(_) => Err(ReadFault::Failed),
        };
        self.account.end(kept, &answer);
        answer
    }
}
