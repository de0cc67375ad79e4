ghost use Rattle.std.specs.Prelude.{◌≡◌, ◌++◌, ◌<◌, ◌^◌, length, codes, string_bytes, IfOk, None, Some};
ghost use Rattle.updr_told.specs.Ends.{refusal, printing, usage, cannot_read, is_longer};
ghost use Rattle.updr_told.specs.Places.{refusal_at};

use crate::place::Place;
use crate::status::Status;
use pv_base::LIMIT;
use std::alloc::{AllocError, Global};
use std::marker::Model;

/// How a call ends, before anything is put.
#[derive(Drop)]
pub struct Told<L> {
    status: Status,
    text: Vec<u8>,
    line: Vec<u8>,
    left: Option<L>,
}

impl<L> Model for Told<L> {
    ghost use Rattle.updr_told.specs.Ends.{End};

    ghost Value = { End L };

    ghost view = { λ t. record {
      status = t.status;
      text = t.text.items;
      line = t.line.items;
      left = t.left;
    } };
}

impl<L> Told<L> {
    /// An answer: a text to print. It leaves nothing.
    pub fn printing(alloc: Global, status: Status, text: Vec<u8>) -> Told<L>
        ensures { result ≡ printing status text.items None }
    {
        Told {
            status,
            text,
            line: Vec::new(alloc),
            left: None,
        }
    }

    /// An answer that leaves something.
    pub fn leaving(alloc: Global, status: Status, text: Vec<u8>, left: L) -> Told<L>
        ensures { result ≡ printing status text.items (Some left) }
    {
        Told {
            status,
            text,
            line: Vec::new(alloc),
            left: Some(left),
        }
    }

    /// A refusal with these words, as bytes.
    pub fn refusal(alloc: Global, status: Status, words: &[u8]) -> Result<Told<L>, AllocError>
        ensures { IfOk result (λ t. t ≡ refusal status words.now) }
    {
        let mut line = b"updr: ".to_vec(alloc)?;
        line.extend_from_slice(words)?;
        line.push(b'\n')?;
        Ok(Told {
            status,
            text: Vec::new(alloc),
            line,
            left: None,
        })
    }

    /// A refusal that names the place of a byte of a text of fewer than 2^32 bytes.
    pub fn refusal_at(
        alloc: Global,
        status: Status,
        bytes: &[u8],
        at: u32,
        words: &[u8],
    ) -> Result<Told<L>, AllocError>
        requires { length bytes.now < 2 ^ 32 }
        ensures { IfOk result (λ t. t ≡ refusal_at status bytes.now at words.now) }
    {
        let mut whole = Place::of(bytes, at).words(alloc)?.into_bytes();
        whole.extend_from_slice(b": ")?;
        whole.extend_from_slice(words)?;
        Told::refusal(alloc, status, &whole)
    }

    /// The refusal of words that are no command.
    pub fn usage(alloc: Global) -> Result<Told<L>, AllocError>
        ensures { IfOk result (λ t. t ≡ usage) }
    {
        Told::refusal(alloc, Status::Usage, b"usage")
    }

    /// The refusal of a file of which a read failed.
    pub fn cannot_read(alloc: Global, name: &str) -> Result<Told<L>, AllocError>
        ensures { IfOk result (λ t. t ≡ cannot_read name.now) }
    {
        let words = format!(in alloc; "cannot read {name}")?;
        Told::refusal(alloc, Status::ReadFault, words.as_bytes())
    }

    /// The refusal of a file that is too long.
    pub fn is_longer(alloc: Global, name: &str) -> Result<Told<L>, AllocError>
        ensures { IfOk result (λ t. t ≡ is_longer name.now) }
    {
        let words = format!(in alloc; "{name} is longer than {LIMIT} bytes")?;
        Told::refusal(alloc, Status::ReadFault, words.as_bytes())
    }

    /// Its status, its text, its line, and what it leaves.
    pub(crate) fn into_parts(self) -> (Status, Vec<u8>, Vec<u8>, Option<L>)
        ensures { self ≡ record {
          status = result.0;
          text = result.1.items;
          line = result.2.items;
          left = result.3;
        } }
    {
        (self.status, self.text, self.line, self.left)
    }
}
