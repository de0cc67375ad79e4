ghost use Rattle.std.specs.Prelude.{◌≡◌, [], Some, IfOk, OnOk, OnErr, option_map, bytes_eq, position, IsErrOf};
ghost use Rattle.pv_base.specs.Entries.{content_of, SetsContent};
ghost use Rattle.pv_base.specs.Reading.{IsRead};

use crate::files::{LIMIT, ReadFault};
use std::alloc::{AllocError, Global};
use std::marker::Model;

/// A name and its content.
#[derive(Drop)]
pub struct Entry {
    name: Vec<u8>,
    bytes: Vec<u8>,
}

impl Model for Entry {
    ghost use Rattle.pv_base.specs.Entries.{NamedContent};

    ghost Value = { NamedContent };

    ghost view = { λ e. record { name = e.name.items; bytes = e.bytes.items } };
}

impl Entry {
    fn new(alloc: Global, name: &str, bytes: &[u8]) -> Result<Entry, AllocError>
        ensures { IfOk result (λ e. e ≡ record { name = name.now; bytes = bytes.now }) }
    {
        Ok(Entry {
            name: name.as_bytes().to_vec(alloc)?,
            bytes: bytes.to_vec(alloc)?,
        })
    }

    fn is_named(&self, name: &str) -> bool
        ensures { result ≡ bytes_eq self.now.name name.now }
    {
        self.name.as_slice() == name.as_bytes()
    }
}

/// The content under a name: that of the first entry that has it.
pub fn look_up<'a>(entries: &'a [Entry], name: &str) -> Option<&'a [u8]>
    ensures { option_map (λ b. b.now) result ≡ content_of entries.now name.now }
{
    let entry = entries.iter().find(|e| e.is_named(name))?;
    Some(entry.bytes.as_slice())
}

// The place of the first entry that has this name.
fn place_of(entries: &[Entry], name: &str) -> Option<usize>
    ensures { result ≡ position (λ e. bytes_eq e.name name.now) entries.now }
{
    entries.iter().position(|e| e.is_named(name))
}

/// Sets the content under a name, in the place of the one that is there.
pub fn set_content(
    alloc: Global,
    entries: &mut Vec<Entry>,
    name: &str,
    bytes: &[u8],
) -> Result<(), AllocError>
    ensures ok { OnOk result (SetsContent name.now bytes.now entries.old.items entries.new.items) }
    ensures err { OnErr result (entries.new.items ≡ entries.old.items) }
{
    let entry = Entry::new(alloc, name, bytes)?;
    match place_of(entries, name) {
        Some(place) => entries[place] = entry,
        None => entries.push(entry)?,
    }
    Ok(())
}

/// Reads this content, at most one byte past the limit.
pub fn read_out(content: &[u8], into: &mut Vec<u8>) -> Result<(), ReadFault>
    requires { into.old.items ≡ [] }
    ensures read { IsRead (Some content.now) result into.new.items }
    ensures never { IsErrOf result ReadFault.Failed → ⊥ }
{
    if content.len() > LIMIT {
        into.extend_from_slice(&content[..LIMIT + 1])?;
        return Err(ReadFault::TooLong);
    }
    into.extend_from_slice(content)?;
    Ok(())
}
