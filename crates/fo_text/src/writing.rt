ghost use Rattle.std.specs.Prelude.{◌≡◌, ◌++◌, ◌∷◌, [], ◌+◌, ◌^◌, ◌<◌, ◌≤◌, length, codes, decimal, OnOk, OnErr};
ghost use Rattle.std.specs.List.{All};
ghost use Rattle.fo_core.specs.Tables.{Fits};
ghost use Rattle.fo_core.specs.Sorted.{IsSig};
ghost use Rattle.fo_text.specs.Texts.{NamesEach, after_space, table_line, table_lines, sort_line, sort_lines, copy_text, copies_text, text_of};

use crate::lines::names_of;
use fo_core::{Names, Seq, Sig, Table, Text, World};
use itoa::Buffer;
use std::alloc::{AllocError, Global};

/// Writes a space and the number.
fn push_number(into: &mut Vec<u8>, number: u32) -> Result<(), AllocError>
    ensures { OnOk result (into.new.items ≡ into.old.items ++ after_space number) }
{
    let mut buffer = Buffer::new();
    into.push(b' ')?;
    into.extend_from_slice(buffer.format(number).as_bytes())
}

/// Writes a symbol's line.
fn push_table(into: &mut Vec<u8>, name: &Text, table: &Table) -> Result<(), AllocError>
    ensures { OnOk result (into.new.items ≡ into.old.items ++ table_line name.now table.now) }
{
    into.extend_from_slice(name.as_str().as_bytes())?;
    'each: for value in table.values.as_slice() {
        push_number(into, *value)?;
    }
    into.push(b'\n')?;
    Ok(())
}

/// Writes the lines of symbols of these names.
fn push_tables(into: &mut Vec<u8>, names: &[Text], tables: &[Table]) -> Result<(), AllocError>
    requires { length names.now ≡ length tables.now }
    ensures { OnOk result (into.new.items ≡ into.old.items ++ table_lines names.now tables.now) }
{
    'each: for (i, table) in tables.iter().enumerate() {
        push_table(into, &names[i], table)?;
    }
    Ok(())
}

/// Writes the line of a sort.
fn push_size(into: &mut Vec<u8>, name: &Text, size: u32) -> Result<(), AllocError>
    ensures { OnOk result (into.new.items ≡ into.old.items ++ sort_line name.now size) }
{
    into.extend_from_slice(b"sort ")?;
    into.extend_from_slice(name.as_str().as_bytes())?;
    push_number(into, size)?;
    into.push(b'\n')?;
    Ok(())
}

/// Writes the lines of sorts of these names.
fn push_sizes(into: &mut Vec<u8>, names: &[Text], sizes: &[u32]) -> Result<(), AllocError>
    requires { length names.now ≡ length sizes.now }
    ensures { OnOk result (into.new.items ≡ into.old.items ++ sort_lines names.now sizes.now) }
{
    'each: for (i, size) in sizes.iter().enumerate() {
        push_size(into, &names[i], *size)?;
    }
    Ok(())
}

/// Writes the copy of number k.
fn push_copy(into: &mut Vec<u8>, names: &[Text], k: u32, tables: &[Table]) -> Result<(), AllocError>
    requires { length names.now ≡ length tables.now }
    ensures { OnOk result (into.new.items ≡ into.old.items ++ copy_text names.now k tables.now) }
{
    into.extend_from_slice(b"copy")?;
    push_number(into, k)?;
    into.push(b'\n')?;
    push_tables(into, names, tables)
}

/// Writes the copies.
fn push_copies(into: &mut Vec<u8>, names: &[Text], copies: &[Seq<Table>]) -> Result<(), AllocError>
    requires each { All (λ copy. length names.now ≡ length copy) copies.now }
    requires few { length copies.now < 2 ^ 32 }
    ensures { OnOk result (into.new.items ≡ into.old.items ++ copies_text names.now 0 copies.now) }
{
    'each: for (k, copy) in copies.iter().enumerate() {
        push_copy(into, names, k as u32, copy.as_slice())?;
    }
    Ok(())
}

/// Writes the text of a world.
fn push_world(
    alloc: Global,
    into: &mut Vec<u8>,
    sig: &Sig,
    names: &Names,
    world: &World,
) -> Result<(), AllocError>
    requires named { NamesEach sig.now names.now }
    requires fits { Fits sig.now world.now }
    requires few { length world.now.copies < 2 ^ 32 }
    ensures { OnOk result (into.new.items ≡ into.old.items ++ text_of sig.now names.now world.now) }
{
    let symbols = sig.symbols.as_slice();
    let words = names.symbols.as_slice();
    let fixed = names_of(alloc, false, symbols, words)?;
    let mutable = names_of(alloc, true, symbols, words)?;
    into.extend_from_slice(b"world")?;
    push_number(into, world.copies.len() as u32)?;
    into.push(b'\n')?;
    push_sizes(into, names.sorts.as_slice(), world.sizes.as_slice())?;
    into.extend_from_slice(b"fixed\n")?;
    push_tables(into, fixed.as_slice(), world.fixed.as_slice())?;
    push_copies(into, mutable.as_slice(), world.copies.as_slice())?;
    into.extend_from_slice(b"end\n")
}

/// Appends the text of a world: its number of copies, the sizes of the sorts, the tables of the
/// immutable symbols, and those of the mutable symbols for each copy, a line each.
///
/// There has to be a name for each sort and symbol of the signature, and the world has to fit it and
/// to have fewer than 2^32 copies. After want of memory `into` holds what it held.
pub fn world_text(
    alloc: Global,
    sig: &Sig,
    names: &Names,
    world: &World,
    into: &mut Vec<u8>,
) -> Result<(), AllocError>
    requires named { NamesEach sig.now names.now }
    requires fits { Fits sig.now world.now }
    requires few { length world.now.copies < 2 ^ 32 }
    ensures ok { OnOk result (into.new.items ≡ into.old.items ++ text_of sig.now names.now world.now) }
    ensures err { OnErr result (into.new.items ≡ into.old.items) }
{
    let mut text = Vec::new(alloc);
    push_world(alloc, &mut text, sig, names, world)?;
    into.extend_from_slice(&text)
}
