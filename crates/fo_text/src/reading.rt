ghost use Rattle.std.specs.Prelude.{◌≡◌, ◌==◌, if◌then◌else◌, ◌-◌, ◌^◌, ◌<◌, ◌≤◌, length, map};
ghost use Rattle.std.specs.List.{All};
ghost use Rattle.fo_core.specs.Sorted.{IsSig};
ghost use Rattle.fo_text.specs.Texts.{NamesEach};
ghost use Rattle.fo_text.specs.Reading.{Gives, values_at, table_at, tables_at, copy_at, copies_at, size_at, sizes_at, count_at, tables_of, structure_at, world_at, copied_world_at, cut};

use crate::halt::Halt;
use crate::lines::{Line, symbol_lines};
use crate::parts::{literal, short_number};
use fo_core::{Names, Seq, Sig, Table, Text, World};
use itoa::Buffer;
use std::alloc::Global;

/// What stands behind a value that so many follow in its line: a space, or the line's end.
fn ending(following: u64) -> u8
    ensures is { result ≡ (if following == 0 then 10 else 32) }
    ensures below { result < 48 }
{
    if following == 0 { b'\n' } else { b' ' }
}

/// Reads so many values up to `most` and the end of their line.
fn read_values(
    alloc: Global,
    entries: u64,
    most: u32,
    bytes: &[u8],
) -> Result<(Seq<u32>, &[u8]), Halt>
    ensures { Gives (λ x. (x.0, x.1.now)) result (values_at entries most bytes.now) }
{
    let mut values = Seq::new(alloc);
    let mut rest = bytes;
    'each: for i in 0..entries {
        let (value, after) = short_number(rest, 0, most, ending(entries - i - 1))?;
        values.push(value)?;
        rest = after;
    }
    Ok((values, rest))
}

/// Reads a symbol's line.
#[tactic(auto, unfolding(crate::specs::Reading::table_at))]
fn read_table<'a>(alloc: Global, line: &Line, bytes: &'a [u8]) -> Result<(Table, &'a [u8]), Halt>
    ensures { Gives (λ x. (x.0, x.1.now)) result (table_at line.now bytes.now) }
{
    let rest = literal(bytes, line.name.as_str().as_bytes())?;
    let rest = literal(rest, b" ")?;
    let (values, rest) = read_values(alloc, line.entries, line.most, rest)?;
    Ok((Table { values }, rest))
}

/// Reads these lines.
fn read_tables<'a>(
    alloc: Global,
    lines: &[Line],
    bytes: &'a [u8],
) -> Result<(Seq<Table>, &'a [u8]), Halt>
    ensures { Gives (λ x. (x.0, x.1.now)) result (tables_at lines.now bytes.now) }
{
    let mut tables = Seq::new(alloc);
    let mut rest = bytes;
    'each: for line in lines {
        let (read, after) = read_table(alloc, line, rest)?;
        tables.push(read)?;
        rest = after;
    }
    Ok((tables, rest))
}

/// Reads the copy of number k.
#[tactic(auto, unfolding(crate::specs::Reading::copy_at))]
fn read_copy<'a>(
    alloc: Global,
    lines: &[Line],
    k: u32,
    bytes: &'a [u8],
) -> Result<(Seq<Table>, &'a [u8]), Halt>
    ensures { Gives (λ x. (x.0, x.1.now)) result (copy_at lines.now k bytes.now) }
{
    let mut buffer = Buffer::new();
    let rest = literal(bytes, b"copy ")?;
    let rest = literal(rest, buffer.format(k).as_bytes())?;
    let rest = literal(rest, b"\n")?;
    read_tables(alloc, lines, rest)
}

/// Reads so many copies.
fn read_copies<'a>(
    alloc: Global,
    lines: &[Line],
    count: u32,
    bytes: &'a [u8],
) -> Result<(Seq<Seq<Table>>, &'a [u8]), Halt>
    ensures { Gives (λ x. (x.0, x.1.now)) result (copies_at lines.now count 0 bytes.now) }
{
    let mut copies = Seq::new(alloc);
    let mut rest = bytes;
    'each: for k in 0..count {
        let (read, after) = read_copy(alloc, lines, k, rest)?;
        copies.push(read)?;
        rest = after;
    }
    Ok((copies, rest))
}

/// Reads the line of the sort of this name: its size.
#[tactic(auto, unfolding(crate::specs::Reading::size_at))]
fn read_size<'a>(name: &Text, bytes: &'a [u8]) -> Result<(u32, &'a [u8]), Halt>
    ensures { Gives (λ x. (x.0, x.1.now)) result (size_at name.now bytes.now) }
{
    let rest = literal(bytes, b"sort ")?;
    let rest = literal(rest, name.as_str().as_bytes())?;
    let rest = literal(rest, b" ")?;
    short_number(rest, 1, u32::MAX, b'\n')
}

/// Reads the lines of the sorts of these names.
fn read_sizes<'a>(
    alloc: Global,
    names: &[Text],
    bytes: &'a [u8],
) -> Result<(Seq<u32>, &'a [u8]), Halt>
    ensures { Gives (λ x. (x.0, x.1.now)) result (sizes_at names.now bytes.now) }
{
    let mut sizes = Seq::new(alloc);
    let mut rest = bytes;
    'each: for name in names {
        let (read, after) = read_size(name, rest)?;
        sizes.push(read)?;
        rest = after;
    }
    Ok((sizes, rest))
}

/// Reads the first line: how many copies there are.
#[tactic(auto, unfolding(crate::specs::Reading::count_at))]
fn read_count(bytes: &[u8]) -> Result<(u32, &[u8]), Halt>
    ensures { Gives (λ x. (x.0, x.1.now)) result (count_at bytes.now) }
{
    let rest = literal(bytes, b"world ")?;
    short_number(rest, 1, u32::MAX, b'\n')
}

/// Reads what stands behind the sizes, where the symbols have these lines.
#[tactic(auto, unfolding(crate::specs::Reading::tables_of))]
fn read_all_tables<'a>(
    alloc: Global,
    sizes: Seq<u32>,
    count: u32,
    fixed: &[Line],
    mutable: &[Line],
    bytes: &'a [u8],
) -> Result<(World, &'a [u8]), Halt>
    ensures { Gives (λ x. (x.0, x.1.now)) result (tables_of sizes count fixed.now mutable.now bytes.now) }
{
    let rest = literal(bytes, b"fixed\n")?;
    let (fixed, rest) = read_tables(alloc, fixed, rest)?;
    let (copies, rest) = read_copies(alloc, mutable, count, rest)?;
    let rest = literal(rest, b"end\n")?;
    let world = World {
        sizes,
        fixed,
        copies,
    };
    Ok((world, rest))
}

/// Reads what stands behind the sizes.
fn read_structure<'a>(
    alloc: Global,
    sig: &Sig,
    names: &Names,
    sizes: Seq<u32>,
    count: u32,
    bytes: &'a [u8],
) -> Result<(World, &'a [u8]), Halt>
    requires signature { IsSig sig.now }
    requires named { NamesEach sig.now names.now }
    requires each { length sizes ≡ sig.now.sorts }
    requires nonempty { All (λ n. 1 ≤ n) sizes }
    ensures { Gives (λ x. (x.0, x.1.now)) result (structure_at cut sig.now names.now sizes count bytes.now) }
{
    let symbols = sig.symbols.as_slice();
    let words = names.symbols.as_slice();
    let fixed = symbol_lines(alloc, &sizes, false, symbols, words)?;
    let mutable = symbol_lines(alloc, &sizes, true, symbols, words)?;
    read_all_tables(
        alloc,
        sizes,
        count,
        fixed.as_slice(),
        mutable.as_slice(),
        bytes,
    )
}

/// Reads a world.
#[tactic(auto, unfolding(crate::specs::Reading::world_at))]
pub fn read_world<'a>(
    alloc: Global,
    sig: &Sig,
    names: &Names,
    bytes: &'a [u8],
) -> Result<(World, &'a [u8]), Halt>
    requires signature { IsSig sig.now }
    requires named { NamesEach sig.now names.now }
    ensures { Gives (λ x. (x.0, x.1.now)) result (world_at cut sig.now names.now bytes.now) }
{
    let (count, rest) = read_count(bytes)?;
    let (sizes, rest) = read_sizes(alloc, names.sorts.as_slice(), rest)?;
    read_structure(alloc, sig, names, sizes, count, rest)
}

/// Reads a world with this number of copies.
#[tactic(auto, unfolding(crate::specs::Reading::copied_world_at))]
pub fn read_copied_world<'a>(
    alloc: Global,
    sig: &Sig,
    names: &Names,
    copies: u32,
    bytes: &'a [u8],
) -> Result<(World, &'a [u8]), Halt>
    requires signature { IsSig sig.now }
    requires named { NamesEach sig.now names.now }
    ensures { Gives (λ x. (x.0, x.1.now)) result (copied_world_at cut sig.now names.now copies bytes.now) }
{
    let mut buffer = Buffer::new();
    let rest = literal(bytes, b"world ")?;
    let rest = literal(rest, buffer.format(copies).as_bytes())?;
    let rest = literal(rest, b"\n")?;
    let (sizes, rest) = read_sizes(alloc, names.sorts.as_slice(), rest)?;
    read_structure(alloc, sig, names, sizes, copies, rest)
}
