ghost use Rattle.std.specs.Prelude.{◌≡◌, ◌++◌, ◌-◌, ◌^◌, ◌<◌, ◌≤◌, min, length, map, slice_index, IfOk, List, ℕ};
ghost use Rattle.std.specs.List.{All};
ghost use Rattle.fo_core.specs.Tables.{tuples};
ghost use Rattle.fo_core.specs.Sorted.{HasSorts};
ghost use Rattle.fo_text.specs.Texts.{names_like};
ghost use Rattle.fo_text.specs.Reading.{line_of, lines_of, cut};

use fo_core::{Seq, Symbol, Text};
use std::alloc::{AllocError, Global};

/// What the line of a symbol holds, once the sorts have sizes.
#[derive(Debug, Drop)]
pub struct Line {
    pub name: Text,
    /// How many values follow the name, cut at `u64::MAX`: no text has more.
    pub entries: u64,
    /// The greatest value of the symbol.
    pub most: u32,
}

/// How many tuples there are of elements of these sorts, cut at `u64::MAX`.
fn entries(sizes: &Seq<u32>, sorts: &[u32]) -> u64
    requires nonempty { All (λ n. 1 ≤ n) sizes.now }
    requires known { All (λ s. s < length sizes.now) sorts.now }
    ensures { result ≡ min (tuples (map (slice_index sizes.now) sorts.now)) (2 ^ 64 - 1) }
{
    let mut entries: u64 = 1;
    'each: for sort in sorts {
        entries = entries.saturating_mul(u64::from(*sizes.at(*sort as usize)));
    }
    entries
}

fn symbol_line(
    alloc: Global,
    sizes: &Seq<u32>,
    symbol: &Symbol,
    name: &Text,
) -> Result<Line, AllocError>
    requires nonempty { All (λ n. 1 ≤ n) sizes.now }
    requires known { HasSorts (length sizes.now) symbol.now }
    ensures { IfOk result (λ line. line ≡ cut (line_of sizes.now symbol.now name.now)) }
{
    let most = if symbol.relation {
        1
    } else {
        *sizes.at(symbol.result as usize) - 1
    };
    Ok(Line {
        name: name.copy(alloc)?,
        entries: entries(sizes, symbol.args.as_slice()),
        most,
    })
}

/// The lines of the mutable symbols, or of the immutable ones, in the order of the symbols.
pub fn symbol_lines(
    alloc: Global,
    sizes: &Seq<u32>,
    mutable: bool,
    symbols: &[Symbol],
    names: &[Text],
) -> Result<Seq<Line>, AllocError>
    requires nonempty { All (λ n. 1 ≤ n) sizes.now }
    requires known { All (HasSorts (length sizes.now)) symbols.now }
    requires named { length names.now ≡ length symbols.now }
    ensures { IfOk result (λ lines. lines ≡ map cut (lines_of sizes.now mutable symbols.now names.now)) }
{
    let mut lines = Seq::new(alloc);
    'each: for (i, symbol) in symbols.iter().enumerate() {
        if symbol.mutable != mutable {
            continue;
        }
        lines.push(symbol_line(alloc, sizes, symbol, &names[i])?)?;
    }
    Ok(lines)
}

/// The names of the mutable symbols, or of the immutable ones, in the order of the symbols.
pub fn names_of(
    alloc: Global,
    mutable: bool,
    symbols: &[Symbol],
    names: &[Text],
) -> Result<Seq<Text>, AllocError>
    requires { length names.now ≡ length symbols.now }
    ensures { IfOk result (λ some. some ≡ names_like mutable symbols.now names.now) }
{
    let mut some = Seq::new(alloc);
    'each: for (i, symbol) in symbols.iter().enumerate() {
        if symbol.mutable != mutable {
            continue;
        }
        some.push(names[i].copy(alloc)?)?;
    }
    Ok(some)
}
