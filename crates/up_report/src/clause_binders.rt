//! The variables that a clause binds.

ghost use Rattle.std.specs.Prelude.{◌≡◌, ◌^◌, ◌-◌, ◌<◌, length};
ghost use Rattle.fo_text.specs.Texts.{NamesEach};
ghost use Rattle.fo_text.specs.Reading.{Gives};
ghost use Rattle.up_report.specs.ClauseReading.{sort_name_at, sort_at, binder_at, chain, sort_ending as ending_of};

use crate::clause_heads::Ending;
use crate::clause_words::ended;
use fo_core::{Names, Seq, Sig};
use fo_text::{Halt, literal};
use itoa::Buffer;
use std::alloc::Global;

/// What ends the sort of variable k.
fn sort_ending(k: usize) -> Ending
    requires { k < 2 ^ 64 - 1 }
    ensures { result ≡ ending_of k }
{
    if k + 1 < u32::MAX as usize {
        Ending::Sort
    } else {
        Ending::LastSort
    }
}

/// Reads the name of this sort, as that of variable k, and a text that ends it.
fn read_sort_name<'a>(
    names: &Names,
    k: usize,
    sort: u32,
    bytes: &'a [u8],
) -> Result<(usize, &'a [u8]), Halt>
    requires within { sort < length names.now.sorts }
    requires fits { k < 2 ^ 64 - 1 }
    ensures { Gives (λ x. (x.0, x.1.now)) result (sort_name_at names.now k sort bytes.now) }
{
    let name = names.sorts.at(sort as usize).as_str().as_bytes();
    ended(bytes, b"", name, sort_ending(k))
}

/// Reads the name of the sort of variable k and a text that ends it: which one, by its place.
fn read_sort<'a>(
    sig: &Sig,
    names: &Names,
    k: usize,
    bytes: &'a [u8],
) -> Result<(u32, usize, &'a [u8]), Halt>
    requires named { NamesEach sig.now names.now }
    requires fits { k < 2 ^ 64 - 1 }
    ensures { Gives (λ x. ((x.0, x.1), x.2.now)) result (sort_at sig.now names.now k bytes.now) }
{
    let mut least = bytes.len();
    'each: for s in 0..sig.sorts {
        match read_sort_name(names, k, s, bytes) {
            Ok((e, rest)) => return Ok((s, e, rest)),
            Err(Halt::Memory) => return Err(Halt::Memory),
            Err(Halt::Fault(left)) => least = least.min(left),
        }
    }
    Err(Halt::Fault(least))
}

/// Reads the sort of variable k, up to that of the next one, and whether there is none.
#[tactic(auto, unfolding(crate::specs::ClauseReading::binder_at))]
fn read_binder<'a>(
    sig: &Sig,
    names: &Names,
    k: usize,
    bytes: &'a [u8],
) -> Result<(u32, bool, &'a [u8]), Halt>
    requires named { NamesEach sig.now names.now }
    requires fits { k < 2 ^ 64 - 1 }
    ensures { Gives (λ x. ((x.0, x.1), x.2.now)) result (binder_at sig.now names.now k bytes.now) }
{
    let (sort, e, rest) = read_sort(sig, names, k, bytes)?;
    if e == 0 {
        return Ok((sort, true, rest));
    }
    let mut buffer = Buffer::new();
    let rest = literal(rest, buffer.format(k + 1).as_bytes())?;
    let rest = literal(rest, b":")?;
    Ok((sort, false, rest))
}

/// Reads the sorts of the variables, from that of the first one on.
pub fn read_binders<'a>(
    alloc: Global,
    sig: &Sig,
    names: &Names,
    bytes: &'a [u8],
) -> Result<(Seq<u32>, &'a [u8]), Halt>
    requires named { NamesEach sig.now names.now }
    ensures { Gives (λ x. (x.0, x.1.now)) result (chain (binder_at sig.now names.now) 0 bytes.now) }
{
    let mut sorts = Seq::new(alloc);
    let mut rest = bytes;
    'each: for k in 0..bytes.len() + 1 {
        let (sort, last, after) = read_binder(sig, names, k, rest)?;
        sorts.push(sort)?;
        if last {
            return Ok((sorts, after));
        }
        rest = after;
    }
    Err(Halt::Fault(0))
}
