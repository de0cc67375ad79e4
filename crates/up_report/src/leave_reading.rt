//! Reading the leaves of a verdict with frames.

ghost use Rattle.std.specs.Prelude.{◌∷◌, [], ◌+◌, ◌-◌, ◌^◌, ◌<◌, ◌≤◌, min};
ghost use Rattle.fo_core.specs.Sorted.{IsSig};
ghost use Rattle.fo_text.specs.Texts.{NamesEach};
ghost use Rattle.fo_text.specs.Reading.{Gives, number_at};
ghost use Rattle.up_report.specs.Reading.{gathered, leave_at, leave_line_at, leaves_at, all_leaves_at};

use fo_core::{Names, Seq, Sig};
use fo_text::{Halt, literal, number, world_of_copies};
use itoa::Buffer;
use std::alloc::Global;
use up_claims::Leave;

/// How many numbers of clauses there are at most.
const CLAUSE_NUMBERS: u64 = 1 << 32;

/// Reads the number of one of this many clauses.
fn read_clause_number(clauses: u64, bytes: &[u8]) -> Result<(u32, &[u8]), Halt>
    requires { 1 ≤ clauses }
    ensures { Gives (λ x. (x.0, x.1.now)) result
        (number_at 0 (min clauses (2 ^ 32) - 1) 10 bytes.now) }
{
    let (clause, rest) = number(bytes, 0, clauses.min(CLAUSE_NUMBERS) - 1, b'\n')?;
    Ok((clause as u32, rest))
}

/// Reads what follows a leave's level.
#[tactic(auto, unfolding(crate::specs::Reading::leave_at))]
fn read_leave<'a>(
    alloc: Global,
    sig: &Sig,
    names: &Names,
    clauses: u64,
    level: u32,
    bytes: &'a [u8],
) -> Result<(Leave, &'a [u8]), Halt>
    requires signature { IsSig sig.now }
    requires named { NamesEach sig.now names.now }
    requires some { 1 ≤ clauses }
    ensures { Gives (λ x. (x.0, x.1.now)) result
        (leave_at sig.now names.now clauses level bytes.now) }
{
    let (clause, rest) = read_clause_number(clauses, bytes)?;
    let (step, rest) = world_of_copies(alloc, sig, names, 2, rest)?;
    let leave = Leave {
        level,
        clause,
        step,
    };
    Ok((leave, rest))
}

/// Reads a leave of this level.
#[tactic(auto, unfolding(crate::specs::Reading::leave_line_at))]
fn read_leave_line<'a>(
    alloc: Global,
    sig: &Sig,
    names: &Names,
    clauses: u64,
    level: u32,
    bytes: &'a [u8],
) -> Result<(Leave, &'a [u8]), Halt>
    requires signature { IsSig sig.now }
    requires named { NamesEach sig.now names.now }
    requires some { 1 ≤ clauses }
    ensures { Gives (λ x. (x.0, x.1.now)) result
        (leave_line_at sig.now names.now clauses level bytes.now) }
{
    let mut buffer = Buffer::new();
    let rest = literal(bytes, b"leave ")?;
    let rest = literal(rest, buffer.format(level).as_bytes())?;
    let rest = literal(rest, b" ")?;
    read_leave(alloc, sig, names, clauses, level, rest)
}

/// Reads the leaves after this one, up to the last level.
fn read_leaves<'a>(
    alloc: Global,
    sig: &Sig,
    names: &Names,
    clauses: u64,
    first: Leave,
    last: u32,
    bytes: &'a [u8],
) -> Result<(Seq<Leave>, &'a [u8]), Halt>
    requires signature { IsSig sig.now }
    requires named { NamesEach sig.now names.now }
    requires some { 1 ≤ clauses }
    requires levels { 1 ≤ last }
    ensures { Gives (λ x. (x.0, x.1.now)) result
        (gathered (first ∷ []) (leaves_at sig.now names.now clauses (last - 1) 2 bytes.now)) }
{
    let mut leaves = Seq::new(alloc);
    leaves.push(first)?;
    let mut rest = bytes;
    'each: for k in 1..last {
        let (leave, after) = read_leave_line(alloc, sig, names, clauses, k + 1, rest)?;
        leaves.push(leave)?;
        rest = after;
    }
    Ok((leaves, rest))
}

/// Reads the leaves up to this level, after the word and the level of the first.
#[tactic(auto, unfolding(crate::specs::Reading::all_leaves_at))]
pub fn read_all_leaves<'a>(
    alloc: Global,
    sig: &Sig,
    names: &Names,
    clauses: u64,
    last: u32,
    bytes: &'a [u8],
) -> Result<(Seq<Leave>, &'a [u8]), Halt>
    requires signature { IsSig sig.now }
    requires named { NamesEach sig.now names.now }
    requires some { 1 ≤ clauses }
    requires levels { 1 ≤ last }
    ensures { Gives (λ x. (x.0, x.1.now)) result
        (all_leaves_at sig.now names.now clauses last bytes.now) }
{
    let (first, rest) = read_leave(alloc, sig, names, clauses, 1, bytes)?;
    read_leaves(alloc, sig, names, clauses, first, last, rest)
}
