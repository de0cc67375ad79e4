//! Reading a verdict and its numbers.

ghost use Rattle.std.specs.Prelude.{◌≡◌, ◌≤◌};
ghost use Rattle.fo_core.specs.Sorted.{IsSig};
ghost use Rattle.fo_text.specs.Reading.{Gives};
ghost use Rattle.up_report.specs.ClauseTexts.{CanName};
ghost use Rattle.up_report.specs.Reading.{kind_of, safe_at, unsafe_at, chain_at, frames_at, bounded_at, spent_at, over_at, no_run_at, other_at, ended_at, told_at, word_at, verdict_at, numbers_at, report_at};

use crate::clauses_reading::{Levels, read_clauses, read_some_clauses};
use crate::leave_reading::read_all_leaves;
use crate::link_reading::read_links;
use fo_core::{Names, Sig};
use fo_text::{Halt, choice, literal, number, world_of_copies};
use std::alloc::Global;
use up_claims::{Kind, Numbers, Report, Verdict};

/// The most frames and steps of which a verdict tells.
const MOST: u64 = 64;

/// The greatest level of a clause.
const MOST_LEVEL: u32 = 65;

/// The words for the verdicts, each with a space.
const VERDICT_WORDS: [&[u8]; 7] = [
    b"safe ",
    b"unsafe ",
    b"nouniversal ",
    b"bounded ",
    b"spent ",
    b"over ",
    b"norun ",
];

/// The words for the kinds of queries, each with a space.
const KIND_WORDS: [&[u8]; 6] = [
    b"seed ", b"root ", b"before ", b"block ", b"push ", b"unroll ",
];

/// Reads the frame and the clauses of a verdict of safety, up to the word of the last lines.
#[tactic(auto, unfolding(crate::specs::Reading::safe_at))]
fn read_safe<'a>(
    alloc: Global,
    sig: &Sig,
    names: &Names,
    bytes: &'a [u8],
) -> Result<(Verdict, &'a [u8]), Halt>
    requires signature { IsSig sig.now }
    requires named { CanName sig.now names.now }
    ensures { Gives (λ x. (x.0, x.1.now)) result (safe_at sig.now names.now bytes.now) }
{
    let (frame, rest) = number(bytes, 1, MOST, b'\n')?;
    let frame = frame as u32;
    let levels = Levels {
        least: frame + 1,
        most: MOST_LEVEL,
    };
    let (clauses, rest) = read_clauses(alloc, sig, names, levels, b"numbers ", rest)?;
    Ok((Verdict::Safe(frame, clauses), rest))
}

/// Reads a violating run.
#[tactic(auto, unfolding(crate::specs::Reading::unsafe_at))]
fn read_unsafe<'a>(
    alloc: Global,
    sig: &Sig,
    names: &Names,
    bytes: &'a [u8],
) -> Result<(Verdict, &'a [u8]), Halt>
    requires signature { IsSig sig.now }
    requires named { CanName sig.now names.now }
    ensures { Gives (λ x. (x.0, x.1.now)) result (unsafe_at sig.now names.now bytes.now) }
{
    let (steps, rest) = number(bytes, 0, MOST, b'\n')?;
    let (run, rest) = world_of_copies(alloc, sig, names, steps as u32 + 1, rest)?;
    Ok((Verdict::Unsafe(run), rest))
}

/// Reads a chain.
#[tactic(auto, unfolding(crate::specs::Reading::chain_at))]
fn read_chain<'a>(
    alloc: Global,
    sig: &Sig,
    names: &Names,
    bytes: &'a [u8],
) -> Result<(Verdict, &'a [u8]), Halt>
    requires signature { IsSig sig.now }
    requires named { CanName sig.now names.now }
    ensures { Gives (λ x. (x.0, x.1.now)) result (chain_at sig.now names.now bytes.now) }
{
    let (steps, rest) = number(bytes, 0, MOST, b'\n')?;
    let (links, rest) = read_links(alloc, sig, names, steps as u32 + 1, rest)?;
    Ok((Verdict::NoUniversal(links), rest))
}

/// Reads the clauses and the leaves of the frames up to this one.
#[tactic(auto, unfolding(crate::specs::Reading::frames_at))]
fn read_frames<'a>(
    alloc: Global,
    sig: &Sig,
    names: &Names,
    last: u32,
    bytes: &'a [u8],
) -> Result<(Verdict, &'a [u8]), Halt>
    requires signature { IsSig sig.now }
    requires named { CanName sig.now names.now }
    requires some { 1 ≤ last }
    requires few { last ≤ 64 }
    ensures { Gives (λ x. (x.0, x.1.now)) result (frames_at sig.now names.now last bytes.now) }
{
    let levels = Levels {
        least: 1,
        most: last + 1,
    };
    let (clauses, rest) = read_some_clauses(alloc, sig, names, levels, b"leave 1 ", bytes)?;
    let count = clauses.len() as u64;
    let (leaves, rest) = read_all_leaves(alloc, sig, names, count, last, rest)?;
    Ok((Verdict::Bounded(last, clauses, leaves), rest))
}

/// Reads a verdict with frames.
#[tactic(auto, unfolding(crate::specs::Reading::bounded_at))]
fn read_bounded<'a>(
    alloc: Global,
    sig: &Sig,
    names: &Names,
    bytes: &'a [u8],
) -> Result<(Verdict, &'a [u8]), Halt>
    requires signature { IsSig sig.now }
    requires named { CanName sig.now names.now }
    ensures { Gives (λ x. (x.0, x.1.now)) result (bounded_at sig.now names.now bytes.now) }
{
    let (last, rest) = number(bytes, 1, MOST, b'\n')?;
    read_frames(alloc, sig, names, last as u32, rest)
}

/// Reads the steps that were spent.
#[tactic(auto, unfolding(crate::specs::Reading::spent_at))]
fn read_spent(bytes: &[u8]) -> Result<(Verdict, &[u8]), Halt>
    ensures { Gives (λ x. (x.0, x.1.now)) result (spent_at bytes.now) }
{
    let (steps, rest) = number(bytes, 0, u64::from(u32::MAX), b'\n')?;
    Ok((Verdict::Spent(steps as u32), rest))
}

/// The kind of this number.
fn numbered(kind: usize) -> Kind
    ensures { result ≡ kind_of kind }
{
    match kind {
        0 => Kind::Seed,
        1 => Kind::Root,
        2 => Kind::Before,
        3 => Kind::Block,
        4 => Kind::Push,
        _ => Kind::Unroll,
    }
}

/// Reads the kind and the weight of a query above the limit.
#[tactic(auto, unfolding(crate::specs::Reading::over_at))]
fn read_over(bytes: &[u8]) -> Result<(Verdict, &[u8]), Halt>
    ensures { Gives (λ x. (x.0, x.1.now)) result (over_at bytes.now) }
{
    let (kind, rest) = choice(bytes, &KIND_WORDS)?;
    let (weight, rest) = number(rest, 0, u64::MAX, b'\n')?;
    Ok((Verdict::Over(numbered(kind), weight), rest))
}

/// Reads the steps of which no violating run has as many.
#[tactic(auto, unfolding(crate::specs::Reading::no_run_at))]
fn read_no_run(bytes: &[u8]) -> Result<(Verdict, &[u8]), Halt>
    ensures { Gives (λ x. (x.0, x.1.now)) result (no_run_at bytes.now) }
{
    let (steps, rest) = number(bytes, 0, MOST, b'\n')?;
    Ok((Verdict::NoRun(steps as u32), rest))
}

/// Reads what follows the verdict's word of this number, which isn't the first.
#[tactic(auto, unfolding(crate::specs::Reading::other_at))]
fn read_other<'a>(
    alloc: Global,
    sig: &Sig,
    names: &Names,
    word: usize,
    bytes: &'a [u8],
) -> Result<(Verdict, &'a [u8]), Halt>
    requires signature { IsSig sig.now }
    requires named { CanName sig.now names.now }
    ensures { Gives (λ x. (x.0, x.1.now)) result (other_at sig.now names.now word bytes.now) }
{
    match word {
        1 => read_unsafe(alloc, sig, names, bytes),
        2 => read_chain(alloc, sig, names, bytes),
        3 => read_bounded(alloc, sig, names, bytes),
        4 => read_spent(bytes),
        5 => read_over(bytes),
        _ => read_no_run(bytes),
    }
}

/// The same, up to the word of the last lines.
#[tactic(auto, unfolding(crate::specs::Reading::ended_at))]
fn read_ended<'a>(
    alloc: Global,
    sig: &Sig,
    names: &Names,
    word: usize,
    bytes: &'a [u8],
) -> Result<(Verdict, &'a [u8]), Halt>
    requires signature { IsSig sig.now }
    requires named { CanName sig.now names.now }
    ensures { Gives (λ x. (x.0, x.1.now)) result (ended_at sig.now names.now word bytes.now) }
{
    let (told, rest) = read_other(alloc, sig, names, word, bytes)?;
    let rest = literal(rest, b"numbers ")?;
    Ok((told, rest))
}

/// Reads what follows the verdict's word of this number, up to the word of the last lines.
#[tactic(auto, unfolding(crate::specs::Reading::told_at))]
fn read_told<'a>(
    alloc: Global,
    sig: &Sig,
    names: &Names,
    word: usize,
    bytes: &'a [u8],
) -> Result<(Verdict, &'a [u8]), Halt>
    requires signature { IsSig sig.now }
    requires named { CanName sig.now names.now }
    ensures { Gives (λ x. (x.0, x.1.now)) result (told_at sig.now names.now word bytes.now) }
{
    if word == 0 {
        return read_safe(alloc, sig, names, bytes);
    }
    read_ended(alloc, sig, names, word, bytes)
}

/// Reads the verdict's word, and answers its number.
#[tactic(auto, unfolding(crate::specs::Reading::word_at))]
fn read_word(bytes: &[u8]) -> Result<(usize, &[u8]), Halt>
    ensures { Gives (λ x. (x.0, x.1.now)) result (word_at bytes.now) }
{
    choice(bytes, &VERDICT_WORDS)
}

/// Reads a verdict, up to the word of the last lines.
#[tactic(auto, unfolding(crate::specs::Reading::verdict_at))]
fn read_verdict<'a>(
    alloc: Global,
    sig: &Sig,
    names: &Names,
    bytes: &'a [u8],
) -> Result<(Verdict, &'a [u8]), Halt>
    requires signature { IsSig sig.now }
    requires named { CanName sig.now names.now }
    ensures { Gives (λ x. (x.0, x.1.now)) result (verdict_at sig.now names.now bytes.now) }
{
    let rest = literal(bytes, b"report 1\nverdict ")?;
    let (word, rest) = read_word(rest)?;
    read_told(alloc, sig, names, word, rest)
}

/// Reads what follows the word of the last lines.
#[tactic(auto, unfolding(crate::specs::Reading::numbers_at))]
fn read_numbers(bytes: &[u8]) -> Result<(Numbers, &[u8]), Halt>
    ensures { Gives (λ x. (x.0, x.1.now)) result (numbers_at bytes.now) }
{
    let (productive, rest) = number(bytes, 0, u64::MAX, b' ')?;
    let (frontier, rest) = number(rest, 0, u64::MAX, b' ')?;
    let (clauses, rest) = number(rest, 0, u64::MAX, b'\n')?;
    let rest = literal(rest, b"done\n")?;
    let numbers = Numbers {
        productive,
        frontier,
        clauses,
    };
    Ok((numbers, rest))
}

/// Reads a report.
#[tactic(auto, unfolding(crate::specs::Reading::report_at))]
pub fn read_report<'a>(
    alloc: Global,
    sig: &Sig,
    names: &Names,
    bytes: &'a [u8],
) -> Result<(Report, &'a [u8]), Halt>
    requires signature { IsSig sig.now }
    requires named { CanName sig.now names.now }
    ensures { Gives (λ x. (x.0, x.1.now)) result (report_at sig.now names.now bytes.now) }
{
    let (verdict, rest) = read_verdict(alloc, sig, names, bytes)?;
    let (numbers, rest) = read_numbers(rest)?;
    Ok((Report { verdict, numbers }, rest))
}
