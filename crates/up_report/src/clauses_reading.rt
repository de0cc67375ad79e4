//! Reading the clauses of a verdict.

ghost use Rattle.std.specs.Prelude.{◌≤◌};
ghost use Rattle.fo_core.specs.Sorted.{IsSig};
ghost use Rattle.fo_text.specs.Reading.{Gives};
ghost use Rattle.up_report.specs.ClauseTexts.{CanName};
ghost use Rattle.up_report.specs.Reading.{gathered, clauses_at, one_clause_at, some_clauses_at};

use crate::clause_reading::read_clause;
use fo_core::{Names, Seq, Sig};
use fo_text::{Halt, choice, literal};
use std::alloc::Global;
use up_claims::Kept;

/// The levels that clauses may have.
#[derive(Debug, Clone, Copy)]
pub struct Levels {
    /// The least one.
    pub least: u32,
    /// The greatest one.
    pub most: u32,
}

/// Reads the lines of clauses of these levels, up to another word, after these clauses.
fn read_more<'a>(
    alloc: Global,
    sig: &Sig,
    names: &Names,
    levels: Levels,
    stop: &[u8],
    first: Seq<Kept>,
    bytes: &'a [u8],
) -> Result<(Seq<Kept>, &'a [u8]), Halt>
    requires signature { IsSig sig.now }
    requires named { CanName sig.now names.now }
    requires range { levels.least ≤ levels.most }
    ensures { Gives (λ x. (x.0, x.1.now)) result
        (gathered first
        (clauses_at sig.now names.now levels.least levels.most stop.now bytes.now)) }
{
    let mut clauses = first;
    let mut rest = bytes;
    'each: for _i in 0..bytes.len() + 1 {
        let (word, after) = choice(rest, &[stop, b"clause "])?;
        if word == 0 {
            return Ok((clauses, after));
        }
        let (kept, after) = read_clause(alloc, sig, names, levels.least, levels.most, after)?;
        clauses.push(kept)?;
        rest = after;
    }
    Err(Halt::Fault(0))
}

/// Reads the lines of clauses of these levels, up to another word.
#[tactic(auto, using(crate::proofs::Loops::gathered_none))]
pub fn read_clauses<'a>(
    alloc: Global,
    sig: &Sig,
    names: &Names,
    levels: Levels,
    stop: &[u8],
    bytes: &'a [u8],
) -> Result<(Seq<Kept>, &'a [u8]), Halt>
    requires signature { IsSig sig.now }
    requires named { CanName sig.now names.now }
    requires range { levels.least ≤ levels.most }
    ensures { Gives (λ x. (x.0, x.1.now)) result
        (clauses_at sig.now names.now levels.least levels.most stop.now bytes.now) }
{
    read_more(alloc, sig, names, levels, stop, Seq::new(alloc), bytes)
}

/// Reads the line of a clause of these levels.
#[tactic(auto, unfolding(crate::specs::Reading::one_clause_at))]
fn read_line<'a>(
    alloc: Global,
    sig: &Sig,
    names: &Names,
    levels: Levels,
    bytes: &'a [u8],
) -> Result<(Seq<Kept>, &'a [u8]), Halt>
    requires signature { IsSig sig.now }
    requires named { CanName sig.now names.now }
    requires range { levels.least ≤ levels.most }
    ensures { Gives (λ x. (x.0, x.1.now)) result
        (one_clause_at sig.now names.now levels.least levels.most bytes.now) }
{
    let rest = literal(bytes, b"clause ")?;
    let (kept, rest) = read_clause(alloc, sig, names, levels.least, levels.most, rest)?;
    let mut clauses = Seq::new(alloc);
    clauses.push(kept)?;
    Ok((clauses, rest))
}

/// Reads the lines of clauses of these levels, at least one, up to another word.
#[tactic(auto, unfolding(crate::specs::Reading::some_clauses_at))]
pub fn read_some_clauses<'a>(
    alloc: Global,
    sig: &Sig,
    names: &Names,
    levels: Levels,
    stop: &[u8],
    bytes: &'a [u8],
) -> Result<(Seq<Kept>, &'a [u8]), Halt>
    requires signature { IsSig sig.now }
    requires named { CanName sig.now names.now }
    requires range { levels.least ≤ levels.most }
    ensures { Gives (λ x. (x.0, x.1.now)) result
        (some_clauses_at sig.now names.now levels.least levels.most stop.now bytes.now) }
{
    let (first, rest) = read_line(alloc, sig, names, levels, bytes)?;
    read_more(alloc, sig, names, levels, stop, first, rest)
}
