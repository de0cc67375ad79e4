//! A whole clause is read.

ghost use Rattle.std.specs.Prelude.{◌≡◌, ◌≤◌, [], map};
ghost use Rattle.fo_core.specs.Sorted.{IsSig};
ghost use Rattle.fo_text.specs.Reading.{Gives, number_at};
ghost use Rattle.up_report.specs.ClauseTexts.{CanName};
ghost use Rattle.up_report.specs.ClauseReading.{IsHeadOf, stands, bound_at, free_from, kept_from, clause_at};

use crate::clause_binders::read_binders;
use crate::clause_denials::{read_body, read_body_from};
use crate::clause_heads::{Head, is_forall};
use crate::clause_symbols::{read_first_head, standing};
use fo_core::{Names, Seq, Sig};
use fo_text::{Halt, number};
use std::alloc::Global;
use up_claims::Kept;
use up_diagram::Cube;

/// Reads the variables and the denials of a clause of this level.
#[tactic(auto, unfolding(crate::specs::ClauseReading::bound_at))]
fn read_bound<'a>(
    alloc: Global,
    sig: &Sig,
    names: &Names,
    level: u32,
    bytes: &'a [u8],
) -> Result<(Kept, &'a [u8]), Halt>
    requires signature { IsSig sig.now }
    requires named { CanName sig.now names.now }
    ensures { Gives (λ x. (x.0, x.1.now)) result (bound_at sig.now names.now level bytes.now) }
{
    let (sorts, rest) = read_binders(alloc, sig, names, bytes)?;
    let standing = standing(alloc, sig, sorts.as_slice())?;
    let (lits, rest) = read_body(
        alloc,
        sig,
        names,
        sorts.as_slice(),
        standing.as_slice(),
        rest,
    )?;
    let cube = Cube { sorts, lits };
    Ok((Kept { level, cube }, rest))
}

/// Reads the denials of a clause of this level without variables, the first of which has this head.
#[tactic(auto, unfolding(crate::specs::ClauseReading::free_from))]
fn read_free<'a>(
    alloc: Global,
    sig: &Sig,
    names: &Names,
    standing: &[bool],
    level: u32,
    head: Head,
    bytes: &'a [u8],
) -> Result<(Kept, &'a [u8]), Halt>
    requires signature { IsSig sig.now }
    requires named { CanName sig.now names.now }
    requires standing { standing.now ≡ map (stands []) sig.now.symbols }
    requires head { IsHeadOf sig.now [] head }
    ensures { Gives (λ x. (x.0, x.1.now)) result
        (free_from sig.now names.now level head bytes.now) }
{
    let (lits, rest) = read_body_from(alloc, sig, names, &[], standing, head, bytes)?;
    let cube = Cube {
        sorts: Seq::new(alloc),
        lits,
    };
    Ok((Kept { level, cube }, rest))
}

/// Reads what follows this head of a clause of this level.
fn read_from<'a>(
    alloc: Global,
    sig: &Sig,
    names: &Names,
    standing: &[bool],
    level: u32,
    head: Head,
    bytes: &'a [u8],
) -> Result<(Kept, &'a [u8]), Halt>
    requires signature { IsSig sig.now }
    requires named { CanName sig.now names.now }
    requires standing { standing.now ≡ map (stands []) sig.now.symbols }
    requires head { IsHeadOf sig.now [] head }
    ensures { Gives (λ x. (x.0, x.1.now)) result
        (kept_from sig.now names.now level head bytes.now) }
{
    if is_forall(head) {
        return read_bound(alloc, sig, names, level, bytes);
    }
    read_free(alloc, sig, names, standing, level, head, bytes)
}

/// Reads a clause and the end of its line from the front of the bytes: its level, from `least` to
/// `most`, its variables, and the negations of the literals of its cube.
///
/// The signature has to be well-sorted, with names for its sorts and symbols, and `least` at most
/// `most`. It takes memory for what was read.
#[tactic(auto, unfolding(crate::specs::ClauseReading::clause_at))]
pub fn read_clause<'a>(
    alloc: Global,
    sig: &Sig,
    names: &Names,
    least: u32,
    most: u32,
    bytes: &'a [u8],
) -> Result<(Kept, &'a [u8]), Halt>
    requires signature { IsSig sig.now }
    requires named { CanName sig.now names.now }
    requires range { least ≤ most }
    ensures { Gives (λ x. (x.0, x.1.now)) result
        (clause_at sig.now names.now least most bytes.now) }
{
    let (level, rest) = number(bytes, u64::from(least), u64::from(most), b' ')?;
    let standing = standing(alloc, sig, &[])?;
    let (head, rest) = read_first_head(rest, sig, names, standing.as_slice())?;
    read_from(
        alloc,
        sig,
        names,
        standing.as_slice(),
        level as u32,
        head,
        rest,
    )
}
