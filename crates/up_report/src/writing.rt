//! Writing a report.

ghost use Rattle.std.specs.Prelude.{◌≡◌, ◌++◌, ◌∷◌, [], ◌-◌, ◌<◌, length, OnOk, OnErr};
ghost use Rattle.std.specs.List.{All};
ghost use Rattle.fo_text.specs.Parts.{number_text};
ghost use Rattle.fo_text.specs.Texts.{NamesEach, HasText, after_space, text_of};
ghost use Rattle.up_diagram.specs.Cubes.{IsCube};
ghost use Rattle.up_claims.specs.declared.verdict.Kept.{Kept};
ghost use Rattle.up_claims.specs.declared.verdict.Leave.{Leave};
ghost use Rattle.up_report.specs.Ranges.{HasLinks, HasVerdict, HasReport};
ghost use Rattle.up_report.specs.Writing.{HasLinkTexts};
ghost use Rattle.up_report.specs.Texts.{clauses_text, map_line, map_lines, link_text, links_text, leave_text, leaves_text, kind_word, verdict_word, told_text, numbers_text, report_text};

use crate::clause_writing::push_clause;
use fo_core::{Names, Seq, Sig, Text, World};
use fo_text::world_text;
use itoa::Buffer;
use std::alloc::{AllocError, Global};
use up_claims::{Kept, Kind, Leave, Link, Numbers, Report, Verdict};

// ---- parts

/// Writes the number and the byte that ends it.
fn push_number(number: u64, ending: u8, into: &mut Vec<u8>) -> Result<(), AllocError>
    ensures { OnOk result (into.new.items ≡ into.old.items ++ number_text ending number) }
{
    let mut buffer = Buffer::new();
    into.extend_from_slice(buffer.format(number).as_bytes())?;
    into.push(ending)?;
    Ok(())
}

/// Writes a space and the number.
fn push_spaced(number: u32, into: &mut Vec<u8>) -> Result<(), AllocError>
    ensures { OnOk result (into.new.items ≡ into.old.items ++ after_space number) }
{
    let mut buffer = Buffer::new();
    into.push(b' ')?;
    into.extend_from_slice(buffer.format(number).as_bytes())
}

/// Writes a clause's line.
fn push_line(sig: &Sig, names: &Names, kept: &Kept, into: &mut Vec<u8>) -> Result<(), AllocError>
    requires named { NamesEach sig.now names.now }
    requires cube { IsCube sig.now kept.now.cube }
    ensures { OnOk result (into.new.items ≡
        into.old.items ++ clauses_text names.now (kept.now ∷ [])) }
{
    into.extend_from_slice(b"clause ")?;
    push_clause(sig, names, kept, into)
}

/// Writes the clauses' lines.
fn push_clauses(
    sig: &Sig,
    names: &Names,
    clauses: &[Kept],
    into: &mut Vec<u8>,
) -> Result<(), AllocError>
    requires named { NamesEach sig.now names.now }
    requires cubes { All (λ kept. IsCube sig.now kept.cube) clauses.now }
    ensures { OnOk result (into.new.items ≡ into.old.items ++ clauses_text names.now clauses.now) }
{
    'each: for kept in clauses {
        push_line(sig, names, kept, into)?;
    }
    Ok(())
}

// ---- links

/// Writes the line of a sort's map.
fn push_map(name: &Text, images: &[u32], into: &mut Vec<u8>) -> Result<(), AllocError>
    ensures { OnOk result (into.new.items ≡ into.old.items ++ map_line name.now images.now) }
{
    into.extend_from_slice(b"map ")?;
    into.extend_from_slice(name.as_str().as_bytes())?;
    'each: for image in images {
        push_spaced(*image, into)?;
    }
    into.push(b'\n')?;
    Ok(())
}

/// Writes the lines of the maps of the sorts of these names.
fn push_maps(names: &[Text], maps: &[Seq<u32>], into: &mut Vec<u8>) -> Result<(), AllocError>
    requires { length names.now ≡ length maps.now }
    ensures { OnOk result (into.new.items ≡ into.old.items ++ map_lines names.now maps.now) }
{
    'each: for (i, images) in maps.iter().enumerate() {
        push_map(&names[i], images.as_slice(), into)?;
    }
    Ok(())
}

/// Writes a link.
#[tactic(auto, using(crate::proofs::WriteParts::link_joined))]
fn push_link(
    alloc: Global,
    sig: &Sig,
    names: &Names,
    link: &Link,
    into: &mut Vec<u8>,
) -> Result<(), AllocError>
    requires named { NamesEach sig.now names.now }
    requires texts { HasLinkTexts sig.now names.now link.now }
    ensures { OnOk result (into.new.items ≡
        into.old.items ++ link_text sig.now names.now link.now) }
{
    world_text(alloc, sig, names, &link.origin, into)?;
    world_text(alloc, sig, names, &link.state, into)?;
    push_maps(names.sorts.as_slice(), link.map.images.as_slice(), into)
}

/// Writes the links.
fn push_links(
    alloc: Global,
    sig: &Sig,
    names: &Names,
    links: &[Link],
    into: &mut Vec<u8>,
) -> Result<(), AllocError>
    requires named { NamesEach sig.now names.now }
    requires texts { All (HasLinkTexts sig.now names.now) links.now }
    ensures { OnOk result (into.new.items ≡
        into.old.items ++ links_text sig.now names.now links.now) }
{
    'each: for link in links {
        push_link(alloc, sig, names, link, into)?;
    }
    Ok(())
}

// ---- leaves

/// Writes a leave.
fn push_leave(
    alloc: Global,
    sig: &Sig,
    names: &Names,
    leave: &Leave,
    into: &mut Vec<u8>,
) -> Result<(), AllocError>
    requires named { NamesEach sig.now names.now }
    requires step { HasText sig.now leave.now.step }
    ensures { OnOk result (into.new.items ≡
        into.old.items ++ leave_text sig.now names.now leave.now) }
{
    into.extend_from_slice(b"leave")?;
    push_spaced(leave.level, into)?;
    push_spaced(leave.clause, into)?;
    into.push(b'\n')?;
    world_text(alloc, sig, names, &leave.step, into)
}

/// Writes the leaves.
fn push_leaves(
    alloc: Global,
    sig: &Sig,
    names: &Names,
    leaves: &[Leave],
    into: &mut Vec<u8>,
) -> Result<(), AllocError>
    requires named { NamesEach sig.now names.now }
    requires steps { All (λ (leave : Leave). HasText sig.now leave.step) leaves.now }
    ensures { OnOk result (into.new.items ≡
        into.old.items ++ leaves_text sig.now names.now leaves.now) }
{
    'each: for leave in leaves {
        push_leave(alloc, sig, names, leave, into)?;
    }
    Ok(())
}

// ---- the verdicts

/// Writes the text of a verdict of safety after its word.
fn push_safe(
    sig: &Sig,
    names: &Names,
    frame: u32,
    clauses: &[Kept],
    into: &mut Vec<u8>,
) -> Result<(), AllocError>
    requires named { NamesEach sig.now names.now }
    requires cubes { All (λ kept. IsCube sig.now kept.cube) clauses.now }
    ensures { OnOk result (into.new.items ≡
        into.old.items ++ (number_text 10 frame ++ clauses_text names.now clauses.now)) }
{
    push_number(u64::from(frame), b'\n', into)?;
    push_clauses(sig, names, clauses, into)
}

/// Writes the text of a violating run after its word.
fn push_unsafe(
    alloc: Global,
    sig: &Sig,
    names: &Names,
    run: &World,
    into: &mut Vec<u8>,
) -> Result<(), AllocError>
    requires named { NamesEach sig.now names.now }
    requires text { HasText sig.now run.now }
    ensures { OnOk result (into.new.items ≡
        into.old.items ++ (number_text 10 (length run.now.copies - 1) ++
        text_of sig.now names.now run.now)) }
{
    push_number(run.copies.len() as u64 - 1, b'\n', into)?;
    world_text(alloc, sig, names, run, into)
}

/// Writes the text of a chain after its word.
fn push_chain(
    alloc: Global,
    sig: &Sig,
    names: &Names,
    links: &[Link],
    into: &mut Vec<u8>,
) -> Result<(), AllocError>
    requires named { NamesEach sig.now names.now }
    requires links { HasLinks sig.now links.now }
    ensures { OnOk result (into.new.items ≡
        into.old.items ++ (number_text 10 (length links.now - 1) ++
        links_text sig.now names.now links.now)) }
{
    push_number(links.len() as u64 - 1, b'\n', into)?;
    push_links(alloc, sig, names, links, into)
}

/// Writes the text of a verdict with frames after its word.
fn push_bounded(
    alloc: Global,
    sig: &Sig,
    names: &Names,
    last: u32,
    clauses: &[Kept],
    leaves: &[Leave],
    into: &mut Vec<u8>,
) -> Result<(), AllocError>
    requires named { NamesEach sig.now names.now }
    requires cubes { All (λ kept. IsCube sig.now kept.cube) clauses.now }
    requires steps { All (λ (leave : Leave). HasText sig.now leave.step) leaves.now }
    ensures { OnOk result (into.new.items ≡
        into.old.items ++ (number_text 10 last ++
        (clauses_text names.now clauses.now ++ leaves_text sig.now names.now leaves.now))) }
{
    push_number(u64::from(last), b'\n', into)?;
    push_clauses(sig, names, clauses, into)?;
    push_leaves(alloc, sig, names, leaves, into)
}

/// The word for a query's kind.
fn word_of(kind: Kind) -> &'static [u8]
    ensures { result.now ≡ kind_word kind }
{
    match kind {
        Kind::Seed => b"seed",
        Kind::Root => b"root",
        Kind::Before => b"before",
        Kind::Block => b"block",
        Kind::Push => b"push",
        Kind::Unroll => b"unroll",
    }
}

/// Writes the kind and the weight of a query above the limit.
fn push_over(kind: Kind, weight: u64, into: &mut Vec<u8>) -> Result<(), AllocError>
    ensures { OnOk result (into.new.items ≡
        into.old.items ++ (kind_word kind ++ (32 ∷ number_text 10 weight))) }
{
    into.extend_from_slice(word_of(kind))?;
    into.push(b' ')?;
    push_number(weight, b'\n', into)
}

/// The word for a verdict, and a space.
fn word_before(verdict: &Verdict) -> &'static [u8]
    ensures { result.now ≡ verdict_word verdict.now }
{
    match verdict {
        Verdict::Safe(..) => b"safe ",
        Verdict::Unsafe(..) => b"unsafe ",
        Verdict::NoUniversal(..) => b"nouniversal ",
        Verdict::Bounded(..) => b"bounded ",
        Verdict::Spent(..) => b"spent ",
        Verdict::Over(..) => b"over ",
        Verdict::NoRun(..) => b"norun ",
    }
}

/// Writes what the verdict's line holds after its word, and the lines that belong to it.
fn push_told(
    alloc: Global,
    sig: &Sig,
    names: &Names,
    verdict: &Verdict,
    into: &mut Vec<u8>,
) -> Result<(), AllocError>
    requires named { NamesEach sig.now names.now }
    requires ranged { HasVerdict sig.now verdict.now }
    ensures { OnOk result (into.new.items ≡
        into.old.items ++ told_text sig.now names.now verdict.now) }
{
    match verdict {
        Verdict::Safe(frame, clauses) => push_safe(sig, names, *frame, clauses.as_slice(), into),
        Verdict::Unsafe(run) => push_unsafe(alloc, sig, names, run, into),
        Verdict::NoUniversal(links) => push_chain(alloc, sig, names, links.as_slice(), into),
        Verdict::Bounded(last, clauses, leaves) => {
            let clauses = clauses.as_slice();
            push_bounded(alloc, sig, names, *last, clauses, leaves.as_slice(), into)
        }
        Verdict::Spent(steps) => push_number(u64::from(*steps), b'\n', into),
        Verdict::Over(kind, weight) => push_over(*kind, *weight, into),
        Verdict::NoRun(steps) => push_number(u64::from(*steps), b'\n', into),
    }
}

/// Writes the last lines.
fn push_numbers(numbers: &Numbers, into: &mut Vec<u8>) -> Result<(), AllocError>
    ensures { OnOk result (into.new.items ≡ into.old.items ++ numbers_text numbers.now) }
{
    into.extend_from_slice(b"numbers ")?;
    push_number(numbers.productive, b' ', into)?;
    push_number(numbers.frontier, b' ', into)?;
    push_number(numbers.clauses, b'\n', into)?;
    into.extend_from_slice(b"done\n")
}

/// Writes the text of a report.
fn push_report(
    alloc: Global,
    sig: &Sig,
    names: &Names,
    report: &Report,
    into: &mut Vec<u8>,
) -> Result<(), AllocError>
    requires named { NamesEach sig.now names.now }
    requires ranged { HasReport sig.now report.now }
    ensures { OnOk result (into.new.items ≡
        into.old.items ++ report_text sig.now names.now report.now) }
{
    into.extend_from_slice(b"report 1\nverdict ")?;
    into.extend_from_slice(word_before(&report.verdict))?;
    push_told(alloc, sig, names, &report.verdict, into)?;
    push_numbers(&report.numbers, into)
}

/// Appends the text of a report: its verdict with the clauses and worlds that belong to it, and
/// how far its search had come.
///
/// There has to be a name for each sort and symbol of the signature, and the report has to be one
/// that has a text: frames and steps up to 64, clauses that are well-sorted and of the levels that
/// the verdict may have, worlds that fit the signature and have the number of copies that belongs
/// to their place, maps between their sizes. Where memory runs out `into` holds what it held.
pub fn write(
    alloc: Global,
    sig: &Sig,
    names: &Names,
    report: &Report,
    into: &mut Vec<u8>,
) -> Result<(), AllocError>
    requires named { NamesEach sig.now names.now }
    requires ranged { HasReport sig.now report.now }
    ensures ok { OnOk result (into.new.items ≡
        into.old.items ++ report_text sig.now names.now report.now) }
    ensures err { OnErr result (into.new.items ≡ into.old.items) }
{
    let mut text = Vec::new(alloc);
    push_report(alloc, sig, names, report, &mut text)?;
    into.extend_from_slice(&text)
}
