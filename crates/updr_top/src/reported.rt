//! The stages after that of the model: a report is read, and the system's sorts are ordered where
//! the report's verdict is judged by queries.

ghost use Rattle.std.specs.Prelude.{◌≡◌, ◌↔◌, ◌<◌, ◌^◌, length, IfOk, IsTrue};
ghost use Rattle.fo_core.specs.declared.order.Purpose.TheVariants.{Infer};
ghost use Rattle.fo_core.specs.SortGraph.{SortEdge, Rises};
ghost use Rattle.up_report.specs.Reports.{IsReport, StopsAt};
ghost use Rattle.updr_told.specs.Ends.{refusal};
ghost use Rattle.updr_told.specs.Stops.{IfRefused};
ghost use Rattle.updr_told.specs.declared.status.Status.TheVariants.{ReportNotRead};
ghost use Rattle.updr_model.specs.Cycles.{RefusesSystem};
ghost use Rattle.updr_model.specs.Texts.{IsModel};
ghost use Rattle.updr_top.specs.Reported.{IsAsked, not_read_words};
ghost use Rattle.updr_top.specs.Reading.{IsTheReport, RefusesReport};

use fo_core::{Order, Purpose, Seq};
use std::alloc::{AllocError, Global};
use up_claims::{Report, Verdict};
use up_core::Core;
use up_report::{ReportFault, read};
use updr_model::{Elaborated, order_for};
use updr_told::{Place, Status, Stop, Told};

/// The end that refuses a text at the byte at which no report goes on.
fn not_read(alloc: Global, bytes: &[u8], place: u32) -> Result<Told<Core>, AllocError>
    requires { length bytes.now < 2 ^ 32 }
    ensures { IfOk result (λ end. end ≡ refusal ReportNotRead (not_read_words bytes.now place)) }
{
    let place = Place::of(bytes, place).words(alloc)?;
    let words = format!(in alloc; "report {place}: not read")?;
    Told::refusal(alloc, Status::ReportNotRead, words.as_bytes())
}

/// The report over the model's signature that these bytes are, fewer than 2^32.
///
/// # Errors
///
/// The bytes are refused at the first at which no report goes on.
pub fn read_report(alloc: Global, meant: &Elaborated, bytes: &[u8]) -> Result<Report, Stop<Core>>
    requires model { IsModel meant.now.sys meant.now.names }
    requires short { length bytes.now < 2 ^ 32 }
    ensures found { IfOk result (IsTheReport meant.now bytes.now) }
    ensures refused { IfRefused result (RefusesReport meant.now bytes.now) }
{
    match read(alloc, &meant.sys.sig, &meant.names, bytes) {
        Ok(report) => Ok(report),
        Err(ReportFault::Bad(place)) => Err(Stop::Refused(not_read(alloc, bytes, place)?)),
        Err(ReportFault::Memory) => Err(Stop::Memory),
    }
}

/// Whether such a verdict is judged by queries.
fn is_asked(verdict: &Verdict) -> bool
    ensures { IsTrue result ↔ IsAsked verdict.now }
{
    match verdict {
        Verdict::Unsafe(_) => false,
        Verdict::Spent(_) => false,
        Verdict::Over(_, _) => false,
        Verdict::Safe(_, _) => true,
        Verdict::NoUniversal(_) => true,
        Verdict::Bounded(_, _, _) => true,
        Verdict::NoRun(_) => true,
    }
}

/// An order of the system's sorts, where the verdict is judged by queries; else one of no sorts.
///
/// # Errors
///
/// Where queries are to be asked and the system isn't stratified for them, the first of the shortest
/// cycles of its sort graph is told.
pub fn order_if_asked(
    alloc: Global,
    meant: &Elaborated,
    verdict: &Verdict,
) -> Result<Order, Stop<Core>>
    requires model { IsModel meant.now.sys meant.now.names }
    ensures rises { IfOk result (λ order. IsAsked verdict.now
        → Rises (SortEdge meant.now.sys Infer) meant.now.sys.sig.sorts order.numbers) }
    ensures asked { IfRefused result (λ end. IsAsked verdict.now) }
    ensures refused { IfRefused result (RefusesSystem Infer meant.now.sys meant.now.names) }
{
    if is_asked(verdict) {
        order_for(alloc, &meant.sys, &meant.names, Purpose::Infer)
    } else {
        Ok(Order {
            numbers: Seq::new(alloc),
        })
    }
}
