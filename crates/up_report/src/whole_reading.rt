//! Reading a whole report.

ghost use Rattle.std.specs.Prelude.{◌^◌, ◌<◌, length, IfOk};
ghost use Rattle.fo_core.specs.Sorted.{IsSig};
ghost use Rattle.up_claims.specs.declared.report.Report.{Report};
ghost use Rattle.up_report.specs.Answers.{IsUnlessMemory, IfBad};
ghost use Rattle.up_report.specs.ClauseTexts.{CanName};
ghost use Rattle.up_report.specs.Reports.{IsReport, StopsAt};

use crate::fault::ReportFault;
use crate::verdict_reading::read_report;
use fo_core::{Names, Sig};
use fo_text::Halt;
use std::alloc::Global;
use up_claims::Report;

/// Reads a report from bytes in which nothing follows it.
///
/// The signature has to be well-sorted, with distinct names for its sorts and symbols, and the
/// bytes have to be fewer than 2^32. `ReportFault::Bad` gives the first byte at which no report
/// goes on: where the bytes end too early it is their number, and where more follows a report it is
/// the place after its end. `ReportFault::Memory` comes where memory runs out. Memory is taken for
/// what was read, and not for what the text announces.
pub fn read(alloc: Global, sig: &Sig, names: &Names, bytes: &[u8]) -> Result<Report, ReportFault>
    requires signature { IsSig sig.now }
    requires named { CanName sig.now names.now }
    requires short { length bytes.now < 2 ^ 32 }

    // The bytes are the text of what is answered, a report with a text.
    ensures found { IfOk result (IsReport sig.now names.now bytes.now) }

    // Bytes that are the text of a report are answered by it.
    ensures only { (r : Report) → IsReport sig.now names.now bytes.now r → IsUnlessMemory r result }

    // A fault is the first one.
    ensures bad { IfBad result (StopsAt sig.now names.now bytes.now) }
{
    match read_report(alloc, sig, names, bytes) {
        Ok((report, rest)) => {
            if !rest.is_empty() {
                return Err(ReportFault::Bad((bytes.len() - rest.len()) as u32));
            }
            Ok(report)
        }
        Err(Halt::Memory) => Err(ReportFault::Memory),
        Err(Halt::Fault(left)) => Err(ReportFault::Bad((bytes.len() - left) as u32)),
    }
}
