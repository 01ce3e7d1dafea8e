// The check of what a sheet's lines refer to, for any sheet: its findings into a lent list, or its report into a lent buffer.
ghost use Rattle.std.specs.Prelude.{◌≡◌, ◌≤◌, Err, MatchResult, length};
ghost use Rattle.refusals.specs.Refusals.{room_for, output_by};
ghost use Rattle.sheet.specs.Lines.{sheet_check};
ghost use Rattle.referred.specs.Codes.{codes_of};
ghost use Rattle.referred.specs.Answers.{report_outcome, report_left, found_outcome, found_left};
ghost use Rattle.referred.specs.Told.{Told};

use crate::faults::find_in;
use crate::lines::Report;
use crate::{Fault, Finding};
use lookup::lexicon::Lexicon;
use lookup::lines::with_lexicon_into;
use refusals::{Refusal, fill};
use sheet::check::SheetFault;
use sheet::limits::{ALL_STARTS, FEW_STARTS};
use writing::write_whole;

// What a list holds before it is filled.
const NO_FINDING: Finding = Finding {
    line: 0,
    fault: Fault::Missing,
};

// What is told of the findings of an accepted sheet into `out`, with a list that has room for one for each of its lines.
fn told<T, R, F: FnOnce(&Report<'_>, &mut [T]) -> R>(
    sheet: &Lexicon<'_>,
    found: &mut [Finding],
    out: &mut [T],
    tell: F,
) -> R
    requires room { length sheet.now.starts.now ≤ length found.old }
    requires callable { F.IsAlwaysCallable tell }
    ensures { Told sheet.now.bytes.now out.old out.new (λ p o n. F.post tell p o result n) }
{
    let n = find_in(sheet, found);
    let report = Report {
        sheet: sheet.bytes,
        findings: &found[..n],
    };
    tell(&report, out)
}

// The same, with a list of its own. One for the lines of any sheet is 26 KB to clear, which a sheet of few lines is spared.
fn told_in<T, R, F: FnOnce(&Report<'_>, &mut [T]) -> R>(
    sheet: &Lexicon<'_>,
    out: &mut [T],
    tell: F,
) -> R
    requires { F.IsAlwaysCallable tell }
    ensures { Told sheet.now.bytes.now out.old out.new (λ p o n. F.post tell p o result n) }
{
    if sheet.starts.len() <= FEW_STARTS {
        let mut few = [NO_FINDING; FEW_STARTS];
        return told(sheet, &mut few, out, tell);
    }
    let mut found = [NO_FINDING; ALL_STARTS];
    told(sheet, &mut found, out, tell)
}

// What is told of the findings of any sheet, into `out`, which a faulty sheet leaves as it was.
fn with_findings<T, R, F: FnOnce(&Report<'_>, &mut [T]) -> R>(
    sheet: &[u8],
    out: &mut [T],
    tell: F,
) -> Result<R, SheetFault>
    requires { F.IsAlwaysCallable tell }
    ensures { MatchResult result (λ r. Told sheet.now out.old out.new (λ p o n. F.post tell p o r n)) (λ fault. (sheet_check sheet.now ≡ Err fault) × (out.new ≡ out.old)) }
{
    with_lexicon_into(
        sheet,
        out,
        |lexicon, out|
            requires { F.IsAlwaysCallable tell }
            ensures { Told lexicon.now.bytes.now out.old out.new (λ p o n. F.post tell p o result n) }
        { told_in(lexicon, out, tell) },
    )
}

// Stores the codes of the findings at the front of a list, and gives how many they are; a list that is shorter is refused and left.
fn put_codes(report: &Report<'_>, out: &mut [u32]) -> Result<usize, Refusal>
    ensures { (result ≡ room_for (length (codes_of report.now.findings.now)) (length out.old)) × (out.new ≡ output_by result (codes_of report.now.findings.now) out.old) }
{
    fill(report.findings, out, |finding| finding.code())
}

// Stores the lines of the sheet whose reference does not hold at the front of `out`, in the sheet's order, one number each: what is wrong in
// the lowest byte (1 missing, 2 notverb, 3 unused), above it the line's first byte. A refused sheet (4 to 6) and too short a list (8)
// leave it as it was. As many places as the sheet has lines are always enough.
pub fn find_references(sheet: &[u8], out: &mut [u32]) -> Result<usize, Refusal>
    ensures { (result ≡ found_outcome sheet.now out.old) × (out.new ≡ found_left sheet.now out.old) }
{
    with_findings(sheet, out, |report, out| put_codes(report, out))?
}

// Writes the report of the sheet at the front of `out`: (check N) and a line for each of its lines whose reference does not hold. A
// refused sheet (4 to 6) and too short a buffer (8) leave it as it was. The sheet's length and 13 bytes are always enough.
pub fn write_references(sheet: &[u8], out: &mut [u8]) -> Result<usize, Refusal>
    ensures { (result ≡ report_outcome sheet.now out.old) × (out.new ≡ report_left sheet.now out.old) }
{
    with_findings(sheet, out, |report, out| write_whole(report, out))?
}
