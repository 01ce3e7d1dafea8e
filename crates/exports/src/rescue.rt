// The rescue of a torn sheet.
ghost use Rattle.std.specs.Prelude.{◌≡◌, length};
ghost use Rattle.rescued.specs.Answers.{rescued_of, kept_left, report_left};
ghost use Rattle.exports.specs.Rescue.{rescued_code, sizes_code, Sized, Fitting};

use crate::refusal_code;
use refusals::Refusal;
use rescued::entry::{Sizes, rescue_sheet};

// How many bytes were written into each buffer: 24 bits for the kept sheet, and above them those of the report.
fn sizes_code(sizes: Sizes) -> u64
    requires { Sized sizes }
    ensures { result ≡ sizes_code sizes }
{
    256 * (sizes.kept as u64 + 16777216 * (sizes.report as u64))
}

// What the rescue gave, as a number.
fn rescued_code(outcome: Result<Sizes, Refusal>) -> u64
    requires { Fitting outcome }
    ensures { result ≡ rescued_code outcome }
{
    match outcome {
        Ok(sizes) => sizes_code(sizes),
        Err(refusal) => refusal_code(refusal),
    }
}

// The lines of the sheet that are forms and stand above the last kept one at the front of `kept`, a line for each dropped stretch at the
// front of `report`; the answer's value is how many bytes were written into each: 24 bits for the first, the rest for the second. Where
// nothing is written, and both are as they were: the refusal, 4 or 8. As many bytes as the sheet has are always enough for the first, 19
// times as many for the second.
#[unsafe(no_mangle)]
pub extern "C" fn yunthirel_rescue(sheet: &[u8], kept: &mut [u8], report: &mut [u8]) -> u64
    ensures { (result ≡ rescued_code (rescued_of sheet.now (length kept.old) (length report.old)))
        × (kept.new ≡ kept_left (rescued_of sheet.now (length kept.old) (length report.old)) sheet.now kept.old)
        × (report.new ≡ report_left (rescued_of sheet.now (length kept.old) (length report.old)) sheet.now report.old) }
{
    rescued_code(rescue_sheet(sheet, kept, report))
}
