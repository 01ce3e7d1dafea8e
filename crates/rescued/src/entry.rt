// The rescue of a torn sheet into two lent buffers.
ghost use Rattle.std.specs.Prelude.{◌≡◌, length};
ghost use Rattle.writing.specs.Placed.{Wrote};
ghost use Rattle.rescued.specs.Stretches.{kept_of, report_of};
ghost use Rattle.rescued.specs.Answers.{rescued_of, kept_left, report_left};

use crate::walk::{next_stretch, put_cut};
use refusals::Refusal;
use sheet::limits::SHEET_BYTES;
use sheet::walk::Walk;
use writing::Writer;

// How many bytes the kept sheet and the report have.
#[derive(Clone, Copy)]
pub struct Sizes {
    pub kept: usize,
    pub report: usize,
}

// Puts the kept sheet and the report, each at the front of its buffer.
pub(crate) fn put_both(sheet: &[u8], kept: &mut [u8], report: &mut [u8]) -> Sizes
    ensures { Wrote kept.old kept.new 0 result.kept (kept_of sheet.now) × Wrote report.old report.new 0 result.report (report_of sheet.now) }
{
    let mut kept = Writer::new(kept);
    let mut report = Writer::new(report);
    let mut walk = Walk { at: 0, last: None };
    while walk.at < sheet.len() {
        let at = walk.at;
        let reached = next_stretch(sheet, walk);
        walk = reached.next;
        let end = walk.at;
        match reached.fault {
            None => kept.put(&sheet[at..end]),
            Some(fault) => put_cut(&mut report, at, end - at, fault),
        }
    }
    Sizes {
        kept: kept.at(),
        report: report.at(),
    }
}

// Writes the kept sheet at the front of `kept` and the report at the front of `report`. A sheet over its limit (4) and a buffer that is too
// short (8) leave both as they were. As many bytes as the sheet has are always enough for the kept one, 19 times as many for the report.
#[tactic(auto, using(std::proofs::lemmas::Bool::Decides::nat_tests), unfolding(crate::specs::Answers::rescued_of, crate::specs::Answers::kept_left, crate::specs::Answers::report_left))]
pub fn rescue_sheet(sheet: &[u8], kept: &mut [u8], report: &mut [u8]) -> Result<Sizes, Refusal>
    ensures { (result ≡ rescued_of sheet.now (length kept.old) (length report.old)) × (kept.new ≡ kept_left result sheet.now kept.old) × (report.new ≡ report_left result sheet.now report.old) }
{
    if SHEET_BYTES < sheet.len() {
        return Err(Refusal::SheetTooLong);
    }
    let sizes = put_both(sheet, &mut [], &mut []);
    if kept.len() < sizes.kept || report.len() < sizes.report {
        return Err(Refusal::OutputTooShort);
    }
    put_both(sheet, kept, report);
    Ok(sizes)
}
