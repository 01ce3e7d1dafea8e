// The report as text.
ghost use Rattle.std.specs.Prelude.{ℕ, List, ◌≡◌, true, drop, Ok};
ghost use Rattle.sheet.specs.Forms.{is_form};
ghost use Rattle.writing.specs.Writers.{with_text};
ghost use Rattle.sheet.specs.Lines.{sheet_check};
ghost use Rattle.referred.specs.Report.{before, behind, findings_of, finding_line, report_text};

use crate::{Fault, Finding};
use sheet::form::FormAt;
use writing::{Printed, Writer};

// What stands in a report's line before the name.
fn before(fault: Fault) -> &'static [u8]
    ensures { result.now ≡ before fault }
{
    match fault {
        Fault::Missing | Fault::NotVerb => b"(l ",
        Fault::Unused => b"(k ",
    }
}

// What stands behind it.
fn behind(fault: Fault) -> &'static [u8]
    ensures { result.now ≡ behind fault }
{
    match fault {
        Fault::Missing => b" missing)\n",
        Fault::NotVerb => b" notverb)\n",
        Fault::Unused => b" unused)\n",
    }
}

// Puts the line of a finding: what is wrong with the line that begins at its place. A form stands there.
fn put_line(w: &mut Writer, sheet: &[u8], finding: Finding)
    requires { is_form (drop finding.line sheet.now) ≡ true }
    ensures { w.new ≡ with_text w.old (finding_line sheet.now finding) }
{
    let line = FormAt {
        sheet,
        at: usize::from(finding.line),
    };
    w.put(before(finding.fault));
    w.put(line.name());
    w.put(behind(finding.fault));
}

// The report of an accepted sheet: its findings.
#[derive(Drop)]
pub(crate) struct Report<'s> {
    pub sheet: &'s [u8],
    pub findings: &'s [Finding],
    ghost accepted: { sheet_check sheet.now ≡ Ok tt },
    ghost found: { findings.now ≡ findings_of sheet.now },
}

// How many there are, and a line for each.
impl Printed for Report<'_> {
    ghost text = { λ r. report_text r.sheet.now };

    #[tactic(auto, using(std::proofs::lemmas::Grind::common_steps, crate::proofs::Found::lines_turn, crate::proofs::Found::lines_end))]
    fn put(&self, w: &mut Writer) {
        w.put(b"(check ");
        w.put_decimal(self.findings.len());
        w.put(b")\n");
        for &finding in self.findings {
            put_line(w, self.sheet, finding);
        }
    }
}
