// Which sheets are accepted.
ghost use Rattle.std.specs.Prelude.{◌≡◌};
ghost use Rattle.sheet.specs.Lines.{refusal_of, fault_at, sheet_check};

use crate::limits::SHEET_BYTES;
use crate::line::LineFault;
use crate::walk::Walk;
use refusals::Refusal;

// Why a sheet is refused: over 65,536 bytes (4), or by its first faulty line, with that line's first byte: no form (5), or a form not above
// the one before (6).
#[derive(Clone, Copy, Debug, PartialEq, Eq)]
pub enum SheetFault {
    TooLong,
    NoForm(usize),
    NotAbove(usize),
}

impl LineFault {
    // The sheet's fault where the line that begins at `at` is refused.
    pub fn at(self, at: usize) -> SheetFault
        ensures { result ≡ fault_at self at }
    {
        match self {
            LineFault::NoForm => SheetFault::NoForm(at),
            LineFault::NotAbove => SheetFault::NotAbove(at),
        }
    }
}

impl From<SheetFault> for Refusal {
    ghost from_gives = { λ fault r. r ≡ refusal_of fault };

    fn from(fault: SheetFault) -> Refusal {
        match fault {
            SheetFault::TooLong => Refusal::SheetTooLong,
            SheetFault::NoForm(at) => Refusal::SheetNoForm(at),
            SheetFault::NotAbove(at) => Refusal::SheetNotAbove(at),
        }
    }
}

// Whether the sheet is accepted, or what is wrong with its first faulty line.
pub fn check_sheet(s: &[u8]) -> Result<(), SheetFault>
    ensures { result ≡ sheet_check s.now }
{
    if SHEET_BYTES < s.len() {
        return Err(SheetFault::TooLong);
    }
    let mut walk = Walk { at: 0, last: None };
    while let Some(form) = walk.step(s).map_err(|fault| fault.at(walk.at))? {
        walk = form.next;
    }
    Ok(())
}
