// The check of a sheet for all that is asked of it: the sheet is read once, and the first byte of each line is stored on the way.
ghost use Rattle.std.specs.Prelude.{◌≡◌, Err, MatchResult};
ghost use Rattle.sheet.specs.Lines.{sheet_check};
ghost use Rattle.lookup.specs.Starts.{Room};
ghost use Rattle.lookup.specs.Stored.{Stored};
ghost use Rattle.lookup.specs.Lexicons.{Asked, AskedInto};

use crate::lexicon::Lexicon;
use crate::starts::Start;
use sheet::check::SheetFault;
use sheet::limits::{ALL_STARTS, FEW_STARTS, SHEET_BYTES, SMALL_BYTES};
use sheet::walk::Walk;

// Why a sheet is not accepted, and of how many lines before the faulty one the first byte is stored.
#[derive(Clone, Copy)]
pub struct Faulty {
    pub fault: SheetFault,
    pub lines: usize,
}

impl From<Faulty> for SheetFault {
    ghost from_gives = { λ faulty fault. fault ≡ faulty.fault };

    fn from(faulty: Faulty) -> SheetFault {
        faulty.fault
    }
}

// The check of a sheet, as `sheet::check::check_sheet` makes it, which gives how many lines there are. Their first bytes are stored at the
// front of `out`, which has room for a line of every 10 bytes: of all lines, or of those before the faulty one, whose number comes with
// the fault.
pub fn check_lines(s: &[u8], out: &mut [Start]) -> Result<usize, Faulty>
    requires { Room s.now out.old }
    ensures { Stored s.now out.old out.new result }
{
    if SHEET_BYTES < s.len() {
        return Err(Faulty {
            fault: SheetFault::TooLong,
            lines: 0,
        });
    }
    let mut n: usize = 0;
    let mut walk = Walk { at: 0, last: None };
    while let Some(form) = walk.step(s).map_err(|fault| Faulty {
        fault: fault.at(walk.at),
        lines: n,
    })? {
        out[n] = walk.at as Start;
        n += 1;
        walk = form.next;
    }
    Ok(n)
}

// The lexicon of a sheet, with a list that has room for the starts of its lines; or the fault of a sheet that is not accepted.
pub fn lexicon_of<'s>(sheet: &'s [u8], starts: &'s mut [Start]) -> Result<Lexicon<'s>, SheetFault>
    requires { Room sheet.now starts.old }
    ensures { MatchResult result (λ l. l.bytes.now ≡ sheet.now) (λ fault. sheet_check sheet.now ≡ Err fault) }
{
    let lines = check_lines(sheet, starts)?;
    Ok(Lexicon {
        bytes: sheet,
        starts: &starts[..lines],
    })
}

// What is asked of a sheet into a lent output: the answer where the sheet is accepted, else its fault, and then `out` is as it was. The
// sheet is checked once, before it is asked. A list for the lines of any sheet is 13 KB to clear, which a small sheet is spared.
pub fn with_lexicon_into<T, R, F: FnOnce(&Lexicon<'_>, &mut [T]) -> R>(
    sheet: &[u8],
    out: &mut [T],
    ask: F,
) -> Result<R, SheetFault>
    requires { F.IsAlwaysCallable ask }
    ensures { MatchResult result (λ r. AskedInto sheet.now out.old out.new (λ l o n. F.post ask l o r n)) (λ fault. (sheet_check sheet.now ≡ Err fault) × (out.new ≡ out.old)) }
{
    if sheet.len() <= SMALL_BYTES {
        let mut few: [Start; FEW_STARTS] = [0; FEW_STARTS];
        let lexicon = lexicon_of(sheet, &mut few)?;
        return Ok(ask(&lexicon, out));
    }
    let mut starts: [Start; ALL_STARTS] = [0; ALL_STARTS];
    let lexicon = lexicon_of(sheet, &mut starts)?;
    Ok(ask(&lexicon, out))
}

// What is asked of a sheet: the answer where it is accepted, else its fault.
pub fn with_lexicon<R, F: FnOnce(&Lexicon<'_>) -> R>(sheet: &[u8], ask: F) -> Result<R, SheetFault>
    requires { F.IsAlwaysCallable ask }
    ensures { MatchResult result (λ r. Asked sheet.now (λ l. F.post ask l r)) (λ fault. sheet_check sheet.now ≡ Err fault) }
{
    let nothing: &mut [u8] = &mut [];
    with_lexicon_into(
        sheet,
        nothing,
        |lexicon, _|
            requires { F.IsAlwaysCallable ask }
        { ask(lexicon) },
    )
}
