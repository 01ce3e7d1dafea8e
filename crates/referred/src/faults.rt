// The lines whose reference does not hold, found in one pass with one question for each link.
ghost use Rattle.std.specs.Prelude.{◌≡◌, ◌++◌, ◌≤◌, ◌<◌, length, drop};
ghost use Rattle.sheet.specs.Forms.{key};
ghost use Rattle.sheet.specs.Lines.{line_at};
ghost use Rattle.sheet.specs.Replies.{reply};
ghost use Rattle.tables.specs.Tables.{affixes};
ghost use Rattle.referred.specs.Report.{is_text, verb_fault, fault_at, findings_of};

use crate::{Fault, Finding};
use lookup::lexicon::Lexicon;
use sheet::form::FormAt;
use sheet::letters::read_letters;

// Whether a kind line names one of the 25 texts.
fn names_any(line: &FormAt<'_>) -> bool
    ensures { result ≡ is_text (key (line_at line.now.sheet.now line.now.at)) affixes }
{
    tables::affix_rows()
        .iter()
        .any(|text| line.order(b'k', text.as_bytes(), b"").is_eq())
}

// What is wrong with the verb that a link names, if anything is.
fn verb_fault(sheet: &Lexicon<'_>, infinitive: &[u8]) -> Option<Fault>
    ensures { result ≡ verb_fault (reply sheet.now.bytes.now 0x77 infinitive.now) }
{
    let Some(v) = sheet.value_of(b'w', infinitive, b"") else {
        return Some(Fault::Missing);
    };
    let at = v.at;
    let end = at + v.len;
    let letters = read_letters(&sheet.bytes[at..end]);
    if letters.verb {
        return None;
    }
    Some(Fault::NotVerb)
}

// What is wrong with what a line of the sheet refers to, if anything is.
fn line_fault(sheet: &Lexicon<'_>, line: &FormAt<'_>) -> Option<Fault>
    requires { line.now.sheet.now ≡ sheet.now.bytes.now }
    ensures { result ≡ fault_at sheet.now.bytes.now line.now.at }
{
    match line.letter() {
        b'l' => verb_fault(sheet, line.value()),
        b'k' => {
            if names_any(line) {
                None
            } else {
                Some(Fault::Unused)
            }
        }
        _ => None,
    }
}

// Stores the lines whose reference does not hold at the front of `out`, in the sheet's order, and gives how many there are.
pub(crate) fn find_in(sheet: &Lexicon<'_>, out: &mut [Finding]) -> usize
    requires { length sheet.now.starts.now ≤ length out.old }
    ensures { (result ≡ length (findings_of sheet.now.bytes.now)) × (out.new ≡ findings_of sheet.now.bytes.now ++ drop result out.old) }
{
    let mut n: usize = 0;
    for &start in sheet.starts {
        let at = usize::from(start);
        let line = FormAt {
            sheet: sheet.bytes,
            at,
        };
        let Some(fault) = line_fault(sheet, &line) else {
            continue;
        };
        out[n] = Finding { line: start, fault };
        n += 1;
    }
    n
}
