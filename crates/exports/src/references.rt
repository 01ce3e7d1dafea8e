// What the lines of a sheet refer to.
ghost use Rattle.std.specs.Prelude.{◌≡◌};
ghost use Rattle.referred.specs.Answers.{report_outcome, report_left, found_outcome, found_left};
ghost use Rattle.exports.specs.Codes.{written_code};

use crate::written_code;
use referred::entry::{find_references, write_references};

// Writes the report of the sheet at the front of `out`, as the program `references` prints it, and gives the number of bytes. Where nothing
// is written, and `out` is as it was: the refusal, 4 to 6 or 8. The sheet's length and 13 bytes are always enough.
#[unsafe(no_mangle)]
pub extern "C" fn yunthirel_references(sheet: &[u8], out: &mut [u8]) -> u64
    ensures { (result ≡ written_code (report_outcome sheet.now out.old)) × (out.new ≡ report_left sheet.now out.old) }
{
    written_code(write_references(sheet, out))
}

// The lines of the sheet whose reference does not hold, in its order, one number each: what is wrong in the lowest byte (1 missing, 2
// notverb, 3 unused), above it the line's first byte; the answer's value is how many there are. Where nothing is written, and the list is as
// it was: the refusal, 4 to 6 or 8. As many numbers as the sheet has lines are always enough.
#[unsafe(no_mangle)]
pub extern "C" fn yunthirel_findings(sheet: &[u8], list: &mut [u32]) -> u64
    ensures { (result ≡ written_code (found_outcome sheet.now list.old)) × (list.new ≡ found_left sheet.now list.old) }
{
    written_code(find_references(sheet, list))
}
