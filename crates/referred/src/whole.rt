// What the program `references` prints: the report, or the line of the refusal.
ghost use Rattle.std.specs.Prelude.{◌≡◌};
ghost use Rattle.writing.specs.Placed.{Whole};
ghost use Rattle.referred.specs.Answers.{printed};

use crate::entry::write_references;
use writing::put_front;

// Writes it at the front of a buffer of 65,549 bytes, which is always long enough, and gives how long it is.
pub fn answer_of(sheet: &[u8], out: &mut [u8; 65549]) -> usize
    ensures { Whole (printed sheet.now) out.old out.new result }
{
    match write_references(sheet, out) {
        Ok(size) => size,
        Err(refusal) => put_front(&refusal, out),
    }
}
