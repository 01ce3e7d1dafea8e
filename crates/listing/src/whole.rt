// The same texts in a buffer of 65,536 bytes, which is always long enough: the length alone is given.
ghost use Rattle.std.specs.Prelude.{◌≡◌};
ghost use Rattle.writing.specs.Placed.{Whole};
ghost use Rattle.listing.specs.Printed.{readings_text, printed};

use crate::entry::{print_answer, print_readings};

// Writes the readings of the word at the front of `out`, or the line of the refusal, and gives how long that is.
pub fn readings_of(word: &[u8], sheet: &[u8], out: &mut [u8; 65536]) -> usize
    ensures { Whole (readings_text word.now sheet.now) out.old out.new result }
{
    print_readings(word, sheet, out).unwrap_or(0)
}

// Writes what the program prints for its input at the front of `out`, and gives how long that is.
pub fn answer_of(input: &[u8], out: &mut [u8; 65536]) -> usize
    ensures { Whole (printed input.now) out.old out.new result }
{
    print_answer(input, out).unwrap_or(0)
}
