// The readings of a word as text, and the program's answer to its input.
ghost use Rattle.std.specs.Prelude.{◌≡◌, ◌+◌, ◌≤◌, length, drop};
ghost use Rattle.runs.specs.Bytes.{index_of};
ghost use Rattle.writing.specs.Placed.{Answer};
ghost use Rattle.listing.specs.Texts.{listing_room};
ghost use Rattle.listing.specs.Printed.{outcome_of, left_of, readings_text, printed};

use crate::write_listing;
use analysis::entry::analyze_affixes;
use refusals::Refusal;
use sheet::limits::SHEET_BYTES;
use writing::write_refused;

// Writes the list of the word's readings at the front of `out`. A refused word or sheet, too many readings and too short a buffer
// leave it as it was. 37,386 bytes are always enough.
pub fn write_readings(word: &[u8], sheet: &[u8], out: &mut [u8]) -> Result<usize, Refusal>
    ensures { (result ≡ outcome_of word.now sheet.now out.old) × (out.new ≡ left_of word.now sheet.now out.old) × (length (readings_text word.now sheet.now) ≤ listing_room) }
{
    let list = analyze_affixes(word, sheet).list?;
    write_listing(word, &list, out)
}

// Writes what is printed for a word and a sheet: the list, or the line of the refusal. Too short a buffer is left as it was.
pub fn print_readings(word: &[u8], sheet: &[u8], out: &mut [u8]) -> Result<usize, Refusal>
    ensures { Answer (readings_text word.now sheet.now) out.old out.new result × (length (readings_text word.now sheet.now) ≤ listing_room) }
{
    let answer = analyze_affixes(word, sheet).list;
    match answer {
        Err(refusal) => write_refused(refusal, out),
        Ok(list) => write_listing(word, &list, out),
    }
}

// What stands after the byte `end`.
fn after<'i>(input: &'i [u8], end: usize) -> &'i [u8]
    requires { end ≤ length input.now }
    ensures { result.now ≡ drop (end + 1) input.now }
{
    &input[(end + 1).min(input.len())..]
}

// Writes what the program prints for its input: the word up to the first 0A, then the sheet.
pub fn print_answer(input: &[u8], out: &mut [u8]) -> Result<usize, Refusal>
    ensures { Answer (printed input.now) out.old out.new result × (length (printed input.now) ≤ listing_room) }
{
    if SHEET_BYTES < input.len() {
        return write_refused(Refusal::SheetTooLong, out);
    }
    let end = runs::find(input, 0, input.len(), b'\n');
    print_readings(&input[..end], after(input, end), out)
}
