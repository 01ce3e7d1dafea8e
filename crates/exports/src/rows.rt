// The list of readings as rows of bytes, stored in a lent buffer one after the other. How a reading lies is said in `ranking::rows`;
// behind it stand the numbers of its root's origin and of the source, and the bits of the confidence, the low byte first, so that a row
// lies as a struct of C does.
ghost use Rattle.std.specs.Prelude.{◌≡◌, refl, Ok};
ghost use Rattle.std.specs.Float.{binary32};
ghost use Rattle.std.specs.Float.Ieee.{to_bits};
ghost use Rattle.text.specs.Word.{word_check};
ghost use Rattle.exports.specs.Rows.{row_bytes, row_width, readings_filled};

use crate::stored::{Row, put_rows};
use crate::{origin_number, refusal_code, source_number};
use analysis::entry::keep_readings;
use analysis::origins::classify_rows;
use lookup::lexicon::Lexicon;
use lookup::lines::with_lexicon_into;
use ranking::Classified;
use ranking::kept::Kept;
use ranking::rows::{WIDTH, put_reading};
use refusals::Refusal;
use text::word::check_word;

// The bytes of a row.
pub const ROW: usize = 28;

// The bits of a number; 7FC00000 (hexadecimal) for what is none, which no confidence is.
fn bits_of(x: f32) -> u32
    ensures { result ≡ to_bits binary32 x }
{
    if x.is_nan() {
        return 0x7FC0_0000;
    }
    f32::to_bits(x)
}

// A reading with its root's origin.
impl Row for Classified {
    const WIDTH: usize = ROW;

    ghost WIDTH = { row_width };

    ghost bytes = { row_bytes };

    ghost wide = { λ _. refl };

    fn put(self, out: &mut [u8]) {
        let bits = bits_of(self.confidence).to_le_bytes();
        let rest = [
            origin_number(self.origin),
            source_number(self.source),
            bits[0],
            bits[1],
            bits[2],
            bits[3],
        ];
        put_reading(self.reading, out);
        out[WIDTH..ROW].copy_from_slice(&rest);
    }
}

// The readings of an accepted word by an accepted sheet.
fn rows_in(word: &[u8], sheet: &Lexicon<'_>, out: &mut [u8]) -> u64
    requires { word_check word.now ≡ Ok tt }
    ensures { (result ≡ (readings_filled word.now sheet.now.bytes.now out.old).code)
        × (out.new ≡ (readings_filled word.now sheet.now.bytes.now out.old).buffer) }
{
    let mut kept = Kept::new();
    keep_readings(word, sheet, &mut kept);
    match kept.rows() {
        None => refusal_code(Refusal::TooManyReadings),
        Some(rows) => put_rows(classify_rows(word, sheet, rows).as_slice(), out),
    }
}

// The word's readings in rank order, 28 bytes each, at the front of the buffer, and their number. Where nothing is stored, and `out` is
// as it was: the refusal, 8 for a buffer with less than 28 bytes for each. 1,792 bytes are always enough.
//
// The list is made behind the check of the sheet and stored at once: to hand it out through every call costs a short word a tenth more.
#[unsafe(no_mangle)]
pub extern "C" fn yunthirel_readings(word: &[u8], sheet: &[u8], out: &mut [u8]) -> u64
    ensures { (result ≡ (readings_filled word.now sheet.now out.old).code)
        × (out.new ≡ (readings_filled word.now sheet.now out.old).buffer) }
{
    if let Err(fault) = check_word(word) {
        return refusal_code(Refusal::from(fault));
    }
    match with_lexicon_into(sheet, out, |lexicon, out| rows_in(word, lexicon, out)) {
        Err(fault) => refusal_code(Refusal::from(fault)),
        Ok(code) => code,
    }
}
