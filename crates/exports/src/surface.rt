// The word put back together from a row of `yunthirel_readings`, for printers.
ghost use Rattle.std.specs.Prelude.{◌≡◌};
ghost use Rattle.exports.specs.Surface.{reading_in, surface_filled};

use crate::{refusal_code, written_code};
use listing::surface::write_surface;
use ranking::Reading;
use ranking::rows::{WIDTH, get_reading};
use refusals::Refusal;
use text::word::check_word;

// The reading that a row says, by its first 22 bytes; of a row with fewer, the one without stem and affixes.
fn row_reading(row: &[u8]) -> Reading
    ensures { result ≡ reading_in row.now }
{
    if row.len() < WIDTH {
        let none = [0u8; WIDTH];
        return get_reading(&none);
    }
    get_reading(row)
}

// Writes the word back from one of its rows at the front of `out`, and gives the number of bytes: for every row that
// `yunthirel_readings` stores for the word, the word itself. Any other row gives what it makes, with the part of the word that its places
// name. Where nothing is written, and `out` is as it was: the refusal of the word, 1 to 3, or 8 for too short a buffer.
#[unsafe(no_mangle)]
pub extern "C" fn yunthirel_surface(word: &[u8], row: &[u8], out: &mut [u8]) -> u64
    ensures { (result ≡ (surface_filled word.now row.now out.old).code)
        × (out.new ≡ (surface_filled word.now row.now out.old).buffer) }
{
    match check_word(word) {
        Err(fault) => refusal_code(Refusal::from(fault)),
        Ok(()) => written_code(write_surface(word, row_reading(row), out)),
    }
}
