// The text of a list of readings, written into a lent buffer.
#![tactic(auto)]

ghost use Rattle.std.specs.Prelude.{◌≡◌, ◌≤◌, length};
ghost use Rattle.text.specs.Word.{word_limit};
ghost use Rattle.writing.specs.Placed.{Answer};
ghost use Rattle.listing.specs.Texts.{listing_text, listing_room};

use ranking::Listing;
use refusals::Refusal;
use rows::put_listing;

mod each;
pub mod entry;
mod rows;
pub mod surface;
pub mod whole;

// Writes the text of a list of readings of the word at the front of `out`. Too short a buffer is left as it was.
pub fn write_listing(word: &[u8], list: &Listing, out: &mut [u8]) -> Result<usize, Refusal>
    ensures { Answer (listing_text word.now list.now.items) out.old out.new result × (length word.now ≤ word_limit → length (listing_text word.now list.now.items) ≤ listing_room) }
{
    let rows = list.as_slice();
    let size = put_listing(word, rows, &mut []);
    if out.len() < size {
        return Err(Refusal::OutputTooShort);
    }
    put_listing(word, rows, out);
    Ok(size)
}
