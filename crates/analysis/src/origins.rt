// What the walk has kept, handed out: each reading with its root's origin, how that is known, and how surely. Rank does not look at it,
// so it is decided once the rows are in their order.
ghost use Rattle.std.specs.Prelude.{◌≡◌, map};
ghost use Rattle.lookup.specs.Lexicons.{replies};
ghost use Rattle.paths.specs.Readings.{classified};

use lookup::lexicon::Lexicon;
use origin::decide_origin;
use ranking::list::ArrayList;
use ranking::{Classified, Listing, Reading, Readings, root_of, with_origin};

// A reading of the word with what the sheet and the root alone decide of the root.
pub fn classify_root(word: &[u8], sheet: &Lexicon<'_>, reading: Reading) -> Classified
    ensures { result ≡ classified (replies sheet.now) word.now reading }
{
    with_origin(reading, decide_origin(root_of(word, reading), sheet))
}

// The readings of the word in the same order, each with its root's origin.
pub fn classify_rows(word: &[u8], sheet: &Lexicon<'_>, rows: &Readings) -> Listing
    ensures { result.items ≡ map (classified (replies sheet.now) word.now) rows.now.items }
{
    let mut list = ArrayList::new();
    for &reading in rows.as_slice() {
        list.push(classify_root(word, sheet, reading));
    }
    list
}
