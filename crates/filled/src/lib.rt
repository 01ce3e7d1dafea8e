// The entries that fill a lent slice: the rows of a list, copied; the elements past them are left.
#![tactic(auto)]

ghost use Rattle.std.specs.Prelude.{◌≡◌, length};
ghost use Rattle.filled.specs.Filled.{filled_of, output_of};

use analysis::entry::analyze_affixes;
use ranking::Classified;
use refusals::{Refusal, fill};

pub mod candidates;

// The readings of the word, written to the front of the slice in rank order; the elements past them are left, and all of them where
// anything is refused.
pub fn fill_readings(word: &[u8], sheet: &[u8], out: &mut [Classified]) -> Result<usize, Refusal>
    ensures { (result ≡ filled_of word.now sheet.now (length out.old))
        × (out.new ≡ output_of word.now sheet.now out.old) }
{
    let list = analyze_affixes(word, sheet).list?;
    fill(list.as_slice(), out, |row| row)
}
