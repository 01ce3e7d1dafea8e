// The entry that fills a lent slice of root candidates: the list of `lookup_root_candidates`, copied; the elements past it are left.
ghost use Rattle.std.specs.Prelude.{◌≡◌, length};
ghost use Rattle.filled.specs.FilledRoots.{roots_filled, roots_output};

use refusals::{Refusal, fill};
use roots::RootCandidate;
use roots::entries::lookup_root_candidates;

// The root candidates of the word, written to the front of the slice in rank order; the elements past them are left, and all of them
// where anything is refused. 16 elements are always enough.
pub fn fill_candidates(
    word: &[u8],
    sheet: &[u8],
    out: &mut [RootCandidate],
) -> Result<usize, Refusal>
    ensures { (result ≡ roots_filled word.now sheet.now (length out.old))
        × (out.new ≡ roots_output word.now sheet.now out.old) }
{
    let list = lookup_root_candidates(word, sheet)?;
    fill(list.as_slice(), out, |row| row)
}
