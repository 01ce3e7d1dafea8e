// The word put back together from a reading of it, for printers: the forms of its prefixes, the root, and its suffixes, a shared letter
// written once.
ghost use Rattle.std.specs.Prelude.{◌≡◌};
ghost use Rattle.paths.specs.Recomposed.{in_row, prefix_forms, suffix_texts, written_of, surface_text};
ghost use Rattle.writing.specs.Placed.{Answer};
ghost use Rattle.writing.specs.Writers.{with_text};

use crate::each::put_each;
use ranking::{Reading, Segment, root_of};
use refusals::Refusal;
use strips::suffix::first_char_len;
use tables::{affix, prefix_form};
use writing::{Printed, Writer, write_whole};

// What of a suffix's text is written: all of it, or what follows its first character where that is shared. Nothing for a row that the
// table does not have.
fn written_of(s: Segment) -> &'static [u8]
    ensures { result.now ≡ written_of s }
{
    let text = affix(usize::from(s.label));
    if !s.shared {
        return text;
    }
    &text[first_char_len(text)..]
}

// Puts the forms of a reading's prefixes, outermost first, as they stand on the page.
fn put_forms(w: &mut Writer, row: Reading)
    ensures { w.new ≡ with_text w.old (in_row (prefix_forms row)) }
{
    put_each(
        w,
        row.prefix_rows(),
        |w, k| w.put(prefix_form(usize::from(k))),
    );
}

// Puts what is written of a reading's suffixes, nearest the stem first.
fn put_suffixes(w: &mut Writer, row: Reading)
    ensures { w.new ≡ with_text w.old (in_row (suffix_texts row)) }
{
    put_each(w, row.suffixes(), |w, s| w.put(written_of(s)));
}

// A reading of a word, of which the word is put together.
#[derive(Drop)]
struct Surface<'w> {
    word: &'w [u8],
    row: Reading,
}

// The forms of its prefixes, its root, and what is written of its suffixes.
impl Printed for Surface<'_> {
    ghost text = { λ s. surface_text s.word.now s.row };

    #[tactic(auto, using(std::proofs::lemmas::Grind::common_steps), unfolding(paths::specs::Recomposed::surface_text))]
    fn put(&self, w: &mut Writer) {
        put_forms(w, self.row);
        w.put(root_of(self.word, self.row));
        put_suffixes(w, self.row);
    }
}

// Writes the word back from a reading of it at the front of `out`: for every listed reading of the word, the word itself. Any other
// reading gives what its own rows and marks make, with the part of the word that its places name, and nothing for rows that no table has.
// Too short a buffer is left as it was.
pub fn write_surface(word: &[u8], reading: Reading, out: &mut [u8]) -> Result<usize, Refusal>
    ensures { Answer (surface_text word.now reading) out.old out.new result }
{
    write_whole(&Surface { word, row: reading }, out)
}
