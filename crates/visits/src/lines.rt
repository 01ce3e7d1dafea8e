// The lines of words, stretch by stretch: an unfinished word is kept from one stretch to the next, and of it no more than shows that it is
// too long.
ghost use Rattle.std.specs.Prelude.{◌≡◌, ◌≤◌, length, take};
ghost use Rattle.writing.specs.Writers.{with_text};
ghost use Rattle.visits.specs.Printed.{word_line, lines_of, unended, last_line};

use analysis::entry::analyze_affixes_in;
use arrayvec::ArrayVec;
use lookup::lexicon::Lexicon;
use refusals::Refusal;
use text::word::check_word;
use writing::{Printed, Writer};

// The most bytes that are kept of a word that is not ended: one more than any word has.
pub(crate) const KEPT: usize = 193;

// Puts the line of a word: its number, or its refusal.
fn put_word(w: &mut Writer, word: &[u8], sheet: &Lexicon<'_>)
    ensures { w.new ≡ with_text w.old (word_line sheet.now.bytes.now word.now) }
{
    match check_word(word) {
        Err(fault) => Refusal::from(fault).put(w),
        Ok(()) => {
            let analysis = analyze_affixes_in(word, sheet);
            w.put(b"(v ");
            w.put_decimal(analysis.visits);
            w.put(b" ");
            w.put(word);
            w.put(b")\n");
        }
    }
}

// Puts the lines of the words that end in the stretch, of which the first begins with what `word` holds. Of what no 0A ends, `word` keeps
// no more than 193 bytes.
pub(crate) fn put_lines(
    w: &mut Writer,
    word: &mut ArrayVec<u8, KEPT>,
    text: &[u8],
    sheet: &Lexicon<'_>,
)
    requires { length word.old.items ≤ 193 }
    ensures { (w.new ≡ with_text w.old (lines_of sheet.now.bytes.now word.old.items text.now)) × (word.new.items ≡ take 193 (unended word.old.items text.now)) }
{
    for &b in text {
        if b == b'\n' {
            put_word(w, word.as_slice(), sheet);
            word.clear();
        } else if !word.is_full() {
            word.push(b);
        }
    }
}

// Puts the line of the last word, which no 0A ends; nothing for an empty one.
#[tactic(auto, using(std::proofs::lemmas::Grind::common_steps, crate::proofs::Stretches::last_none, crate::proofs::Stretches::last_some))]
pub(crate) fn put_last(w: &mut Writer, word: &[u8], sheet: &Lexicon<'_>)
    ensures { w.new ≡ with_text w.old (last_line sheet.now.bytes.now word.now) }
{
    if !word.is_empty() {
        put_word(w, word, sheet);
    }
}
