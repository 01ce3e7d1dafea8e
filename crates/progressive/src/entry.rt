// The entries: a word and a sheet lent together, each tested before anything is asked.
ghost use Rattle.std.specs.Prelude.{◌≡◌};
ghost use Rattle.progressive.specs.Answers.{Analyzed, answer_of, lemma_part, lemma_text, supported_of};

use crate::find::{Progressive, find_progressive};
use lookup::lexicon::Lexicon;
use lookup::lines::with_lexicon;
use refusals::Refusal;
use text::word::check_word;

// The progressive form of the word by an accepted sheet, if it is one, or why the word is refused.
pub fn analyze_progressive_in(
    word: &[u8],
    sheet: &Lexicon<'_>,
) -> Result<Option<Progressive>, Refusal>
    ensures { Analyzed word.now sheet.now.bytes.now result }
{
    check_word(word)?;
    Ok(find_progressive(word, sheet))
}

// The progressive form of the word, if it is one, or why word or sheet is refused: the lowest number that applies.
pub fn analyze_progressive(word: &[u8], sheet: &[u8]) -> Result<Option<Progressive>, Refusal>
    ensures { Analyzed word.now sheet.now result }
{
    check_word(word)?;
    Ok(with_lexicon(sheet, |lexicon| find_progressive(word, lexicon))?)
}

// Whether the word is a supported progressive form, one in which a lemma is found; or why word or sheet is refused.
pub fn has_supported_progressive_form(word: &[u8], sheet: &[u8]) -> Result<bool, Refusal>
    ensures { result ≡ supported_of word.now sheet.now }
{
    let form = analyze_progressive(word, sheet)?;
    Ok(form.is_some())
}

// The found lemma, as the part of the sheet that holds its name; an empty part for none, and for a refused word or sheet. The
// statement tells the part's bytes; the place at which it is cut is `lemma_at` of `analyze_progressive`'s answer, in its `w` line.
pub fn lemma<'w, 's>(word: &'w [u8], sheet: &'s [u8]) -> &'s [u8]
    ensures { (result.now ≡ lemma_part sheet.now (answer_of word.now sheet.now)) × (result.now ≡ lemma_text word.now sheet.now) }
{
    match analyze_progressive(word, sheet) {
        Ok(Some(form)) => {
            let at = form.lemma_at;
            let end = at + form.lemma_len;
            &sheet[at..end]
        }
        _ => b"",
    }
}
