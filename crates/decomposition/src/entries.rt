// The entry of decompose, which takes any word and any sheet.
ghost use Rattle.std.specs.Prelude.{◌≡◌};
ghost use Rattle.decomposition.specs.Answers.{morpheme_answer};

use crate::{Morpheme, decompose_word};
use lookup::lexicon::Lexicon;
use lookup::lines::with_lexicon;
use refusals::Refusal;
use text::word::check_word;

// The decomposition of the word by an accepted sheet, or why the word is refused.
pub fn decompose_in(word: &[u8], sheet: &Lexicon<'_>) -> Result<Morpheme, Refusal>
    ensures { result ≡ morpheme_answer word.now sheet.now.bytes.now }
{
    check_word(word)?;
    Ok(decompose_word(word, sheet))
}

// The decomposition of the word, or why word or sheet is refused.
pub fn decompose(word: &[u8], sheet: &[u8]) -> Result<Morpheme, Refusal>
    ensures { result ≡ morpheme_answer word.now sheet.now }
{
    check_word(word)?;
    Ok(with_lexicon(sheet, |lexicon| decompose_word(word, lexicon))?)
}
