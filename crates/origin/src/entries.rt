// The entries of origin, which take any word and any sheet.
ghost use Rattle.std.specs.Prelude.{◌≡◌};
ghost use Rattle.origin.specs.Answers.{decision_answer, origin_only};

use crate::{OriginDecision, decide_origin};
use lookup::lexicon::Lexicon;
use lookup::lines::with_lexicon;
use refusals::Refusal;
use tables::origins::Origin;
use text::word::check_word;

// Where the word comes from by an accepted sheet, how it is known and how surely; or why the word is refused.
pub fn classify_with_provenance_in(
    word: &[u8],
    sheet: &Lexicon<'_>,
) -> Result<OriginDecision, Refusal>
    ensures { result ≡ decision_answer word.now sheet.now.bytes.now }
{
    check_word(word)?;
    Ok(decide_origin(word, sheet))
}

// Where the word comes from, how it is known and how surely; or why word or sheet is refused.
pub fn classify_with_provenance(word: &[u8], sheet: &[u8]) -> Result<OriginDecision, Refusal>
    ensures { result ≡ decision_answer word.now sheet.now }
{
    check_word(word)?;
    Ok(with_lexicon(sheet, |lexicon| decide_origin(word, lexicon))?)
}

// Where the word comes from, or why word or sheet is refused.
pub fn classify(word: &[u8], sheet: &[u8]) -> Result<Origin, Refusal>
    ensures { result ≡ origin_only (decision_answer word.now sheet.now) }
{
    let decision = classify_with_provenance(word, sheet)?;
    Ok(decision.origin)
}
