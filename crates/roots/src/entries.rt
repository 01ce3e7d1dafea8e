// The entries of root candidates, which take any word and any sheet.
ghost use Rattle.std.specs.Prelude.{◌≡◌};
ghost use Rattle.roots.specs.Answers.{roots_answer, best_answer, known_answer};

use crate::{RootCandidate, Roots, collect_candidates};
use lookup::lexicon::Lexicon;
use lookup::lines::with_lexicon;
use refusals::Refusal;
use text::word::check_word;

// The root candidates of the word by an accepted sheet, in rank order, or why the word is refused.
pub fn lookup_root_candidates_in(word: &[u8], sheet: &Lexicon<'_>) -> Result<Roots, Refusal>
    ensures { result ≡ roots_answer word.now sheet.now.bytes.now }
{
    check_word(word)?;
    Ok(collect_candidates(word, sheet))
}

// The root candidates of the word in rank order, or why word or sheet is refused.
pub fn lookup_root_candidates(word: &[u8], sheet: &[u8]) -> Result<Roots, Refusal>
    ensures { result ≡ roots_answer word.now sheet.now }
{
    check_word(word)?;
    Ok(with_lexicon(sheet, |lexicon| collect_candidates(word, lexicon))?)
}

// The first root candidate of the word, or none where it has none, or why word or sheet is refused.
pub fn best_root(word: &[u8], sheet: &[u8]) -> Result<Option<RootCandidate>, Refusal>
    ensures { result ≡ best_answer word.now sheet.now }
{
    let roots = lookup_root_candidates(word, sheet)?;
    Ok(roots.as_slice().first().copied())
}

// Whether the word has a root candidate, or why word or sheet is refused.
pub fn has_known_root(word: &[u8], sheet: &[u8]) -> Result<bool, Refusal>
    ensures { result ≡ known_answer word.now sheet.now }
{
    Ok(best_root(word, sheet)?.is_some())
}
