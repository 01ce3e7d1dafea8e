// Which words are accepted.
ghost use Rattle.std.specs.Prelude.{◌≡◌};
ghost use Rattle.text.specs.Word.{word_check, refusal_of};

use crate::names::holds_forbidden;
use crate::utf8::is_utf8;
use refusals::Refusal;

// Why a word is refused: over 192 bytes (1), not UTF-8 (2), with a forbidden byte (3).
#[derive(Clone, Copy, Debug, PartialEq, Eq)]
pub enum WordFault {
    TooLong,
    NotUtf8,
    Forbidden,
}

impl From<WordFault> for Refusal {
    ghost from_gives = { λ fault r. r ≡ refusal_of fault };

    fn from(fault: WordFault) -> Refusal {
        match fault {
            WordFault::TooLong => Refusal::WordTooLong,
            WordFault::NotUtf8 => Refusal::WordNotUtf8,
            WordFault::Forbidden => Refusal::WordForbidden,
        }
    }
}

// The most bytes of a word.
const WORD_BYTES: usize = 192;

// Whether the word is accepted; of several reasons to refuse it, the one with the lowest number.
#[tactic(auto, unfolding(crate::specs::Word::word_check))]
pub fn check_word(word: &[u8]) -> Result<(), WordFault>
    ensures { result ≡ word_check word.now }
{
    if WORD_BYTES < word.len() {
        return Err(WordFault::TooLong);
    }
    if !is_utf8(word) {
        return Err(WordFault::NotUtf8);
    }
    if holds_forbidden(word) {
        return Err(WordFault::Forbidden);
    }
    Ok(())
}
