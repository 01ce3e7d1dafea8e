// What the walks over a word's pieces are lent: the word, the sheet that is asked about it, and how many characters the word has.
ghost use Rattle.std.specs.Prelude.{◌≡◌, ◌≤◌, length};
ghost use Rattle.text.specs.Characters.{chars};

use crate::lexicon::Lexicon;

// A word of at most 192 bytes, an accepted sheet, and the number of the word's characters.
#[derive(Clone, Copy)]
pub struct Asked<'a> {
    pub word: &'a [u8],
    pub sheet: &'a Lexicon<'a>,
    pub surface: u16,
    ghost short: { length word.now ≤ 192 },
    ghost counted: { surface ≡ chars word.now },
}
