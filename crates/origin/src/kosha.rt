// What a sheet knows of a name and of what suffixes leave of it.
ghost use Rattle.std.specs.Prelude.{◌≡◌};
ghost use Rattle.lookup.specs.Lexicons.{replies};
ghost use Rattle.origin.specs.Decisions.{known_by, known_rest, known_under, known_stem};

use crate::quick::may_strip;
use lookup::lexicon::Lexicon;
use strips::suffix::suffix_rests;
use tables::origins::Origin;
use tables::strip_suffix_rows;

// What a sheet knows of a name: its origin tag, or that it is a headword without one.
#[derive(Clone, Copy, Debug, PartialEq, Eq)]
pub enum Known {
    Tagged(Origin),
    Headword,
}

// What the sheet knows of a name, if it knows anything.
pub(crate) fn known_by(sheet: &Lexicon<'_>, name: &[u8]) -> Option<Known>
    ensures { result ≡ known_by (replies sheet.now) name.now }
{
    let letters = sheet.letters_of(name, b"");
    match letters.tag {
        Some(origin) => Some(Known::Tagged(origin)),
        None => letters.head.then_some(Known::Headword),
    }
}

// The same of a remainder, which is not asked for where it is one character or none.
#[tactic(auto, unfolding(crate::specs::Decisions::known_rest))]
fn known_rest(sheet: &Lexicon<'_>, rest: &[u8]) -> Option<Known>
    ensures { result ≡ known_rest (replies sheet.now) rest.now }
{
    if text::characters::count(rest) <= 1 {
        return None;
    }
    known_by(sheet, rest)
}

// The same of the word's remainders under a suffix: the plain one, and the shared one where nothing is known of the plain.
fn known_under(sheet: &Lexicon<'_>, word: &[u8], suffix: &[u8]) -> Option<Known>
    ensures { result ≡ known_under (replies sheet.now) word.now suffix.now }
{
    let rests = suffix_rests(word, suffix);
    let plain = rests.plain?;
    if let Some(known) = known_rest(sheet, &word[..plain]) {
        return Some(known);
    }
    let shared = rests.shared?;
    known_rest(sheet, &word[..shared])
}

// What the sheet knows of a remainder of the word under one of STRIP_SUFFIXES, the first of which something is known, if the word can end
// in one.
pub(crate) fn known_stem(sheet: &Lexicon<'_>, word: &[u8]) -> Option<Known>
    ensures { result ≡ known_stem (replies sheet.now) word.now }
{
    if !may_strip(word) {
        return None;
    }
    for suffix in strip_suffix_rows() {
        if let Some(known) = known_under(sheet, word, suffix.as_bytes()) {
            return Some(known);
        }
    }
    None
}
