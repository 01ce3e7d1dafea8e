// The marks of a word's origin: texts that it contains, and texts in which it ends.
ghost use Rattle.std.specs.Prelude.{◌≡◌, map};
ghost use Rattle.std.specs.List.{list_any};
ghost use Rattle.runs.specs.Runs.{begins_with, ends_in};
ghost use Rattle.origin.specs.Marks.{contains_one, begins_one, ends_in_one, has_aagantuk_markers, has_tatsam_markers, has_tadbhav_markers, by_end, heuristic_of};
ghost use Rattle.origin.specs.Quick.{Opens};

use crate::quick::{may_mark, may_open};
use strips::suffix::first_char_len;
use tables::origins::Origin;

// Marks of Aagantuk words.
const AAGANTUK_MARKS: [&str; 8] = [
    "\u{958}", "\u{959}", "\u{95A}", "\u{95B}", "\u{95C}", "\u{95D}", "\u{95E}", "\u{95F}",
];

// Another, anywhere but at the front.
const NUKTA: [&str; 1] = ["\u{93C}"];

// Marks of Tatsam words.
const TATSAM_MARKS: [&str; 13] = [
    "ऋ",
    "ृ",
    "ष",
    "ः",
    "क्ष",
    "ज्ञ",
    "क्त",
    "त्म",
    "त्र",
    "त्त",
    "द्ध",
    "द्य",
    "द्व",
];

// Ends of Tadbhav words.
const TADBHAV_ENDS: [&str; 9] = ["नु", "ने", "को", "ठो", "डो", "ढो", "ठा", "डा", "ढा"];

// Whether the word begins with one of the texts.
fn begins_one(word: &[u8], texts: &[&str]) -> bool
    ensures { result ≡ list_any (λ (t : _). begins_with t.now word.now) texts.now }
{
    texts.iter().any(|t| runs::begins_with(word, t.as_bytes()))
}

// Whether the word ends in one of the texts.
fn ends_in_one(word: &[u8], texts: &[&str]) -> bool
    ensures { result ≡ list_any (λ (t : _). ends_in t.now word.now) texts.now }
{
    texts.iter().any(|t| runs::ends_with(word, t.as_bytes()))
}

// Whether the word contains one of the texts, all of which open as marks do, so that few places are looked at.
fn contains_one(word: &[u8], texts: &[&str]) -> bool
    requires { Opens (map (λ (t : _). t.now) texts.now) }
    ensures { result ≡ contains_one (map (λ (t : _). t.now) texts.now) word.now }
{
    (0..word.len()).any(|i| may_open(word, i) && begins_one(&word[i..], texts))
}

// Whether the word has a letter that is written with a nukta, or the nukta U+093C anywhere but first.
#[tactic(auto, using(crate::proofs::Ruled::aagantuk_opens, crate::proofs::Ruled::nukta_opens), unfolding(crate::specs::Marks::has_aagantuk_markers, crate::specs::Marks::aagantuk_marks))]
fn has_aagantuk_markers(word: &[u8]) -> bool
    ensures { result ≡ has_aagantuk_markers word.now }
{
    contains_one(word, &AAGANTUK_MARKS) || contains_one(&word[first_char_len(word)..], &NUKTA)
}

// Whether the word contains one of the 13 texts of Tatsam words.
#[tactic(auto, using(crate::proofs::Ruled::tatsam_opens), unfolding(crate::specs::Marks::has_tatsam_markers, crate::specs::Marks::tatsam_marks))]
fn has_tatsam_markers(word: &[u8]) -> bool
    ensures { result ≡ has_tatsam_markers word.now }
{
    contains_one(word, &TATSAM_MARKS)
}

// Whether the word ends in नु, ने or को, or in ो or ा right after ठ, ड or ढ.
#[tactic(auto, unfolding(crate::specs::Marks::has_tadbhav_markers, crate::specs::Marks::ends_in_one, crate::specs::Marks::tadbhav_ends))]
fn has_tadbhav_markers(word: &[u8]) -> bool
    ensures { result ≡ has_tadbhav_markers word.now }
{
    ends_in_one(word, &TADBHAV_ENDS)
}

// The origin that the word's end shows: Tadbhav, or Deshaj where there is no mark.
fn by_end(word: &[u8]) -> Origin
    ensures { result ≡ by_end word.now }
{
    if has_tadbhav_markers(word) {
        return Origin::Tadbhav;
    }
    Origin::Deshaj
}

// The origin that the word's marks show: Aagantuk before Tatsam before Tadbhav, and Deshaj where there are none. Most words have no
// character that a mark of the first two begins with.
#[tactic(auto, using(crate::proofs::Ruled::no_aagantuk, crate::proofs::Ruled::no_tatsam), unfolding(crate::specs::Marks::heuristic_of))]
pub fn classify_heuristic(word: &[u8]) -> Origin
    ensures { result ≡ heuristic_of word.now }
{
    if !may_mark(word) {
        return by_end(word);
    }
    if has_aagantuk_markers(word) {
        return Origin::Aagantuk;
    }
    if has_tatsam_markers(word) {
        return Origin::Tatsam;
    }
    by_end(word)
}
