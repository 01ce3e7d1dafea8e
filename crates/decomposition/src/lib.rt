// Decomposition of a word: one prefix and every suffix row in turn, as far as the sheet knows what is left.
#![tactic(auto)]

ghost use Rattle.std.specs.Prelude.{◌≡◌, ◌+◌, ◌≤◌, ◌<◌, length};
ghost use Rattle.lookup.specs.Lexicons.{replies};
ghost use Rattle.decomposition.specs.Strips.{least_root};
ghost use Rattle.decomposition.specs.Parts.{label_limit, parts_at, prefixes_of, root_text, decomposed_of, morpheme_of};

use crate::fronts::{Front, first_front};
use crate::suffixes::strip_rows;
use lookup::lexicon::Lexicon;
use origin::decide_origin;
use ranking::part_of;
use tables::origins::Origin;

pub mod entries;
pub mod fronts;
pub mod suffixes;

// How many labels there is room for: as many as SUFFIXES has rows.
pub const LABELS: usize = 24;

// A word in parts. The root is the word's bytes from `start` up to `end`; `prefix` is the row of a label of PREFIX_FORMS, where there
// is one, and the first `suffix_count` of `suffixes` are the rows of the labels of SUFFIXES in strip order; places that are not used
// are 0.
#[derive(Clone, Copy, Default)]
pub struct Parts {
    pub start: u8,
    pub end: u8,
    pub prefix: Option<u8>,
    pub suffix_count: u8,
    pub suffixes: [u8; LABELS],
}

impl Parts {
    // How many prefixes the word has: one or none.
    pub fn prefix_count(&self) -> u8
        ensures { (result ≡ length (prefixes_of self.now.prefix)) × (result ≤ 1) }
    {
        u8::from(self.prefix.is_some())
    }
}

// A decomposition: the parts, and the origin of the whole word.
#[derive(Clone, Copy)]
pub struct Morpheme {
    pub parts: Parts,
    pub origin: Origin,
}

// The root of parts, a part of the lent word; nothing where its place does not lie inside the word.
pub fn root_of<'w>(word: &'w [u8], p: Parts) -> &'w [u8]
    ensures { result.now ≡ root_text word.now p }
{
    let from = p.start as usize;
    let to = p.end as usize;
    part_of(word, from, to)
}

// The parts of a word behind a front: a root of so many bytes, and the rows of its labels. Its end fits a byte, and no more labels
// are given than SUFFIXES has rows.
pub fn parts_at(front: Front, len: usize, labels: &[u8]) -> Parts
    requires { (front.from + len < 256) × (length labels.now ≤ label_limit) }
    ensures { result ≡ parts_at front len labels.now }
{
    let mut suffixes = [0u8; LABELS];
    suffixes[..labels.len()].copy_from_slice(labels);
    Parts {
        start: front.from as u8,
        end: (front.from + len) as u8,
        prefix: front.prefix,
        suffix_count: labels.len() as u8,
        suffixes,
    }
}

// The fewest characters of a remainder: 1, or 4 after a prefix.
#[tactic(auto, unfolding(crate::specs::Strips::least_root))]
pub fn least_root(prefix: Option<u8>) -> usize
    ensures { result ≡ least_root prefix }
{
    match prefix {
        None => 1,
        Some(_) => 4,
    }
}

// The parts that decompose finds by an accepted sheet. The word has at most 192 bytes.
pub fn decomposed(sheet: &Lexicon<'_>, word: &[u8]) -> Parts
    requires { length word.now ≤ 192 }
    ensures { result ≡ decomposed_of (replies sheet.now) word.now }
{
    let front = first_front(sheet, word);
    let least = least_root(front.prefix);
    let s = strip_rows(sheet, &word[front.from..], least);
    parts_at(front, s.len, s.labels.as_slice())
}

// The decomposition of a word by an accepted sheet. The word has at most 192 bytes.
pub fn decompose_word(word: &[u8], sheet: &Lexicon<'_>) -> Morpheme
    requires { length word.now ≤ 192 }
    ensures { result ≡ morpheme_of (replies sheet.now) word.now }
{
    let parts = decomposed(sheet, word);
    let decision = decide_origin(word, sheet);
    Morpheme {
        parts,
        origin: decision.origin,
    }
}
