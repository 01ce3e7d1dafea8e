// Where a word comes from: the classification of the source's origin.rs, with how it is known and how surely.
#![tactic(auto)]

ghost use Rattle.std.specs.Prelude.{◌≡◌, Some};
ghost use Rattle.lookup.specs.Lexicons.{replies};
ghost use Rattle.tables.specs.Origins.{origin_of};
ghost use Rattle.origin.specs.Decisions.{by_stem, decided, no_evidence, known_stem, or_by_kosha, by_marks, decision_of};
ghost use Rattle.origin.specs.Marks.{heuristic_of};

use crate::kosha::Known;
use crate::quick::may_list;
use lookup::lexicon::Lexicon;
use tables::origins::{Origin, lookup_origin};

pub mod entries;
pub mod kosha;
pub mod marks;
mod quick;

// How an origin is known.
#[derive(Clone, Copy, Debug, Default, PartialEq, Eq)]
pub enum OriginSource {
    #[default]
    Override,
    Kosha,
    Heuristic,
    Unknown,
}

// An origin, how it is known, and how surely.
#[derive(Clone, Copy)]
pub struct OriginDecision {
    pub origin: Origin,
    pub source: OriginSource,
    pub confidence: f32,
}

// A decision of its parts.
fn decided(origin: Origin, source: OriginSource, confidence: f32) -> OriginDecision
    ensures { result ≡ decided origin source confidence }
{
    OriginDecision {
        origin,
        source,
        confidence,
    }
}

// The decision where nothing is known: the source's rules then take the word for Deshaj.
fn no_evidence() -> OriginDecision
    ensures { result ≡ no_evidence }
{
    decided(Origin::Deshaj, OriginSource::Unknown, 0.0)
}

// The origin of the word in ORIGIN_TABLE, which is searched only for words that it can have.
#[tactic(auto, using(crate::proofs::Ruled::not_listed))]
fn listed(word: &[u8]) -> Option<Origin>
    ensures { result ≡ origin_of word.now }
{
    if !may_list(word) {
        return None;
    }
    lookup_origin(word)
}

// The decision by the word's marks.
fn by_marks(word: &[u8]) -> OriginDecision
    ensures { result ≡ by_marks (heuristic_of word.now) }
{
    match marks::classify_heuristic(word) {
        Origin::Deshaj => no_evidence(),
        origin => decided(origin, OriginSource::Heuristic, 0.65),
    }
}

// The decision by what a sheet knows of a name, and how surely: its tag, or that it is a headword without one.
fn by_kosha(known: Known, confidence: f32) -> OriginDecision
    ensures { result ≡ or_by_kosha confidence (Some known) no_evidence }
{
    match known {
        Known::Tagged(origin) => decided(origin, OriginSource::Kosha, confidence),
        Known::Headword => no_evidence(),
    }
}

// The decision on the word by what is known of its remainders, or by its marks.
fn by_stem(sheet: &Lexicon<'_>, word: &[u8]) -> OriginDecision
    ensures { result ≡ or_by_kosha by_stem (known_stem (replies sheet.now) word.now) (by_marks (heuristic_of word.now)) }
{
    match kosha::known_stem(sheet, word) {
        Some(known) => by_kosha(known, 0.90),
        None => by_marks(word),
    }
}

// The decision on a word by an accepted sheet: the table, which is asked for the whole word alone, then what the sheet says of the
// word, of its remainders, and the marks.
#[tactic(auto, unfolding(crate::specs::Decisions::decision_of))]
pub fn decide_origin(word: &[u8], sheet: &Lexicon<'_>) -> OriginDecision
    ensures { result ≡ decision_of (replies sheet.now) word.now }
{
    if word.len() == 0 {
        return no_evidence();
    }
    if let Some(origin) = listed(word) {
        return decided(origin, OriginSource::Override, 1.0);
    }
    match kosha::known_by(sheet, word) {
        Some(known) => by_kosha(known, 0.95),
        None => by_stem(sheet, word),
    }
}
