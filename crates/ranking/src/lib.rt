// Readings of a word, and their list by value: at most 64, in rank order.
#![tactic(auto)]

pub mod kept;
pub mod list;
pub mod rows;
pub mod scores;

ghost use Rattle.std.specs.Prelude.{◌≡◌, length, take, drop};
ghost use Rattle.ranking.specs.Parts.{part};
ghost use Rattle.ranking.specs.Rank.{stem_text, root_text, ahead_of};
ghost use Rattle.ranking.specs.Lists.{with_origin};
ghost use Rattle.ranking.specs.Stored.{no_segment};
ghost use Rattle.ranking.specs.Blanks.{blank_classified};

use crate::list::{ArrayList, Blank};
use arrayvec::ArrayVec;
use origin::{OriginDecision, OriginSource};
use runs::compare;
use tables::origins::Origin;

// The most readings that a list holds.
pub const LIMIT: usize = 64;

// The kind of a suffix.
#[derive(Clone, Copy, Debug, Default, PartialEq, Eq)]
pub enum AffixKind {
    #[default]
    Particle,
    CaseMarker,
    PluralMarker,
    Postposition,
    ComparisonMarker,
}

// A suffix: its row in the table of the 25 texts, its kind, and whether its first letter is shared with what stands before it.
#[derive(Clone, Copy, Debug, Default, PartialEq, Eq)]
pub struct Segment {
    pub label: u8,
    pub kind: AffixKind,
    pub shared: bool,
}

// A reading of a word: the stem is the word's first `stem` bytes, and the root what stands in the stem from byte `root` on; prefix
// labels by their rows, outermost first; suffix segments, nearest the stem first; places that are not used are 0. The fields stand
// so that no gap lies between them: a list of 64 is copied often.
#[derive(Clone, Copy, Debug, Default, PartialEq, Eq)]
pub struct Reading {
    pub stem: u16,
    pub root: u16,
    pub score: u16,
    pub prefixes: [u8; 2],
    pub segments: [Segment; 4],
    pub prefix_count: u8,
    pub suffix_count: u8,
}

impl Reading {
    // The rows of its prefixes, outermost first: of the places for them, as many as it counts.
    pub fn prefix_rows(&self) -> &[u8]
        ensures { result.now ≡ take self.now.prefix_count self.now.prefixes }
    {
        let n = usize::from(self.prefix_count).min(self.prefixes.len());
        &self.prefixes[..n]
    }

    // Its suffixes, nearest the stem first, likewise.
    pub fn suffixes(&self) -> &[Segment]
        ensures { result.now ≡ take self.now.suffix_count self.now.segments }
    {
        let n = usize::from(self.suffix_count).min(self.segments.len());
        &self.segments[..n]
    }
}

// A reading as it is handed out: with its root's origin, how that is known, and how surely. Here too no gap lies between the fields.
#[derive(Clone, Copy, Default)]
pub struct Classified {
    pub reading: Reading,
    pub origin: Origin,
    pub source: OriginSource,
    pub confidence: f32,
}

// A word's readings in rank order, as a walk keeps them, and as they are handed out: a list that is copied as every other answer is.
pub type Readings = ArrayVec<Reading, LIMIT>;

pub type Listing = ArrayList<Classified, LIMIT>;

impl Blank for Classified {
    ghost blank_row = { blank_classified };

    fn blank_row() -> Classified {
        Classified {
            reading: Reading {
                stem: 0,
                root: 0,
                score: 0,
                prefixes: [0; 2],
                segments: [blank(); 4],
                prefix_count: 0,
                suffix_count: 0,
            },
            origin: Origin::Tatsam,
            source: OriginSource::Override,
            confidence: 0.0,
        }
    }
}

// The bytes of the word from `from` to `to`, nothing where that is no place inside the word.
pub fn part_of<'w>(word: &'w [u8], from: usize, to: usize) -> &'w [u8]
    ensures { result.now ≡ part word.now from to }
{
    if from <= to && to <= word.len() {
        &word[from..to]
    } else {
        &word[..0]
    }
}

// The stem of a reading, as a part of the word; empty where the reading's place does not lie inside the word given.
pub fn stem_of<'w>(word: &'w [u8], reading: Reading) -> &'w [u8]
    ensures { result.now ≡ stem_text word.now reading }
{
    part_of(word, 0, usize::from(reading.stem))
}

// The root of a reading, likewise.
pub fn root_of<'w>(word: &'w [u8], reading: Reading) -> &'w [u8]
    ensures { result.now ≡ root_text word.now reading }
{
    part_of(word, usize::from(reading.root), usize::from(reading.stem))
}

// Whether reading a of the word comes before b.
pub fn ahead(word: &[u8], a: Reading, b: Reading) -> bool
    ensures { result ≡ ahead_of word.now a b }
{
    b.score
        .cmp(&a.score)
        .then(b.suffix_count.cmp(&a.suffix_count))
        .then(b.prefix_count.cmp(&a.prefix_count))
        .then(b.stem.cmp(&a.stem))
        .then_with(|| compare(root_of(word, a), root_of(word, b)))
        .is_lt()
}

// What stands in a place for a suffix that is not used.
pub fn blank() -> Segment
    ensures { result ≡ no_segment }
{
    Segment::default()
}

// A reading with what is decided of its root.
pub fn with_origin(reading: Reading, decision: OriginDecision) -> Classified
    ensures { result ≡ with_origin reading decision }
{
    Classified {
        reading,
        origin: decision.origin,
        source: decision.source,
        confidence: decision.confidence,
    }
}
