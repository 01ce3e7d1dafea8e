// Where the walk is: a piece of the word that is asked about.
ghost use Rattle.std.specs.Prelude.{◌≡◌, ◌≤◌, length, take};
ghost use Rattle.lookup.specs.Lexicons.{replies};
ghost use Rattle.progressive.specs.Progressive.{is_progressive};
ghost use Rattle.paths.specs.Chains.{all_rows, most_strips};
ghost use Rattle.analysis.specs.Places.{between};

use lookup::asked::Asked;
use paths::Chain;

// The piece that is the word's first `end` bytes, with the suffixes stripped behind it; of it, the first `rows` rows may be stripped next.
// So many `times` the source's strips lead to it. A piece that is a supported progressive form is never stripped. Each score adds
// `surface`, whatever number up to 192 that is.
#[derive(Clone, Copy)]
pub(crate) struct Piece<'a> {
    pub asked: &'a Asked<'a>,
    pub surface: u16,
    pub end: usize,
    pub chain: Chain,
    pub rows: u8,
    pub times: u8,
    pub progressive: bool,
    ghost any: { surface ≤ 192 },
    ghost inside: { end ≤ length asked.now.word.now },
    ghost few: { chain.count ≤ most_strips },
    ghost table: { rows ≤ all_rows },
    ghost twice: { times ≤ 2 },
    ghost told: { progressive ≡ is_progressive (replies asked.now.sheet.now) (take end asked.now.word.now) },
}

// What prefixes leave of a piece: what stands in it from byte `start` of the word on, and whether that is a supported progressive form.
#[derive(Clone, Copy)]
pub(crate) struct Root<'a> {
    pub at: &'a Piece<'a>,
    pub start: usize,
    pub progressive: bool,
    ghost inside: { start ≤ at.now.end },
    ghost told: { progressive ≡ is_progressive (replies at.now.asked.now.sheet.now) (between at.now.asked.now.word.now start at.now.end) },
}
