// Root candidates of a word: roots that the sheet knows, with the labels stripped to reach them, in rank order.
#![tactic(auto)]

ghost use Rattle.std.specs.Prelude.{◌≡◌, ◌≤◌, length};
ghost use Rattle.lookup.specs.Lexicons.{replies};
ghost use Rattle.roots.specs.Candidates.{candidates};
ghost use Rattle.roots.specs.Blanks.{blank_candidate};

use crate::offers::{with_prefix, with_word};
use decomposition::{LABELS, Parts, decomposed};
use lookup::asked::Asked;
use lookup::lexicon::Lexicon;
use ranking::list::{ArrayList, Blank};
use tables::origins::Origin;

pub mod entries;
pub mod list;
pub mod offers;
pub mod order;

// A candidate: its root and labels, the origin of the root, whether the sheet knows the root by w and by h, and its score.
#[derive(Clone, Copy, Default)]
pub struct RootCandidate {
    pub score: u16,
    pub parts: Parts,
    pub origin: Origin,
    pub known_word: bool,
    pub known_headword: bool,
}

// The most candidates of a word.
pub const LIMIT: usize = 16;

// The list of a word's candidates, in rank order, which is copied as every other answer is.
pub type Roots = ArrayList<RootCandidate, LIMIT>;

impl Blank for RootCandidate {
    ghost blank_row = { blank_candidate };

    fn blank_row() -> RootCandidate {
        RootCandidate {
            score: 0,
            parts: Parts {
                start: 0,
                end: 0,
                prefix: None,
                suffix_count: 0,
                suffixes: [0; LABELS],
            },
            origin: Origin::Tatsam,
            known_word: false,
            known_headword: false,
        }
    }
}

// The candidates of a word by an accepted sheet, in rank order. The word has at most 192 bytes.
pub fn collect_candidates(word: &[u8], sheet: &Lexicon<'_>) -> Roots
    requires { length word.now ≤ 192 }
    ensures { result.items ≡ candidates (replies sheet.now) word.now }
{
    let asked = Asked {
        word,
        sheet,
        surface: text::characters::count(word) as u16,
    };
    let mut list = ArrayList::new();
    with_word(&asked, decomposed(sheet, word), &mut list);
    with_prefix(&asked, &mut list);
    list
}
