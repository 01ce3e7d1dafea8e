// Which roots are supported, and how a reading scores.
ghost use Rattle.std.specs.Prelude.{◌≡◌, ◌≤◌};
ghost use Rattle.lookup.specs.Lexicons.{replies};
ghost use Rattle.progressive.specs.Progressive.{is_progressive};
ghost use Rattle.paths.specs.Support.{has_sibling};
ghost use Rattle.paths.specs.Chains.{most_strips, most_prefixes};
ghost use Rattle.analysis.specs.Supports.{is_alone, support_of, score_from, supports};

use lookup::begins::Range;
use lookup::lexicon::Lexicon;
use lookup::names::Names;
use ranking::scores::score_for;
use sheet::letters::Letters;
use tables::affix_rows;

// What the sheet says of a root: known by w, by h, an appended form known, a supported progressive form.
#[derive(Clone, Copy)]
pub struct Support {
    pub word: bool,
    pub head: bool,
    pub sibling: bool,
    pub progressive: bool,
}

// Whether the sheet knows the head of these names with one of the 25 texts appended.
fn has_sibling(names: &Names<'_>) -> bool
    ensures { result ≡ has_sibling (replies names.now.sheet.now) names.now.head.now }
{
    affix_rows()
        .iter()
        .any(|text| names.letters_of(text.as_bytes()).is_known())
}

// The score of a reading whose root has this support: the surface has so many characters, and so many affixes are stripped.
pub(crate) fn score(surface: u16, s: Support, prefixes: u8, suffixes: u8) -> u16
    requires { (surface ≤ 192) × (prefixes ≤ most_prefixes) × (suffixes ≤ most_strips) }
    ensures { result ≡ score_from surface s prefixes suffixes }
{
    score_for(s.word, s.head, s.sibling, prefixes, suffixes, surface)
}

// Whether a root of so many bytes with this support is supported: an empty one never is.
pub(crate) fn is_supported(s: Support, len: usize) -> bool
    ensures { result ≡ supports s len }
{
    len != 0 && (s.word || s.head || s.sibling || s.progressive)
}

// Whether the one line of the range is that of the root itself, whose letters these are. Then no longer name begins with the root.
fn is_alone(range: Range, letters: Letters) -> bool
    requires { range.lo ≤ range.hi }
    ensures { result ≡ is_alone range letters }
{
    range.hi - range.lo <= 1 && letters.is_known()
}

// What the sheet says of a root; whether it is a supported progressive form is known already. Where no name begins with the root,
// or only its own, one search settles all 26 questions.
pub(crate) fn support_of(sheet: &Lexicon<'_>, root: &[u8], progressive: bool) -> Support
    requires { (progressive ≡ is_progressive (replies sheet.now) root.now) }
    ensures { result ≡ support_of (replies sheet.now) root.now }
{
    let range = sheet.range_of(b'w', root);
    if range.hi <= range.lo {
        return Support {
            word: false,
            head: false,
            sibling: false,
            progressive,
        };
    }
    let names = Names {
        sheet,
        head: root,
        range,
    };
    let letters = names.letters_of(b"");
    let sibling = !is_alone(range, letters) && has_sibling(&names);
    Support {
        word: letters.word,
        head: letters.head,
        sibling,
        progressive,
    }
}
