// The remainders of a piece under a suffix: the plain one, and the one that shares the suffix's first character. Readings
// and origin strip by `suffix_rests`, and so do decompose and candidates, which ask `bars` first.
ghost use Rattle.std.specs.Prelude.{◌≡◌, ◌≤◌, length};
ghost use Rattle.tables.specs.Tables.{is_ii};
ghost use Rattle.strips.specs.Suffix.{first_length, sheds, rests_of, keeps_pronoun};

// The remainders of a piece under a suffix, each by how many bytes of the piece it is: the plain one, and the one that keeps the suffix's
// first character.
#[derive(Clone, Copy, Debug, Default, PartialEq, Eq)]
pub struct Rests {
    pub plain: Option<usize>,
    pub shared: Option<usize>,
}

// How many bytes the first character of t has, 0 for no text. It goes up to the next byte that begins a character, or to the end.
pub fn first_char_len(t: &[u8]) -> usize
    ensures { (result ≡ first_length t.now) × (result ≤ length t.now) }
{
    let Some((_, rest)) = t.split_first() else {
        return 0;
    };
    1 + rest
        .iter()
        .position(|b| text::characters::opens_one(*b) == 1)
        .unwrap_or(rest.len())
}

// Whether the piece ends in the suffix and is longer.
#[tactic(auto, unfolding(crate::specs::Suffix::sheds))]
fn sheds(piece: &[u8], suffix: &[u8]) -> bool
    ensures { result ≡ sheds piece.now suffix.now }
{
    suffix.len() < piece.len() && runs::ends_with(piece, suffix)
}

// The remainders of a piece under a suffix. A piece that does not end in the suffix, or is no longer than it, has none; a suffix of one
// character leaves no shared one.
#[tactic(auto, unfolding(crate::specs::Suffix::rests_of, crate::specs::Suffix::is_long))]
pub fn suffix_rests(piece: &[u8], suffix: &[u8]) -> Rests
    ensures { result ≡ rests_of piece.now suffix.now }
{
    if !sheds(piece, suffix) {
        return Rests::default();
    }
    let plain = piece.len() - suffix.len();
    let is_long = 1 < text::characters::count(suffix);
    Rests {
        plain: Some(plain),
        shared: is_long.then(|| plain + first_char_len(suffix)),
    }
}

// Whether a suffix is ई or ी.
#[tactic(auto, unfolding(tables::specs::Tables::is_ii))]
fn is_ii(suffix: &[u8]) -> bool
    ensures { result ≡ is_ii suffix.now }
{
    runs::same(suffix, b"\xE0\xA4\x88") || runs::same(suffix, b"\xE0\xA5\x80")
}

// Whether a piece gives no remainder although it may end in the suffix: a pronoun under ई or ी, unless its entry spells that it is
// derived so. The two letters are those of the piece's own line.
#[tactic(auto, unfolding(crate::specs::Suffix::keeps_pronoun))]
pub fn bars(pronoun: bool, spelled: bool, suffix: &[u8]) -> bool
    ensures { result ≡ keeps_pronoun pronoun spelled suffix.now }
{
    pronoun && !spelled && is_ii(suffix)
}
