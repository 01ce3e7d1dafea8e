// Suffixes stripped from a piece: the remainders under one row with the rule of pronouns, the first of them that is known by w and
// long enough, and all rows in order.
ghost use Rattle.std.specs.Prelude.{◌≡◌, ◌+◌, ◌≤◌, ◌<◌, length};
ghost use Rattle.lookup.specs.Lexicons.{replies};
ghost use Rattle.tables.specs.Rows.{suffixes};
ghost use Rattle.decomposition.specs.Strips.{is_word, label_row, is_kept, open_rests, is_taken, left_of, first_taken, strip_row, strip_rows};
ghost use Rattle.decomposition.specs.Parts.{whole_stage};
ghost use Rattle.decomposition.specs.Places.{stage_of, Held, FirstLeft, stripped_of};

use crate::LABELS;
use lookup::lexicon::Lexicon;
use ranking::list::ArrayList;
use strips::suffix::{Rests, bars, suffix_rests};
use tables::suffix_rows;

// A piece on the way: its first `len` bytes are left, and the labels are the rows stripped, outermost first.
#[derive(Clone, Copy)]
pub struct Stripped {
    pub len: usize,
    pub labels: ArrayList<u8, LABELS>,
}

// The row of a suffix's label: ी is labelled ई.
#[tactic(auto, unfolding(crate::specs::Strips::label_row))]
pub fn label_row(k: u8) -> u8
    ensures { result ≡ label_row k }
{
    if k == 23 { 22 } else { k }
}

// Whether the sheet knows a name by w.
pub fn is_word(sheet: &Lexicon<'_>, name: &[u8]) -> bool
    ensures { result ≡ is_word (replies sheet.now) name.now }
{
    sheet.letters_of(name, b"").word
}

// Whether the rule of pronouns keeps the piece whole under a suffix, by the letters of its own line.
fn is_kept(sheet: &Lexicon<'_>, piece: &[u8], suffix: &[u8]) -> bool
    ensures { result ≡ is_kept (replies sheet.now) piece.now suffix.now }
{
    let own = sheet.letters_of(piece, b"");
    bars(own.pronoun, own.spelled, suffix)
}

// The remainders of a piece under a suffix; a pronoun has none under ई and ी unless its entry spells it so.
pub fn open_rests(sheet: &Lexicon<'_>, piece: &[u8], suffix: &[u8]) -> Rests
    ensures { result ≡ open_rests (replies sheet.now) piece.now suffix.now }
{
    let rests = suffix_rests(piece, suffix);
    if rests.plain.is_some() && is_kept(sheet, piece, suffix) {
        Rests::default()
    } else {
        rests
    }
}

// Whether decompose takes a remainder: it has enough characters and the sheet knows it by w.
#[tactic(auto, unfolding(crate::specs::Strips::is_taken))]
fn is_taken(sheet: &Lexicon<'_>, rest: &[u8], least: usize) -> bool
    ensures { result ≡ is_taken (replies sheet.now) least rest.now }
{
    least <= text::characters::count(rest) && is_word(sheet, rest)
}

// The first remainder of a piece under a suffix that decompose takes: the plain one, else the shared one.
fn first_rest(sheet: &Lexicon<'_>, piece: &[u8], suffix: &[u8], least: usize) -> Option<usize>
    ensures { FirstLeft piece.now result (first_taken (replies sheet.now) least (left_of (replies sheet.now) piece.now suffix.now)) }
{
    let rests = open_rests(sheet, piece, suffix);
    let plain = rests.plain?;
    if is_taken(sheet, &piece[..plain], least) {
        return Some(plain);
    }
    let shared = rests.shared?;
    if is_taken(sheet, &piece[..shared], least) {
        return Some(shared);
    }
    None
}

// Row k is tried on what is left of a piece.
fn strip_row(
    sheet: &Lexicon<'_>,
    piece: &[u8],
    suffix: &[u8],
    least: usize,
    k: u8,
    s: &mut Stripped,
)
    requires { (k < 24) × Held piece.now k s.old }
    ensures { (stage_of piece.now s.new ≡ strip_row (replies sheet.now) least k suffix.now (stage_of piece.now s.old))
        × Held piece.now (k + 1) s.new }
{
    if let Some(len) = first_rest(sheet, &piece[..s.len], suffix, least) {
        s.len = len;
        s.labels.push(label_row(k));
    }
}

// Every row in order is tried on a piece, each on what the one before has left.
pub(crate) fn strip_rows(sheet: &Lexicon<'_>, piece: &[u8], least: usize) -> Stripped
    ensures { (result ≡ stripped_of (strip_rows (replies sheet.now) least 0 suffixes (whole_stage piece.now)))
        × (result.len ≤ length piece.now) × (length result.labels.items ≤ 24) }
{
    let mut s = Stripped {
        len: piece.len(),
        labels: ArrayList::new(),
    };
    let rows = suffix_rows();
    for (k, suffix) in rows.iter().enumerate() {
        strip_row(sheet, piece, suffix.as_bytes(), least, k as u8, &mut s);
    }
    s
}
