// The prefix that decompose strips.
ghost use Rattle.std.specs.Prelude.{◌≡◌, ◌≤◌, length};
ghost use Rattle.lookup.specs.Lexicons.{replies};
ghost use Rattle.tables.specs.Rows.{prefix_forms};
ghost use Rattle.decomposition.specs.Strips.{word_rest, first_front};

use crate::suffixes::is_word;
use lookup::lexicon::Lexicon;
use strips::prefix::prefix_rest;
use tables::prefix_rows;

// What a prefix leaves of a word: the prefix's row, where one was stripped, and the byte from which on the word is left.
#[derive(Clone, Copy, Default)]
pub struct Front {
    pub prefix: Option<u8>,
    pub from: usize,
}

// What a form leaves of the word, where that has enough characters and the sheet knows it by w.
fn word_rest(sheet: &Lexicon<'_>, word: &[u8], form: &[u8]) -> Option<usize>
    ensures { result ≡ word_rest (replies sheet.now) word.now form.now }
{
    let n = prefix_rest(word, form)?;
    is_word(sheet, &word[n..]).then_some(n)
}

// The first prefix row that leaves something long enough which the sheet knows by w.
pub(crate) fn first_front(sheet: &Lexicon<'_>, word: &[u8]) -> Front
    ensures { (result ≡ first_front (replies sheet.now) word.now 0 prefix_forms) × (result.from ≤ length word.now) }
{
    let rows = prefix_rows();
    for (k, row) in rows.iter().enumerate() {
        if let Some(n) = word_rest(sheet, word, row.1.as_bytes()) {
            return Front {
                prefix: Some(k as u8),
                from: n,
            };
        }
    }
    Front::default()
}
