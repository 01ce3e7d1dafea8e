// Word origins, and the origin of a word in ORIGIN_TABLE. The classification asks the table first, of the whole word alone.
ghost use Rattle.std.specs.Prelude.{◌≡◌};
ghost use Rattle.tables.specs.Origins.{origin_of};

use crate::origin_rows;

// Where a word comes from.
#[derive(Clone, Copy, Debug, Default, PartialEq, Eq)]
pub enum Origin {
    #[default]
    Tatsam,
    Tadbhav,
    Deshaj,
    Aagantuk,
}

// The origin of a word in ORIGIN_TABLE, or none where the table does not have the word.
// It takes any word. The rows ascend strictly, so one look at the middle row settles all rows on one side of it.
pub fn lookup_origin(word: &[u8]) -> Option<Origin>
    ensures { result ≡ origin_of word.now }
{
    let rows = origin_rows();
    match rows.binary_search_by(|row| row.0.as_bytes().cmp(word)) {
        Ok(k) => Some(rows[k].1),
        Err(_) => None,
    }
}
