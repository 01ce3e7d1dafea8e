// The oracle's file of cases (oracle/README.md, "The block format"), read case by case. The programs that replay its answers use it.
#![tactic(auto)]

ghost use Rattle.std.specs.Prelude.{◌≡◌, ◌≤◌, length, MatchOption};
ghost use Rattle.blocks.specs.Cases.{Behind, CutFrom};

// A case, and what stands behind it.
#[derive(Clone, Copy)]
pub struct Case<'s> {
    pub word: &'s [u8],
    pub sheet: &'s [u8],
    pub rest: &'s [u8],
}

// The decimal number at the front of s, and what stands behind the byte that ends it; it stops growing past 100,000.
fn decimal(s: &[u8]) -> (usize, &[u8])
    ensures { (result.0 ≤ 2000000) × Behind s.now result.1.now }
{
    let mut value: usize = 0;
    let mut rest = s;
    while let [b, tail @ ..] = rest {
        if !b.is_ascii_digit() || 100000 < value {
            return (value, tail);
        }
        value = value * 10 + (*b - b'0') as usize;
        rest = tail;
    }
    (value, rest)
}

// The first case: two counts, the word, the sheet, and a byte 0A. An empty one before nothing where a count is too large; none where
// nothing is left.
pub fn first_case(s: &[u8]) -> Option<Case<'_>>
    ensures { MatchOption result (length s.now ≡ 0) (λ c. CutFrom s.now c.word.now c.sheet.now c.rest.now) }
{
    if s.is_empty() {
        return None;
    }
    let (word_bytes, rest) = decimal(s);
    let (sheet_bytes, rest) = decimal(rest);
    if rest.len() < word_bytes + sheet_bytes {
        let none = &s[s.len()..];
        return Some(Case {
            word: none,
            sheet: none,
            rest: none,
        });
    }
    let (word, rest) = rest.split_at(word_bytes);
    let (sheet, rest) = rest.split_at(sheet_bytes);
    Some(Case {
        word,
        sheet,
        rest: &rest[rest.len().min(1)..],
    })
}
