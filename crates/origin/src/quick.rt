// What a few bytes tell of a word, so that most words are not searched: that ORIGIN_TABLE does not have it, that no mark of Aagantuk or Tatsam words stands in it, that it
// ends in none of STRIP_SUFFIXES.
ghost use Rattle.std.specs.Prelude.{◌≡◌, ◌+◌, ◌<◌, length, drop, get_or};
ghost use Rattle.origin.specs.Quick.{ends_listed, may_list, opens_cluster, low_mark, high_mark, opens_mark, may_open, may_mark, ends_strip, may_strip};

// For the third byte of a word's first character, from 80 (hexadecimal) on, a bit for each last byte, from 80 on, that a word of
// ORIGIN_TABLE which begins so ends in.
const LAST_BYTES: [u64; 64] = [
    0,
    0,
    0,
    0,
    0,
    0x8000000000002000,
    0x800008000800,
    0x4000000080000000,
    0,
    0,
    0,
    0x8000000000000002,
    0,
    0,
    0,
    0x4000000000000000,
    0,
    0,
    0,
    0,
    0x800800000000,
    0x8001000000000001,
    0x1,
    0x808000000000,
    0,
    0,
    0x4000000000000000,
    0,
    0,
    0x4000000000000000,
    0,
    0x1,
    0,
    0,
    0,
    0,
    0,
    0,
    0x1,
    0x4000800000000000,
    0x80,
    0,
    0x810000002001,
    0x10000000000,
    0x4000000000000001,
    0x4000000000000084,
    0x4020000000000880,
    0x12000000000,
    0x1040000200000,
    0,
    0x800000000000,
    0,
    0,
    0x4010000200000,
    0x4081018000000000,
    0,
    0x4200805800002003,
    0x1000000005,
    0,
    0,
    0,
    0,
    0,
    0,
];

// Whether a word of ORIGIN_TABLE has a first character with this third byte, and ends in byte b.
#[tactic(auto, unfolding(crate::specs::Quick::ends_listed, crate::specs::Quick::last_bytes))]
fn ends_listed(a: u8, b: u8) -> bool
    ensures { result ≡ ends_listed a b }
{
    if !matches!((a, b), (0x80..=0xBF, 0x80..=0xBF)) {
        return false;
    }
    let first = (a - 0x80) as usize;
    (LAST_BYTES[first] >> (b - 0x80)) & 1 == 1
}

// Whether ORIGIN_TABLE can have the word.
#[tactic(auto, unfolding(crate::specs::Quick::may_list))]
pub(crate) fn may_list(word: &[u8]) -> bool
    ensures { result ≡ may_list word.now }
{
    3 <= word.len() && ends_listed(word[2], word[word.len() - 1])
}

// Byte i of the word, 0 where there is none.
fn byte_at(word: &[u8], i: usize) -> u8
    ensures { result ≡ get_or word.now i 0 }
{
    word.get(i).copied().unwrap_or(0)
}

#[tactic(auto, unfolding(crate::specs::Quick::opens_cluster))]
fn opens_cluster(b: u8) -> bool
    ensures { result ≡ opens_cluster b }
{
    matches!(b, 0x95 | 0x9C | 0xA4 | 0xA6)
}

#[tactic(auto, unfolding(crate::specs::Quick::low_mark))]
fn low_mark(b: u8, v: u8) -> bool
    ensures { result ≡ low_mark b v }
{
    matches!(b, 0x8B | 0x83 | 0xB7 | 0xBC) || v == 0x8D && opens_cluster(b)
}

#[tactic(auto, unfolding(crate::specs::Quick::high_mark))]
fn high_mark(b: u8) -> bool
    ensures { result ≡ high_mark b }
{
    matches!(b, 0x83 | 0x98..=0x9F)
}

#[tactic(auto, unfolding(crate::specs::Quick::opens_mark))]
fn opens_mark(a: u8, b: u8, v: u8) -> bool
    ensures { result ≡ opens_mark a b v }
{
    match a {
        0xA4 => low_mark(b, v),
        0xA5 => high_mark(b),
        _ => false,
    }
}

// Whether a mark can stand in the word from byte i on.
#[tactic(auto, using(crate::proofs::Ruled::byte_inside), unfolding(crate::specs::Quick::may_open))]
pub(crate) fn may_open(word: &[u8], i: usize) -> bool
    ensures { result ≡ may_open (drop i word.now) }
{
    byte_at(word, i) == 0xE0
        && opens_mark(
            byte_at(word, i + 1),
            byte_at(word, i + 2),
            byte_at(word, i + 5),
        )
}

// Whether a mark of Aagantuk or Tatsam words can stand in the word.
pub(crate) fn may_mark(word: &[u8]) -> bool
    ensures { result ≡ may_mark word.now }
{
    (0..word.len()).any(|i| may_open(word, i))
}

#[tactic(auto, unfolding(crate::specs::Quick::ends_strip))]
fn ends_strip(a: u8, b: u8) -> bool
    ensures { result ≡ ends_strip a b }
{
    match b {
        0xBE => matches!(a, 0xAE | 0x95),
        0x8B | 0x80 => a == 0x95,
        0x87 => a == 0xB2,
        0x88 => matches!(a, 0xBE | 0x97),
        0x9F => a == 0xBE,
        0x97 => a == 0x81,
        0xB0 => matches!(a, 0xBF | 0x8D),
        0xBF => matches!(a, 0xA4 | 0x96),
        0xAE => a == 0x8D,
        0x81 | 0x82 => a == 0xB0,
        _ => false,
    }
}

// Whether the word can end in one of STRIP_SUFFIXES.
#[tactic(auto, unfolding(crate::specs::Quick::may_strip))]
pub(crate) fn may_strip(word: &[u8]) -> bool
    ensures { result ≡ may_strip word.now }
{
    let n = word.len();
    6 <= n && ends_strip(word[n - 4], word[n - 1])
}
