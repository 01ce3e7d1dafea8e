// Which characters part words, and which make a run a word's, by their numbers.
ghost use Rattle.std.specs.Prelude.{◌≡◌, ◌≤◌, ◌<◌};
ghost use Rattle.tokenizer.specs.Parting.{parts, among, devanagari};
ghost use Rattle.tokenizer.specs.Marks.{general};

// A bit for each character below U+0040 that parts. A test is then one shift: most characters of one byte are spaces and letters, and a
// chain of comparisons takes longer.
const LOW: u64 = 0x1F << b'\t'
    | 1 << b' '
    | 1 << b'!'
    | 1 << b'"'
    | 1 << b'\''
    | 1 << b'('
    | 1 << b')'
    | 1 << b','
    | 1 << b'-'
    | 1 << b'.'
    | 1 << b'/'
    | 1 << b':'
    | 1 << b';'
    | 1 << b'?';

// Whether the character of one byte b parts.
#[tactic(auto, using(crate::proofs::Parted::low_mask, crate::proofs::Parted::brackets), unfolding(crate::specs::Parting::among, text::specs::Utf8::within))]
pub(crate) fn ascii_parts(b: u8) -> bool
    requires { b < 0x80 }
    ensures { result ≡ parts b }
{
    if b < 64 {
        (LOW >> b) & 1 == 1
    } else {
        matches!(b, b'[' | b']' | b'{' | b'}')
    }
}

// The same from U+2000 to U+203F.
#[tactic(auto, unfolding(crate::specs::Parting::among, text::specs::Utf8::within))]
fn general_parts(c: u32) -> bool
    requires { (0x2000 ≤ c) × (c < 0x2040) }
    ensures { result ≡ among general c }
{
    matches!(
        c,
        0x2000..=0x200A
            | 0x2013
            | 0x2014
            | 0x2018
            | 0x2019
            | 0x201C
            | 0x201D
            | 0x2026
            | 0x2028
            | 0x2029
            | 0x202F
    )
}

// Whether the character with the number c parts.
#[tactic(auto, using(crate::proofs::Parted::high_marks, crate::proofs::Parted::low_marks, crate::proofs::Parted::general_marks), unfolding(crate::specs::Parting::among, text::specs::Utf8::within))]
pub(crate) fn is_parting(c: u32) -> bool
    ensures { result ≡ parts c }
{
    match c {
        0x00..=0x7F => ascii_parts(c as u8),
        0x80..=0x1FFF => matches!(c, 0x85 | 0xA0 | 0x964 | 0x1680),
        0x2000..=0x203F => general_parts(c),
        _ => matches!(c, 0x205F | 0x3000),
    }
}

// Whether the character with the number c is one of U+0900 to U+097F.
#[tactic(auto, unfolding(crate::specs::Parting::devanagari, text::specs::Utf8::within))]
pub(crate) fn is_devanagari(c: u32) -> bool
    ensures { result ≡ devanagari c }
{
    matches!(c, 0x0900..=0x097F)
}
