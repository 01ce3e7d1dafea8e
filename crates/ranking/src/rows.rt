// The row of a reading, of WIDTH bytes, stored and read back. It lies as a struct of C does where the low byte is first: three numbers
// of 16 bits, stem, root and score; two prefix rows; four times a suffix row, the number of its kind and 1 where its first letter is shared, else 0;
// the two counts.
ghost use Rattle.std.specs.Prelude.{◌≡◌, ◌++◌, ◌+◌, ◌*◌, ◌/◌, ◌%◌, ◌≤◌, ◌<◌, length, drop};
ghost use Rattle.ranking.specs.Stored.{kind_number, kind_at, two_at, segment_at, reading_bytes, reading_at, reading_width};

use crate::{AffixKind, Reading, Segment};

pub const WIDTH: usize = 22;

// Two bytes of a row from the i-th on as a number, the low one first.
fn two_at(row: &[u8], i: usize) -> u16
    requires { i + 1 < length row.now }
    ensures { result ≡ two_at row.now i }
{
    u16::from_le_bytes([row[i], row[i + 1]])
}

// The number of a kind.
impl From<AffixKind> for u8 {
    ghost from_gives = { λ kind r. r ≡ kind_number kind };

    fn from(kind: AffixKind) -> u8 {
        match kind {
            AffixKind::Particle => 0,
            AffixKind::CaseMarker => 1,
            AffixKind::PluralMarker => 2,
            AffixKind::Postposition => 3,
            AffixKind::ComparisonMarker => 4,
        }
    }
}

// The kind of a number; the first for one that no kind has.
impl From<u8> for AffixKind {
    ghost from_gives = { λ n r. r ≡ kind_at n };

    fn from(n: u8) -> AffixKind {
        match n {
            1 => AffixKind::CaseMarker,
            2 => AffixKind::PluralMarker,
            3 => AffixKind::Postposition,
            4 => AffixKind::ComparisonMarker,
            _ => AffixKind::Particle,
        }
    }
}

// A reading, at the front of the buffer.
pub fn put_reading(r: Reading, out: &mut [u8])
    requires { reading_width ≤ length out.old }
    ensures { out.new ≡ reading_bytes r ++ drop reading_width out.old }
{
    let stem = r.stem.to_le_bytes();
    let root = r.root.to_le_bytes();
    let score = r.score.to_le_bytes();
    let prefixes = r.prefixes;
    let [first, second, third, fourth] = r.segments;
    let all = [
        stem[0],
        stem[1],
        root[0],
        root[1],
        score[0],
        score[1],
        prefixes[0],
        prefixes[1],
        first.label,
        u8::from(first.kind),
        u8::from(first.shared),
        second.label,
        u8::from(second.kind),
        u8::from(second.shared),
        third.label,
        u8::from(third.kind),
        u8::from(third.shared),
        fourth.label,
        u8::from(fourth.kind),
        u8::from(fourth.shared),
        r.prefix_count,
        r.suffix_count,
    ];
    out[..WIDTH].copy_from_slice(&all);
}

// The segment that stands from the i-th byte on.
fn segment_at(row: &[u8], i: usize) -> Segment
    requires { i + 2 < length row.now }
    ensures { result ≡ segment_at row.now i }
{
    Segment {
        label: row[i],
        kind: AffixKind::from(row[i + 1]),
        shared: 0 < row[i + 2],
    }
}

// The reading whose row stands at the front.
pub fn get_reading(row: &[u8]) -> Reading
    requires { reading_width ≤ length row.now }
    ensures { result ≡ reading_at row.now }
{
    Reading {
        stem: two_at(row, 0),
        root: two_at(row, 2),
        score: two_at(row, 4),
        prefixes: [row[6], row[7]],
        segments: [
            segment_at(row, 8),
            segment_at(row, 11),
            segment_at(row, 14),
            segment_at(row, 17),
        ],
        prefix_count: row[20],
        suffix_count: row[21],
    }
}
