// What a strip leaves of a piece that the walk is at.
ghost use Rattle.std.specs.Prelude.{◌≡◌, ◌≤◌, ◌<◌};
ghost use Rattle.paths.specs.Chains.{most_strips, rows_after};
ghost use Rattle.paths.specs.Weighed.{times_after};
ghost use Rattle.analysis.specs.Pieces.{Stripped};

use crate::piece::Piece;
use paths::Chain;
use progressive::find::has_supported_progressive_form;
use ranking::{AffixKind, Segment};

// How many rows may be stripped after row k.
fn rows_after(k: u8) -> u8
    ensures { (result ≡ rows_after k) × (result ≤ 18) }
{
    if k < 2 { 0 } else { 18 }
}

// How many times the source's strips of row k lead to what they leave of a piece whose plural markers it strips so many times: behind a
// case marker it enters case markers and plural markers anew.
fn times_after(times: u8, k: u8) -> u8
    requires { times ≤ 2 }
    ensures { (result ≡ times_after times k) × (result ≤ 2) }
{
    match k {
        0..=1 => times,
        2..=17 => 2,
        _ => 1,
    }
}

impl<'a> Piece<'a> {
    // What a strip of row k, of this kind, leaves: the word's first `end` bytes, with one suffix more, nearest the stem.
    pub(crate) fn stripped(&self, end: usize, k: u8, kind: AffixKind, shared: bool) -> Piece<'a>
        requires { (end ≤ self.now.end) × (self.now.chain.count < most_strips) }
        ensures { Stripped self.now end (record { label = k; kind = kind; shared = shared }) result }
    {
        let progressive = has_supported_progressive_form(self.asked.sheet, &self.asked.word[..end]);
        let segment = Segment {
            label: k,
            kind,
            shared,
        };
        let [x, y, z, _] = self.chain.segments;
        let chain = Chain {
            segments: [segment, x, y, z],
            count: self.chain.count + 1,
        };
        Piece {
            asked: self.asked,
            surface: self.surface,
            end,
            chain,
            rows: rows_after(k),
            times: times_after(self.times, k),
            progressive,
        }
    }
}
