// Decompositions and root candidates, stored in a lent buffer of bytes.
ghost use Rattle.std.specs.Prelude.{◌≡◌, refl, ◌++◌, ◌≤◌, length, drop};
ghost use Rattle.exports.specs.Filled.{parts_bytes, morpheme_bytes, candidate_bytes, stored, decompose_filled, candidate_width, candidates_filled};

use crate::stored::{Row, put_rows};
use crate::{origin_number, refusal_code};
use decomposition::entries::decompose;
use decomposition::{Morpheme, Parts};
use refusals::Refusal;
use roots::RootCandidate;
use roots::entries::lookup_root_candidates;

// Parts and four bytes more, at the front of the buffer.
fn put_parts(p: Parts, more: [u8; 4], out: &mut [u8])
    requires { 33 ≤ length out.old }
    ensures { out.new ≡ parts_bytes p more ++ drop 33 out.old }
{
    let front = [
        p.start,
        p.end,
        p.prefix.unwrap_or(0),
        p.prefix_count(),
        p.suffix_count,
    ];
    out[..5].copy_from_slice(&front);
    out[5..9].copy_from_slice(&more);
    out[9..33].copy_from_slice(&p.suffixes);
}

// A candidate: its parts, origin, whether it is known, and score.
impl Row for RootCandidate {
    const WIDTH: usize = 33;

    ghost WIDTH = { candidate_width };

    ghost bytes = { candidate_bytes };

    ghost wide = { λ c. refl };

    fn put(self, out: &mut [u8]) {
        let origin = origin_number(self.origin);
        let known = u8::from(self.known_word) + 2 * u8::from(self.known_headword);
        let score = self.score.to_le_bytes();
        put_parts(self.parts, [origin, known, score[0], score[1]], out);
    }
}

// The word's root candidates in rank order, 33 bytes each, at the front of the buffer, and their number. Where nothing is stored, and
// `out` is as it was: the refusal, 8 for a buffer with less than 33 bytes for each. 528 bytes are always enough.
#[unsafe(no_mangle)]
pub extern "C" fn yunthirel_candidates(word: &[u8], sheet: &[u8], out: &mut [u8]) -> u64
    ensures { (result ≡ (candidates_filled word.now sheet.now out.old).code)
        × (out.new ≡ (candidates_filled word.now sheet.now out.old).buffer) }
{
    match lookup_root_candidates(word, sheet) {
        Err(refusal) => refusal_code(refusal),
        Ok(list) => put_rows(list.as_slice(), out),
    }
}

// A decomposition, at the front of the buffer; 8 where the buffer is too short.
fn put_morpheme(m: Morpheme, out: &mut [u8]) -> u64
    ensures { (result ≡ (stored 0 (morpheme_bytes m) out.old).code) × (out.new ≡ (stored 0 (morpheme_bytes m) out.old).buffer) }
{
    if out.len() < 33 {
        return refusal_code(Refusal::OutputTooShort);
    }
    let origin = origin_number(m.origin);
    put_parts(m.parts, [origin, 0, 0, 0], out);
    0
}

// The word's decomposition, stored at the front of the buffer. Handed back are the code of a refusal, 8 for a buffer of less than 33
// bytes, or 0.
#[unsafe(no_mangle)]
pub extern "C" fn yunthirel_decompose(word: &[u8], sheet: &[u8], out: &mut [u8]) -> u64
    ensures { (result ≡ (decompose_filled word.now sheet.now out.old).code)
        × (out.new ≡ (decompose_filled word.now sheet.now out.old).buffer) }
{
    match decompose(word, sheet) {
        Err(refusal) => refusal_code(refusal),
        Ok(m) => put_morpheme(m, out),
    }
}
