// Runs of bytes compared in place: equal, in order, at the front, at the end.
// Nothing is copied and nothing is joined. The crates above compare texts by these, but for three places: `sheet::keys` compares a name with
// a question in two parts byte by byte, and `tables::origins` and `roots::order` compare texts of the tables by the library's order, which is
// the one of `compare` (`proofs/Ordered.compared`).
#![tactic(auto)]

ghost use Rattle.std.specs.Prelude.{◌≡◌, ◌+◌, ◌≤◌, length};
ghost use Rattle.runs.specs.Runs.{same_text, cmp, begins_with, ends_in};
ghost use Rattle.runs.specs.Bytes.{index_of, slice};

use std::cmp::Ordering;

// Whether a and b are the same bytes.
pub fn same(a: &[u8], b: &[u8]) -> bool
    ensures { result ≡ same_text a.now b.now }
{
    a == b
}

// The order of a and b by their first byte that differs; a run stands before each longer one that it begins.
// It takes any two runs.
#[tactic(auto, using(crate::proofs::Ordered::compared))]
pub fn compare(a: &[u8], b: &[u8]) -> Ordering
    ensures { result ≡ cmp a.now b.now }
{
    a.cmp(&b)
}

// Whether head stands at the front of s. It takes any two runs, a head longer than s too.
#[tactic(auto, using(crate::proofs::Begins::begins_part))]
pub fn begins_with(s: &[u8], head: &[u8]) -> bool
    ensures { result ≡ begins_with head.now s.now }
{
    head.len() <= s.len() && head == &s[..head.len()]
}

// Whether s ends in tail. It compares from the last byte on, by which texts of one script differ most.
pub fn ends_with(s: &[u8], tail: &[u8]) -> bool
    ensures { result ≡ ends_in tail.now s.now }
{
    if s.len() < tail.len() {
        return false;
    }
    let end = &s[s.len() - tail.len()..];
    for k in (0..tail.len()).rev() {
        if end[k] != tail[k] {
            return false;
        }
    }
    true
}

// The place of the first byte b of s from `from` on, up to `to`, or `to` where there is none.
pub fn find(s: &[u8], from: usize, to: usize, b: u8) -> usize
    requires { (from ≤ to) × (to ≤ length s.now) }
    ensures { (result ≡ from + index_of b (slice from to s.now)) × (result ≤ to) }
{
    let part = &s[from..to];
    from + part.iter().position(|x| *x == b).unwrap_or(part.len())
}
