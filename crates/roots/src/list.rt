// The list of candidates by value: at most 16, in rank order, each root with its labels once.
ghost use Rattle.std.specs.Prelude.{◌≡◌};
ghost use Rattle.std.specs.List.{position_or_len};
ghost use Rattle.roots.specs.Rank.{ahead_of};
ghost use Rattle.roots.specs.Lists.{holds_in, root_limit};
ghost use Rattle.roots.specs.Room.{once_within};

use crate::order::{key_order, rank};
use crate::{RootCandidate, Roots};
use decomposition::Parts;

// Whether candidate a comes before b.
#[tactic(auto, unfolding(crate::specs::Rank::ahead_of))]
fn ahead(word: &[u8], a: RootCandidate, b: RootCandidate) -> bool
    ensures { result ≡ ahead_of word.now a b }
{
    rank(word, a, b).is_lt()
}

// Whether some row has this root, these prefixes and these suffixes.
fn holds(word: &[u8], rows: &[RootCandidate], p: Parts) -> bool
    ensures { result ≡ holds_in word.now p rows.now }
{
    rows.iter().any(|row| key_order(word, p, row.parts).is_eq())
}

// The first row that r is ahead of, or how many there are where there is none.
fn place(word: &[u8], rows: &[RootCandidate], r: RootCandidate) -> usize
    ensures { result ≡ position_or_len (ahead_of word.now r) rows.now }
{
    rows.iter()
        .position(|x| ahead(word, r, *x))
        .unwrap_or(rows.len())
}

// Adds a candidate in its place by rank, where the list has none with the same root and labels and is not full.
pub(crate) fn add(word: &[u8], list: &mut Roots, r: RootCandidate)
    ensures { list.new.items ≡ once_within root_limit word.now r list.old.items }
{
    if holds(word, list.as_slice(), r.parts) || list.is_full() {
        return;
    }
    let at = place(word, list.as_slice(), r);
    list.insert(at, r);
}
