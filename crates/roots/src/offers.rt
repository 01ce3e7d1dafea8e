// What is offered as a candidate: the word, the decomposition, one suffix, one prefix row with none or one suffix. Each function keeps
// what it offers in the list.
ghost use Rattle.std.specs.Prelude.{◌≡◌, List, [], ◌∷◌, ◌+◌, ◌≤◌, length, drop, IfSome};
ghost use Rattle.lookup.specs.Lexicons.{replies};
ghost use Rattle.tables.specs.Rows.{prefix_forms};
ghost use Rattle.strips.specs.Suffix.{front as left_front, fronts};
ghost use Rattle.strips.proofs.Remainders.{Inside};
ghost use Rattle.decomposition.specs.Strips.{label_row, least_root, no_front};
ghost use Rattle.roots.specs.Lists.{root_limit};
ghost use Rattle.roots.specs.Candidates.{parts_among, one_suffix, bare, under_forms};
ghost use Rattle.roots.specs.Room.{held_of, held_all};

use crate::list::add;
use crate::{RootCandidate, Roots};
use decomposition::fronts::Front;
use decomposition::suffixes::{label_row, open_rests};
use decomposition::{Parts, least_root, parts_at, root_of};
use lookup::asked::Asked;
use origin::decide_origin;
use ranking::scores::score_for;
use strips::prefix::prefix_rest;
use strips::suffix::Rests;
use tables::{prefix_rows, suffix_rows};

// Parts are offered: their root is looked up, and kept where the sheet knows it.
fn offer(asked: &Asked<'_>, p: Parts, list: &mut Roots)
    requires { p.suffix_count ≤ 24 }
    ensures { list.new.items ≡ held_of root_limit (replies asked.now.sheet.now) asked.now.word.now list.old.items p }
{
    let root = root_of(asked.word, p);
    let letters = asked.sheet.letters_of(root, b"");
    if !letters.is_known() {
        return;
    }
    let prefixes = p.prefix_count();
    let decision = decide_origin(root, asked.sheet);
    let candidate = RootCandidate {
        score: score_for(
            letters.word,
            letters.head,
            false,
            prefixes,
            p.suffix_count,
            asked.surface,
        ),
        parts: p,
        origin: decision.origin,
        known_word: letters.word,
        known_headword: letters.head,
    };
    add(asked.word, list, candidate);
}

// What is asked of a word behind a front, which lies in the word.
#[derive(Clone, Copy)]
struct Behind<'a> {
    asked: Asked<'a>,
    front: Front,
    ghost inside: { front.from ≤ length asked.word.now },
}

impl Behind<'_> {
    // What stands behind the front.
    fn piece(&self) -> &[u8]
        ensures { result.now ≡ drop self.now.front.from self.now.asked.word.now }
    {
        &self.asked.word[self.front.from..]
    }

    // The front with no suffix.
    fn bare(&self) -> Parts
        ensures { result ≡ bare self.now.asked.word.now self.now.front }
    {
        parts_at(self.front, self.piece().len(), &[])
    }

    // What suffix row k has left of the piece, its first `left` bytes, is offered where it is there and has enough characters.
    fn offer_rest(&self, k: u8, left: Option<usize>, list: &mut Roots)
        requires { IfSome left (λ n. n ≤ length (drop self.now.front.from self.now.asked.word.now)) }
        ensures { list.new.items ≡ held_all root_limit (replies self.now.asked.sheet.now) self.now.asked.word.now list.old.items
            (parts_among (least_root self.now.front.prefix) self.now.front (label_row k ∷ [])
            (left_front (drop self.now.front.from self.now.asked.word.now) left)) }
    {
        let Some(len) = left else {
            return;
        };
        if text::characters::count(&self.piece()[..len]) < least_root(self.front.prefix) {
            return;
        }
        let p = parts_at(self.front, len, &[label_row(k)]);
        offer(&self.asked, p, list);
    }

    // The remainders of the piece under suffix row k.
    fn under_row(&self, k: u8, rests: Rests, list: &mut Roots)
        requires { Inside (drop self.now.front.from self.now.asked.word.now) rests }
        ensures { list.new.items ≡ held_all root_limit (replies self.now.asked.sheet.now) self.now.asked.word.now list.old.items
            (parts_among (least_root self.now.front.prefix) self.now.front (label_row k ∷ [])
            (fronts (drop self.now.front.from self.now.asked.word.now) rests)) }
    {
        self.offer_rest(k, rests.plain, list);
        self.offer_rest(k, rests.shared, list);
    }

    // One suffix.
    fn with_suffix(&self, list: &mut Roots)
        ensures { list.new.items ≡ held_all root_limit (replies self.now.asked.sheet.now) self.now.asked.word.now list.old.items
            (one_suffix (replies self.now.asked.sheet.now) self.now.asked.word.now self.now.front) }
    {
        let rows = suffix_rows();
        for (k, suffix) in rows.iter().enumerate() {
            let rests = open_rests(self.asked.sheet, self.piece(), suffix.as_bytes());
            self.under_row(k as u8, rests, list);
        }
    }

    // No suffix, then one.
    fn with_front(&self, list: &mut Roots)
        ensures { list.new.items ≡ held_all root_limit (replies self.now.asked.sheet.now) self.now.asked.word.now list.old.items
            (bare self.now.asked.word.now self.now.front
            ∷ one_suffix (replies self.now.asked.sheet.now) self.now.asked.word.now self.now.front) }
    {
        offer(&self.asked, self.bare(), list);
        self.with_suffix(list);
    }
}

// One prefix row with none or one suffix.
pub(crate) fn with_prefix(asked: &Asked<'_>, list: &mut Roots)
    ensures { list.new.items ≡ held_all root_limit (replies asked.now.sheet.now) asked.now.word.now list.old.items
        (under_forms (replies asked.now.sheet.now) asked.now.word.now 0 prefix_forms) }
{
    let rows = prefix_rows();
    for (k, row) in rows.iter().enumerate() {
        let Some(from) = prefix_rest(asked.word, row.1.as_bytes()) else {
            continue;
        };
        let front = Front {
            prefix: Some(k as u8),
            from,
        };
        let behind = Behind {
            asked: *asked,
            front,
        };
        behind.with_front(list);
    }
}

// The word and its decomposition, then one suffix.
pub(crate) fn with_word(asked: &Asked<'_>, p: Parts, list: &mut Roots)
    requires { p.suffix_count ≤ 24 }
    ensures { list.new.items ≡ held_all root_limit (replies asked.now.sheet.now) asked.now.word.now list.old.items
        (bare asked.now.word.now no_front ∷ p ∷ one_suffix (replies asked.now.sheet.now) asked.now.word.now no_front) }
{
    let behind = Behind {
        asked: *asked,
        front: Front::default(),
    };
    offer(asked, behind.bare(), list);
    offer(asked, p, list);
    behind.with_suffix(list);
}
