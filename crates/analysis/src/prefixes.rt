// The readings of a stem: taken for the root itself, then with one prefix stripped, and two.
ghost use Rattle.std.specs.Prelude.{◌≡◌, ◌≤◌, [], ◌∷◌, take};
ghost use Rattle.runs.specs.Runs.{begins_with};
ghost use Rattle.tables.specs.Rows.{prefix_forms};
ghost use Rattle.lookup.specs.Lexicons.{replies};
ghost use Rattle.ranking.specs.Lists.{plus_all};
ghost use Rattle.paths.specs.Walk.{root_walk, on_left, over_forms, second_walk, stem_walk};
ghost use Rattle.paths.specs.Chains.{all_forms, form_of};
ghost use Rattle.paths.specs.Visits.{total, prefix_visits};
ghost use Rattle.strips.specs.Prefix.{prefix_remainder};
ghost use Rattle.analysis.specs.Places.{between};

use crate::fronts::may_begin;
use crate::piece::{Piece, Root};
use crate::roots::with_root;
use paths::{FORMS, Prefixes};
use progressive::find::has_supported_progressive_form;
use ranking::kept::Kept;
use runs::begins_with;
use strips::prefix::prefix_rest;
use tables::prefix_form;

// Whether a text begins with the form of row k. Most do not, and then nothing more is asked.
fn begins(text: &[u8], k: u8) -> bool
    ensures { result ≡ begins_with (form_of k) text.now }
{
    begins_with(text, prefix_form(usize::from(k)))
}

// What prefixes leave of a piece: what stands in it from byte `start` of the word on.
fn root_at<'a>(at: &'a Piece<'a>, start: usize) -> Root<'a>
    requires { start ≤ at.now.end }
    ensures { (result.at.now ≡ at.now) × (result.start ≡ start) }
{
    let progressive = has_supported_progressive_form(at.asked.sheet, &at.asked.word[start..at.end]);
    Root {
        at,
        start,
        progressive,
    }
}

// One row for the second prefix, behind the first. Each function of this walk gives how many entries of the source's prefix walk it
// counted.
fn second_row(behind: &Root<'_>, first: u8, second: u8, kept: &mut Kept) -> usize
    ensures { (kept.new ≡ plus_all behind.now.at.now.asked.now.word.now kept.old
        (on_left (root_walk (replies behind.now.at.now.asked.now.sheet.now) behind.now.at.now.surface behind.now.at.now.chain (take behind.now.at.now.end behind.now.at.now.asked.now.word.now) (first ∷ second ∷ []))
        (prefix_remainder (between behind.now.at.now.asked.now.word.now behind.now.start behind.now.at.now.end) (form_of second))))
        × (result ≡ total (prefix_visits 0 (replies behind.now.at.now.asked.now.sheet.now)) (prefix_remainder (between behind.now.at.now.asked.now.word.now behind.now.start behind.now.at.now.end) (form_of second))) }
{
    let at = behind.at;
    let rest = prefix_rest(
        &at.asked.word[behind.start..at.end],
        prefix_form(usize::from(second)),
    );
    match rest {
        None => 0,
        Some(cut) => {
            let start = behind.start + cut;
            let root = root_at(at, start);
            let prefixes = Prefixes {
                rows: [first, second],
                count: 2,
            };
            with_root(&root, prefixes, kept);
            1
        }
    }
}

// All rows for the second prefix, behind the first.
fn second_rows(behind: &Root<'_>, first: u8, kept: &mut Kept) -> usize
    ensures { (kept.new ≡ plus_all behind.now.at.now.asked.now.word.now kept.old
        (over_forms (λ second left. root_walk (replies behind.now.at.now.asked.now.sheet.now) behind.now.at.now.surface behind.now.at.now.chain (take behind.now.at.now.end behind.now.at.now.asked.now.word.now) (first ∷ second ∷ []) left)
        (between behind.now.at.now.asked.now.word.now behind.now.start behind.now.at.now.end) 0 all_forms))
        × (result ≡ total (λ form. total (prefix_visits 0 (replies behind.now.at.now.asked.now.sheet.now)) (prefix_remainder (between behind.now.at.now.asked.now.word.now behind.now.start behind.now.at.now.end) form)) prefix_forms) }
{
    let text = &behind.at.asked.word[behind.start..behind.at.end];
    let mut v: usize = 0;
    for k in 0..FORMS {
        if !begins(text, k) {
            continue;
        }
        v += second_row(behind, first, k, kept);
    }
    v
}

// One row for the first prefix: its own reading, and, where what it leaves is no progressive form, those of a second prefix.
fn first_row(at: &Piece<'_>, first: u8, kept: &mut Kept) -> usize
    ensures { (kept.new ≡ plus_all at.now.asked.now.word.now kept.old
        (on_left (second_walk (replies at.now.asked.now.sheet.now) at.now.surface at.now.chain (take at.now.end at.now.asked.now.word.now) first)
        (prefix_remainder (take at.now.end at.now.asked.now.word.now) (form_of first))))
        × (result ≡ total (prefix_visits 1 (replies at.now.asked.now.sheet.now)) (prefix_remainder (take at.now.end at.now.asked.now.word.now) (form_of first))) }
{
    let rest = prefix_rest(&at.asked.word[..at.end], prefix_form(usize::from(first)));
    match rest {
        None => 0,
        Some(start) => {
            let root = root_at(at, start);
            let prefixes = Prefixes {
                rows: [first, 0],
                count: 1,
            };
            with_root(&root, prefixes, kept);
            if root.progressive {
                return 1;
            }
            if !may_begin(&at.asked.word[start..at.end]) {
                return 1;
            }
            1 + second_rows(&root, first, kept)
        }
    }
}

// All rows for the first prefix.
fn first_rows(at: &Piece<'_>, kept: &mut Kept) -> usize
    ensures { (kept.new ≡ plus_all at.now.asked.now.word.now kept.old
        (over_forms (second_walk (replies at.now.asked.now.sheet.now) at.now.surface at.now.chain (take at.now.end at.now.asked.now.word.now)) (take at.now.end at.now.asked.now.word.now) 0 all_forms))
        × (result ≡ total (λ form. total (prefix_visits 1 (replies at.now.asked.now.sheet.now)) (prefix_remainder (take at.now.end at.now.asked.now.word.now) form)) prefix_forms) }
{
    let text = &at.asked.word[..at.end];
    let mut v: usize = 0;
    for k in 0..FORMS {
        if !begins(text, k) {
            continue;
        }
        v += first_row(at, k, kept);
    }
    v
}

// The readings that take the piece for the stem. A supported progressive form is never stripped.
pub(crate) fn with_stem(at: &Piece<'_>, kept: &mut Kept) -> usize
    ensures { (kept.new ≡ plus_all at.now.asked.now.word.now kept.old (stem_walk (replies at.now.asked.now.sheet.now) at.now.surface at.now.chain (take at.now.end at.now.asked.now.word.now)))
        × (result ≡ prefix_visits 2 (replies at.now.asked.now.sheet.now) (take at.now.end at.now.asked.now.word.now)) }
{
    let whole = Root {
        at,
        start: 0,
        progressive: at.progressive,
    };
    with_root(&whole, Prefixes::default(), kept);
    if at.progressive {
        return 1;
    }
    if !may_begin(&at.asked.word[..at.end]) {
        return 1;
    }
    1 + first_rows(at, kept)
}
