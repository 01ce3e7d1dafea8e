// The walk: suffixes stripped from the word's end, outermost first, and the readings of every stem on the way.
ghost use Rattle.std.specs.Prelude.{◌≡◌, ◌+◌, ◌-◌, ◌*◌, ◌≤◌, ◌<◌, [], length, take, get_or};
ghost use Rattle.runs.specs.Runs.{ends_in};
ghost use Rattle.tables.specs.Tables.{affixes};
ghost use Rattle.lookup.specs.Lexicons.{replies};
ghost use Rattle.ranking.specs.Lists.{plus_all};
ghost use Rattle.paths.specs.Chains.{all_rows, most_strips, rows_after};
ghost use Rattle.paths.specs.Readings.{group_kind, kind_of};
ghost use Rattle.paths.specs.Walk.{pushed_of, row_walk, piece_walk};
ghost use Rattle.paths.specs.Weighed.{times_after, entries_at, row_weighed, weighed};

use crate::piece::Piece;
use crate::prefixes::with_stem;
use lookup::answers::SheetKind;
use lookup::lexicon::Lexicon;
use paths::STRIPS;
use ranking::AffixKind;
use ranking::kept::Kept;
use runs::ends_with;
use strips::suffix::suffix_rests;
use tables::affix;

// The kind of a row's group: plural markers are rows 0 and 1, case markers 2 to 17, particles the rest.
fn group_kind(k: u8) -> AffixKind
    ensures { result ≡ group_kind k }
{
    match k {
        0..=1 => AffixKind::PluralMarker,
        2..=17 => AffixKind::CaseMarker,
        _ => AffixKind::Particle,
    }
}

// How often the source enters a piece that strips lead to so many times, of which these rows may be stripped next: again for each group.
fn entries(rows: u8, times: u8) -> u8
    requires { times ≤ 2 }
    ensures { (result ≡ entries_at rows times) × (result ≤ 6) }
{
    match rows {
        0 => times,
        1..=18 => 2 * times + 1,
        _ => 2 * times + 2,
    }
}

// So many entries, of which each counts `each`.
fn counted(entries: u8, each: usize) -> usize
    requires { (entries ≤ 6) × (each ≤ 8) }
    ensures { (result ≡ entries * each) × (result ≤ 48) }
{
    (entries as usize) * each
}

// The kind of a row: that of a kind line of the sheet, else that of its group.
#[tactic(auto, unfolding(lookup::specs::Answers::kind_for))]
fn kind_at(sheet: &Lexicon<'_>, k: u8) -> AffixKind
    ensures { result ≡ kind_of (replies sheet.now) k }
{
    match sheet.kind_of(affix(usize::from(k))) {
        None => group_kind(k),
        Some(SheetKind::Post) => AffixKind::Postposition,
        Some(SheetKind::Comp) => AffixKind::ComparisonMarker,
    }
}

// Whether the piece ends in the text of row k. Most do not, and then nothing more is asked.
fn ends(at: &Piece<'_>, k: u8) -> bool
    ensures { result ≡ ends_in (get_or affixes k []) (take at.now.end at.now.asked.now.word.now) }
{
    ends_with(&at.asked.word[..at.end], affix(usize::from(k)))
}

// The readings of a piece, with the suffixes stripped so far: those that take it for the stem, then those that strip one of the first
// `rows` rows and go on. It gives the number of the source's entries: it visits a piece once, and counts it as often as the source enters
// it.
#[cycle(below_visit)]
pub(crate) fn visit(at: &Piece<'_>, kept: &mut Kept) -> usize
    ensures { (kept.new ≡ plus_all at.now.asked.now.word.now kept.old
        (piece_walk (most_strips - at.now.chain.count) (replies at.now.asked.now.sheet.now) at.now.surface at.now.chain at.now.rows (take at.now.end at.now.asked.now.word.now)))
        × (result ≡ weighed (most_strips - at.now.chain.count) (replies at.now.asked.now.sheet.now) at.now.rows at.now.times (take at.now.end at.now.asked.now.word.now)) }
{
    let each = 1 + with_stem(at, kept);
    if at.progressive {
        return counted(at.times, each);
    }
    if STRIPS <= at.chain.count {
        return counted(at.times, each);
    }
    let mut v = counted(entries(at.rows, at.times), each);
    for k in 0..at.rows {
        if !ends(at, k) {
            continue;
        }
        v += below(at, k, kept);
    }
    v
}

// The readings that strip row k from the piece: what is left plain, then what is left shared, each with its mark.
#[cycle(below_visit)]
fn below(at: &Piece<'_>, k: u8, kept: &mut Kept) -> usize
    requires { at.now.chain.count < most_strips }
    ensures { (kept.new ≡ plus_all at.now.asked.now.word.now kept.old
        (row_walk (piece_walk (3 - at.now.chain.count) (replies at.now.asked.now.sheet.now) at.now.surface) (replies at.now.asked.now.sheet.now) at.now.chain (take at.now.end at.now.asked.now.word.now) k))
        × (result ≡ row_weighed (weighed (3 - at.now.chain.count) (replies at.now.asked.now.sheet.now)) at.now.times (take at.now.end at.now.asked.now.word.now) k) }
{
    let rests = suffix_rests(&at.asked.word[..at.end], affix(usize::from(k)));
    let Some(plain) = rests.plain else {
        return 0;
    };
    let kind = kind_at(at.asked.sheet, k);
    let next = at.stripped(plain, k, kind, false);
    let f = visit(&next, kept);
    let Some(shared) = rests.shared else {
        return f;
    };
    let other = at.stripped(shared, k, kind, true);
    f + visit(&other, kept)
}
