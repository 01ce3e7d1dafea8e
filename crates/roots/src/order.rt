// The rank of two candidates of one word, and whether they are the same root, prefixes and suffixes.
ghost use Rattle.std.specs.Prelude.{◌≡◌, map, take};
ghost use Rattle.runs.specs.Runs.{cmp};
ghost use Rattle.text.specs.Characters.{chars};
ghost use Rattle.decomposition.specs.Parts.{root_text};
ghost use Rattle.tables.specs.Rows.{suffixes};
ghost use Rattle.roots.specs.Rank.{descending, text_of, cmp_texts, prefix_texts, suffix_texts, key_order, rank_of};

use crate::RootCandidate;
use decomposition::{Parts, root_of};
use runs::compare;
use std::cmp::Ordering;
use tables::{prefix_label, suffix};

// The order of two suffix labels, given by their rows.
fn label_order(a: u8, b: u8) -> Ordering
    ensures { result ≡ cmp (text_of suffixes a) (text_of suffixes b) }
{
    compare(suffix(usize::from(a)), suffix(usize::from(b)))
}

// The order of two lists of suffix labels, given by their rows, label by label; a list stands before each longer one that it begins.
fn compare_labels(a: &[u8], b: &[u8]) -> Ordering
    ensures { result ≡ cmp_texts (map (text_of suffixes) a.now) (map (text_of suffixes) b.now) }
{
    a.iter()
        .zip(b.iter())
        .map(|(x, y)| label_order(*x, *y))
        .find(|order| order.is_ne())
        .unwrap_or(a.len().cmp(&b.len()))
}

// The labels of parts that suffixes were stripped for, by their rows.
fn suffix_rows_of(p: &Parts) -> &[u8]
    ensures { result.now ≡ take p.now.suffix_count p.now.suffixes }
{
    let n = p.suffix_count as usize;
    &p.suffixes[..n.min(p.suffixes.len())]
}

// The order of two lists of suffix labels.
fn suffix_order(a: Parts, b: Parts) -> Ordering
    ensures { result ≡ cmp_texts (suffix_texts a) (suffix_texts b) }
{
    compare_labels(suffix_rows_of(&a), suffix_rows_of(&b))
}

// The order of two lists of prefix labels, each of one or none.
fn prefix_order(a: Parts, b: Parts) -> Ordering
    ensures { result ≡ cmp_texts (prefix_texts a) (prefix_texts b) }
{
    a.prefix
        .map(|k| prefix_label(usize::from(k)))
        .cmp(&b.prefix.map(|k| prefix_label(usize::from(k))))
}

// The order of two roots by their characters: the longer one first.
fn length_order(word: &[u8], a: Parts, b: Parts) -> Ordering
    ensures { result ≡ descending (chars (root_text word.now a)) (chars (root_text word.now b)) }
{
    let n = text::characters::count(root_of(word, a));
    let m = text::characters::count(root_of(word, b));
    m.cmp(&n)
}

// The order of two roots with their labels: root bytes, prefix labels, suffix labels. They stand alike only where all three are the
// same.
pub(crate) fn key_order(word: &[u8], a: Parts, b: Parts) -> Ordering
    ensures { result ≡ key_order word.now a b }
{
    let root = compare(root_of(word, a), root_of(word, b));
    root.then_with(|| prefix_order(a, b))
        .then_with(|| suffix_order(a, b))
}

// The rank of two candidates of the word: Less where the first comes first.
pub(crate) fn rank(word: &[u8], a: RootCandidate, b: RootCandidate) -> Ordering
    ensures { result ≡ rank_of word.now a b }
{
    b.score
        .cmp(&a.score)
        .then_with(|| b.known_headword.cmp(&a.known_headword))
        .then_with(|| b.known_word.cmp(&a.known_word))
        .then_with(|| length_order(word, a.parts, b.parts))
        .then_with(|| key_order(word, a.parts, b.parts))
}
