// A reading for a stem and a root, where the root is supported.
ghost use Rattle.std.specs.Prelude.{◌≡◌, ◌≤◌};
ghost use Rattle.lookup.specs.Lexicons.{replies};
ghost use Rattle.ranking.specs.Lists.{plus_all};
ghost use Rattle.paths.specs.Chains.{most_prefixes};
ghost use Rattle.analysis.specs.Places.{root_found};

use crate::piece::Root;
use crate::support::{Support, is_supported, score, support_of};
use paths::Prefixes;
use ranking::Reading;
use ranking::kept::Kept;

// Keeps the reading of a root where it is supported. The stem is the piece that the walk is at.
pub(crate) fn with_root(root: &Root<'_>, prefixes: Prefixes, kept: &mut Kept)
    requires { prefixes.count ≤ most_prefixes }
    ensures { kept.new ≡ plus_all root.now.at.now.asked.now.word.now kept.old
        (root_found (replies root.now.at.now.asked.now.sheet.now) root.now.at.now.surface root.now.at.now.chain root.now.at.now.asked.now.word.now root.now.at.now.end root.now.start prefixes) }
{
    let at = root.at;
    let text = &at.asked.word[root.start..at.end];
    let s = support_of(at.asked.sheet, text, root.progressive);
    if !is_supported(s, text.len()) {
        return;
    }
    let chain = at.chain;
    let segments = chain.segments;
    let rows = prefixes.rows;
    let reading = Reading {
        stem: at.end as u16,
        root: root.start as u16,
        score: score(at.surface, s, prefixes.count, chain.count),
        prefixes: rows,
        segments,
        prefix_count: prefixes.count,
        suffix_count: chain.count,
    };
    kept.add(at.asked.word, reading);
}
