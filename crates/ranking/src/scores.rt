// The score of a root with its affixes, which readings and root candidates share.
ghost use Rattle.std.specs.Prelude.{◌≡◌, ◌≤◌};
ghost use Rattle.ranking.specs.Scores.{points, score_for};

// n where b holds, else nothing.
#[tactic(auto, unfolding(crate::specs::Scores::points))]
fn points_for(b: bool, n: u16) -> u16
    ensures { (result ≡ points b n) × (result ≤ n) }
{
    if b { n } else { 0 }
}

// The score of a root that is known by w, by h and with a text appended, or not, behind so many prefixes and before so many suffixes,
// in a surface of so many characters.
pub fn score_for(
    word: bool,
    head: bool,
    sibling: bool,
    prefixes: u8,
    suffixes: u8,
    surface: u16,
) -> u16
    requires { (prefixes ≤ 2) × (suffixes ≤ 24) × (surface ≤ 192) }
    ensures { result ≡ score_for word head sibling prefixes suffixes surface }
{
    let word = points_for(word, 100);
    let head = points_for(head, 150);
    let sibling = points_for(sibling, 60);
    let any = points_for(0 < prefixes + suffixes, 10);
    word + head + sibling + 20 * (prefixes as u16) + 15 * (suffixes as u16) + any + surface
}
