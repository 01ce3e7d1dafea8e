// The line of a question, sought by halves. A question is a first letter and a name in two parts, compared with the sheet's
// bytes where they stand.
ghost use Rattle.std.specs.Prelude.{ℕ, ◌≡◌, ◌++◌, ◌≤◌, ◌<◌, length, get_or, IfSome};
ghost use Rattle.std.specs.Option.{option_map};
ghost use Rattle.sheet.specs.Limits.{enough_rounds};
ghost use Rattle.lookup.specs.Search.{Found};
ghost use Rattle.lookup.specs.Halved.{Halves};

use crate::lexicon::Lexicon;
use sheet::form::FormAt;
use std::cmp::Ordering;

// What a search gives: the line that it found, and how many lines it compared.
#[derive(Clone, Copy)]
pub(crate) struct Search<'s> {
    pub found: Option<FormAt<'s>>,
    pub rounds: usize,
}

// What is left of numbers that are halved: those from `lo` on, before `hi`, among them the one at which the search stopped, or none; and
// how many were compared.
#[derive(Clone, Copy)]
pub(crate) struct Halved {
    pub lo: usize,
    pub hi: usize,
    pub found: Option<usize>,
    pub rounds: usize,
}

// The numbers from `first` on, before `end`, halved by how the middle one stands: up to one that stands equal, or to none.
pub(crate) fn halve<F: Fn(usize) -> Ordering>(first: usize, end: usize, order: F) -> Halved
    requires bounds { first ≤ end }
    requires callable { (i : ℕ) → first ≤ i → i < end → F.pre order i }
    ensures { Halves (F.post order) first end result }
{
    let mut lo = first;
    let mut hi = end;
    let mut rounds: usize = 0;
    while lo < hi {
        rounds += 1;
        let mid = lo + (hi - lo) / 2;
        match order(mid) {
            Ordering::Less => {
                lo = mid + 1;
            }
            Ordering::Equal => {
                return Halved {
                    lo,
                    hi,
                    found: Some(mid),
                    rounds,
                };
            }
            Ordering::Greater => {
                hi = mid;
            }
        }
    }
    Halved {
        lo,
        hi,
        found: None,
        rounds,
    }
}

impl Lexicon<'_> {
    // The line at which a search stopped, if it did.
    pub(crate) fn stopped(&self, found: Option<usize>) -> Option<FormAt<'_>>
        requires { IfSome found (λ i. i < length self.now.starts.now) }
        ensures places { option_map (λ l. l.at) result ≡ option_map (λ i. get_or self.now.starts.now i 0) found }
        ensures of_sheet { IfSome result (λ l. l.sheet.now ≡ self.now.bytes.now) }
    {
        Some(self.line(found?))
    }

    // The line of the question (letter, the name that `p` and then `q` make), and how many lines were compared: at most 13, one a round.
    pub(crate) fn seek(&self, letter: u8, p: &[u8], q: &[u8]) -> Search<'_>
        ensures { Found self.now.bytes.now letter (p.now ++ q.now) result.found × (result.rounds ≤ enough_rounds) }
    {
        let seen = halve(0, self.starts.len(), |i| self.line(i).order(letter, p, q));
        Search {
            found: self.stopped(seen.found),
            rounds: seen.rounds,
        }
    }
}
