// The lines of a letter whose names begin alike. They stand together, so that two searches by halves find the first and the last of
// them; a question whose name begins so is then sought among these alone, by what follows.
ghost use Rattle.std.specs.Prelude.{◌++◌, ◌≤◌, length};
ghost use Rattle.lookup.specs.Search.{Found};
ghost use Rattle.lookup.specs.Begins.{Begun, Edged, Ended};

use crate::lexicon::Lexicon;
use crate::search::halve;
use sheet::form::FormAt;
use std::cmp::Ordering;

// Lines of a sheet by their numbers: from `lo` on, before `hi`.
#[derive(Clone, Copy)]
pub struct Range {
    pub lo: usize,
    pub hi: usize,
}

// Where such lines can begin, and a number before which they end.
#[derive(Clone, Copy)]
pub(crate) struct Edge {
    pub lo: usize,
    pub top: usize,
}

impl Lexicon<'_> {
    // The first line that does not stand below all lines that begin so, and the nearest line seen above them.
    fn edge_of(&self, letter: u8, head: &[u8]) -> Edge
        ensures { Edged self.now.bytes.now self.now.starts.now letter head.now result }
    {
        let seen = halve(0, self.starts.len(), |i| {
            self.line(i).head_order(letter, head)
        });
        let top = seen.hi;
        let Some(one) = seen.found else {
            return Edge { lo: top, top };
        };
        let before = halve(seen.lo, one, |i| {
            self.line(i)
                .head_order(letter, head)
                .then(Ordering::Greater)
        });
        Edge { lo: before.lo, top }
    }

    // The first line from number `from` on, before number `to`, that stands above all lines that begin so; `to` if there is none.
    fn end_of(&self, letter: u8, head: &[u8], from: usize, to: usize) -> usize
        requires { (from ≤ to) × (to ≤ length self.now.starts.now) }
        ensures { Ended self.now.bytes.now self.now.starts.now letter head.now from to result }
    {
        let behind = halve(from, to, |i| {
            self.line(i).head_order(letter, head).then(Ordering::Less)
        });
        behind.hi
    }

    // The lines of the letter whose names begin with `head`.
    pub fn range_of(&self, letter: u8, head: &[u8]) -> Range
        ensures { Begun self.now.bytes.now self.now.starts.now letter head.now result }
    {
        let edge = self.edge_of(letter, head);
        let lo = edge.lo;
        let top = edge.top;
        let hi = self.end_of(letter, head, lo, top);
        Range { lo, hi }
    }

    // The line of the question (letter, the name that `p` and then `q` make) among the lines whose names begin with `p`: only what
    // follows is compared.
    pub(crate) fn seek_in(&self, range: Range, letter: u8, p: &[u8], q: &[u8]) -> Option<FormAt<'_>>
        requires { Begun self.now.bytes.now self.now.starts.now letter p.now range }
        ensures { Found self.now.bytes.now letter (p.now ++ q.now) result }
    {
        let seen = halve(range.lo, range.hi, |i| {
            self.line(i).order_behind(letter, p, q)
        });
        self.stopped(seen.found)
    }
}
