// How a line of the sheet stands to a question, or to another line: by the first letter, then by the name. A question's name is in two
// parts, compared with the sheet's bytes where they stand: nothing is copied and nothing is joined. The check of a sheet and every search
// compare by these functions alone.
ghost use Rattle.std.specs.Prelude.{◌≡◌, ◌++◌};
ghost use Rattle.runs.specs.Runs.{cmp};
ghost use Rattle.std.specs.declared.cmp.Ordering.TheVariants.{Equal};
ghost use Rattle.sheet.specs.Keys.{spaced, headed};

use std::cmp::Ordering;

// How the name at the front of `t`, up to its space, stands to all names that begin with `p`: equal if it is one of them.
// It takes any two runs.
pub(crate) fn along(t: &[u8], p: &[u8]) -> Ordering
    ensures { result ≡ headed (spaced t.now) p.now }
{
    let mut name = t;
    for y in p {
        let [b, rest @ ..] = name else {
            return Ordering::Less;
        };
        if *b == b' ' {
            return Ordering::Less;
        }
        if b != y {
            return b.cmp(y);
        }
        name = rest;
    }
    Ordering::Equal
}

// The order of the name at the front of `t`, up to its space, and `q`.
// It takes any two runs.
fn name_order(t: &[u8], q: &[u8]) -> Ordering
    ensures { result ≡ cmp (spaced t.now) q.now }
{
    match along(t, q) {
        Ordering::Equal => match t.get(q.len()) {
            None => Ordering::Equal,
            Some(b' ') => Ordering::Equal,
            Some(_) => Ordering::Greater,
        },
        unequal => unequal,
    }
}

// The order of the name at the front of `t`, up to its space, and the name that `p` and then `q` make, where the name is known to begin
// with `p`: only what follows is compared.
pub(crate) fn rest_order(t: &[u8], p: &[u8], q: &[u8]) -> Ordering
    requires { headed (spaced t.now) p.now ≡ Equal }
    ensures { result ≡ cmp (spaced t.now) (p.now ++ q.now) }
{
    let n = p.len();
    name_order(&t[n..], q)
}

// The order of the name at the front of `t`, up to its space, and the name that `p` and then `q` make.
// It takes any three runs.
pub(crate) fn parts_order(t: &[u8], p: &[u8], q: &[u8]) -> Ordering
    ensures { result ≡ cmp (spaced t.now) (p.now ++ q.now) }
{
    match along(t, p) {
        Ordering::Equal => rest_order(t, p, q),
        unequal => unequal,
    }
}
