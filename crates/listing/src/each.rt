// The elements of a list, put one after the other, each by what is told to put it.
ghost use Rattle.std.specs.Prelude.{ℕ, List, ◌≡◌, map};
ghost use Rattle.writing.specs.Refused.{gap, parted};
ghost use Rattle.writing.specs.Writers.{with_text};
ghost use Rattle.paths.specs.Recomposed.{in_row};
ghost use Rattle.listing.specs.Each.{Puts};

use writing::Writer;

// Puts a space, but not before the first text.
fn put_gap(w: &mut Writer, i: usize)
    ensures { w.new ≡ with_text w.old (gap i) }
{
    if 0 < i {
        w.put(b" ");
    }
}

// Puts the elements, parted by one space.
pub(crate) fn put_parted<T: Copy, F: Fn(&mut Writer, T)>(w: &mut Writer, xs: &[T], put: F)
    requires { F.IsAlwaysCallable put }
    ensures { (text : T → List ℕ) → Puts (F.post put) text → w.new ≡ with_text w.old (parted (map text xs.now)) }
{
    for (i, &x) in xs.iter().enumerate() {
        put_gap(w, i);
        put(w, x);
    }
}

// Puts the elements with nothing between.
pub(crate) fn put_each<T: Copy, F: Fn(&mut Writer, T)>(w: &mut Writer, xs: &[T], put: F)
    requires { F.IsAlwaysCallable put }
    ensures { (text : T → List ℕ) → Puts (F.post put) text → w.new ≡ with_text w.old (in_row (map text xs.now)) }
{
    for &x in xs {
        put(w, x);
    }
}
