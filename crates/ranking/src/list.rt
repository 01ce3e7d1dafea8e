// A list of rows that lies in the value itself and is copied with it: at most CAP of them, in order. A contract sees it as it sees an
// `ArrayVec`, which can't be copied: there the cells past the rows may hold anything, here they are blank, so that the rows say all.
ghost use Rattle.std.specs.Prelude.{◌≡◌, ◌+◌, ◌<◌, ◌≤◌, ◌==◌, ◌++◌, List, [], ◌∷◌, ⊤, length, take, insert};
ghost use Rattle.arrayvec.specs.ArrayVec.{array_vec_len};

use std::alloc::AllocError;
use std::marker::Model;

// What stands in a cell that is not used.
pub trait Blank: Copy {
    ghost blank_row: { Self };

    fn blank_row() -> Self
        ensures { result ≡ blank_row };
}

impl Blank for u8 {
    ghost blank_row = { 0 };

    fn blank_row() -> u8 {
        0
    }
}

// The first `len` cells are its rows, all others are blank.
#[derive(Copy, Drop)]
pub struct ArrayList<T: Blank, const CAP: usize> {
    cells: [T; CAP],
    len: usize,
}

impl<T: Blank, const CAP: usize> Model for ArrayList<T, CAP> {
    ghost use Rattle.std.specs.Prelude.{◌≡◌, ◌≤◌, ◌-◌, ◌++◌, length, take, drop, replicate};
    ghost use Rattle.arrayvec.specs.ArrayVec.{ArrayVec as Items, array_vec_code};

    ghost Value = { Items T };

    ghost coded = { array_vec_code T.code };

    ghost view = { λ v. record { items = take v.len v.cells } };

    ghost invariant = { λ v. (v.len ≤ CAP) × (length v.cells ≡ CAP) × (drop v.len v.cells ≡ replicate (CAP - v.len) T.blank_row) };

    ghost use Rattle.std.proofs.Common.{ℕ, arith, ap, sym, ◌∙◌, take-append-drop, length-take-le};

    ghost inverse = { λ s. record { cells = s.items ++ replicate (CAP - length s.items) T.blank_row; len = length s.items } };

    ghost inverse_ok = { λ s h i. record {
      cells = (ap (λ (k : ℕ). take s.len s.cells ++ replicate (CAP - k) T.blank_row) (length-take-le s.len s.cells (omega (arith, h.0, h.1)))
          ∙ ap (λ r. take s.len s.cells ++ r) (sym h.2) ∙ take-append-drop s.len s.cells) i;
      len = length-take-le s.len s.cells (omega (arith, h.0, h.1)) i;
    } };
}

impl<T: Blank, const CAP: usize> Clone for ArrayList<T, CAP> {
    ghost is_clone = { λ a b. a ≡ b };

    ghost is_infallible = { λ a. ⊤ };

    fn clone(&self) -> Result<Self, AllocError> {
        Ok(*self)
    }
}

impl<T: Blank, const CAP: usize> ArrayList<T, CAP> {
    // No rows.
    pub fn new() -> Self
        ensures { result.items ≡ [] }
    {
        ArrayList {
            cells: [T::blank_row(); CAP],
            len: 0,
        }
    }
}

impl<T: Blank, const CAP: usize> ArrayList<T, CAP> {
    // How many rows there are.
    #[inline]
    pub fn len(&self) -> usize
        ensures value { result ≡ array_vec_len self.now }
        ensures fits { result ≤ CAP }
    {
        self.len
    }

    // Whether no other row fits.
    #[inline]
    pub fn is_full(&self) -> bool
        ensures value { result ≡ (array_vec_len self.now == CAP) }
        ensures fits { array_vec_len self.now ≤ CAP }
    {
        self.len == CAP
    }

    // The rows.
    #[inline]
    pub fn as_slice(&self) -> &[T]
        ensures value { result.now ≡ self.now.items }
        ensures fits { length result.now ≤ CAP }
    {
        &self.cells[..self.len]
    }
}

impl<T: Blank, const CAP: usize> ArrayList<T, CAP> {
    // One row more, behind the others. There must be room.
    #[inline]
    pub fn push(&mut self, row: T)
        requires { array_vec_len self.old < CAP }
        ensures items { self.new.items ≡ self.old.items ++ row ∷ [] }
        ensures len { array_vec_len self.new ≡ array_vec_len self.old + 1 }
    {
        let len = self.len;
        self.cells[len] = row;
        self.len = len + 1;
    }

    // One row more, in front of that at `index`. There must be room.
    pub fn insert(&mut self, index: usize, row: T)
        requires in_bounds { index ≤ array_vec_len self.old }
        requires room { array_vec_len self.old < CAP }
        ensures items { self.new.items ≡ insert self.old.items index row }
        ensures len { array_vec_len self.new ≡ array_vec_len self.old + 1 }
    {
        self.push(row);
        let len = self.len;
        last_to(&mut self.cells[..len], index);
    }
}

// The last row is put in front of that at `index`.
fn last_to<T>(rows: &mut [T], index: usize)
    requires { index < length rows.old }
    ensures { (front : List T) (last : T) → rows.old ≡ front ++ last ∷ [] → rows.new ≡ insert front index last }
{
    rows[index..].rotate_right(1);
}
