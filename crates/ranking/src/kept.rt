// Readings that a walk has collected, in rank order: as many as a list holds, or that there are more.
ghost use Rattle.std.specs.Prelude.{◌≡◌, [], MatchOption};
ghost use Rattle.std.specs.List.{position_or_len};
ghost use Rattle.ranking.specs.Lists.{Rows, over, plus};
ghost use Rattle.ranking.specs.Rank.{ahead_of};
ghost use Rattle.ranking.specs.Kept.{kept_rows};
ghost use Rattle.ranking.specs.Lists as lists;

use crate::{Reading, Readings, ahead};
use arrayvec::ArrayVec;
use std::marker::Model;

// The rows, or none where there are too many.
#[derive(Drop)]
pub struct Kept {
    rows: Option<Readings>,
}

impl Model for Kept {
    ghost Value = { Rows };

    ghost view = { λ k. kept_rows k.rows };
}

// The first row that r is ahead of, or how many there are where there is none.
fn place(word: &[u8], r: Reading, rows: &[Reading]) -> usize
    ensures { result ≡ position_or_len (ahead_of word.now r) rows.now }
{
    rows.iter()
        .position(|x| ahead(word, r, *x))
        .unwrap_or(rows.len())
}

impl Kept {
    // Nothing yet.
    pub fn new() -> Kept
        ensures { result ≡ lists.rows [] }
    {
        Kept {
            rows: Some(ArrayVec::new()),
        }
    }

    // Adds a reading of the word in its place by rank. Where the list is full, there are too many from then on.
    pub fn add(&mut self, word: &[u8], r: Reading)
        ensures { self.new ≡ plus word.now self.old r }
    {
        if let Some(rows) = &mut self.rows {
            if rows.is_full() {
                self.rows = None;
            } else {
                let at = place(word, r, rows.as_slice());
                rows.insert(at, r);
            }
        }
    }

    // The rows, or nothing where there are too many.
    pub fn rows(&self) -> Option<&Readings>
        ensures { MatchOption result (self.now ≡ over) (λ kept. self.now ≡ lists.rows kept.now.items) }
    {
        self.rows.as_ref()
    }
}
