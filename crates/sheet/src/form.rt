// A line of a sheet that is a form: where its name and its value stand, and how it stands to a question.
ghost use Rattle.std.specs.Prelude.{◌≡◌, true, ◌++◌, ◌+◌, drop};
ghost use Rattle.runs.specs.Runs.{cmp};
ghost use Rattle.std.specs.declared.cmp.Ordering.TheVariants.{Equal};
ghost use Rattle.sheet.specs.Forms.{is_form, key, key_of};
ghost use Rattle.sheet.specs.Lines.{line_at};
ghost use Rattle.sheet.specs.Steps.{name_end, value_end};
ghost use Rattle.sheet.specs.Keys.{headed};

use crate::keys::{along, parts_order, rest_order};
use runs::find;
use std::cmp::Ordering;

// The form that begins at byte `at` of a sheet.
#[derive(Clone, Copy)]
pub struct FormAt<'s> {
    pub sheet: &'s [u8],
    pub at: usize,
    ghost form: { is_form (drop at sheet.now) ≡ true },
}

impl FormAt<'_> {
    // Its first letter.
    pub fn letter(&self) -> u8
        ensures { result ≡ (line_at self.now.sheet.now self.now.at).letter }
    {
        self.sheet[self.at + 1]
    }

    // The sheet from the line's name on.
    fn from_name(&self) -> &[u8]
        ensures { result.now ≡ drop (self.now.at + 3) self.now.sheet.now }
    {
        &self.sheet[self.at + 3..]
    }

    // Where its name begins, and where it ends.
    pub fn name_ends(&self) -> (usize, usize)
        ensures { (result.0 ≡ self.now.at + 3) × (result.1 ≡ name_end self.now.sheet.now self.now.at) }
    {
        let from = self.at + 3;
        (from, find(self.sheet, from, self.sheet.len(), b' '))
    }

    // Where its value begins, and where it ends.
    pub fn value_ends(&self) -> (usize, usize)
        ensures { (result.0 ≡ name_end self.now.sheet.now self.now.at + 2) × (result.1 ≡ value_end self.now.sheet.now self.now.at) }
    {
        let from = self.name_ends().1 + 2;
        (from, find(self.sheet, from, self.sheet.len(), b')'))
    }

    // Its name.
    pub fn name(&self) -> &[u8]
        ensures { result.now ≡ (line_at self.now.sheet.now self.now.at).name }
    {
        let (from, to) = self.name_ends();
        &self.sheet[from..to]
    }

    // Its value.
    pub fn value(&self) -> &[u8]
        ensures { result.now ≡ (line_at self.now.sheet.now self.now.at).value }
    {
        let (from, to) = self.value_ends();
        &self.sheet[from..to]
    }

    // The order of the line and the question (letter, the name that `p` and then `q` make).
    pub fn order(&self, letter: u8, p: &[u8], q: &[u8]) -> Ordering
        ensures { result ≡ cmp (key (line_at self.now.sheet.now self.now.at)) (key_of letter (p.now ++ q.now)) }
    {
        let name = self.from_name();
        self.letter()
            .cmp(&letter)
            .then_with(|| parts_order(name, p, q))
    }

    // How the line stands to all lines of the letter whose names begin with `head`: equal if it is one of them.
    pub fn head_order(&self, letter: u8, head: &[u8]) -> Ordering
        ensures { result ≡ headed (key (line_at self.now.sheet.now self.now.at)) (key_of letter head.now) }
    {
        let own = self.from_name();
        self.letter().cmp(&letter).then_with(|| along(own, head))
    }

    // The order of the line and the question, where the line is one of the letter whose name begins with `p`.
    pub fn order_behind(&self, letter: u8, p: &[u8], q: &[u8]) -> Ordering
        requires { headed (key (line_at self.now.sheet.now self.now.at)) (key_of letter p.now) ≡ Equal }
        ensures { result ≡ cmp (key (line_at self.now.sheet.now self.now.at)) (key_of letter (p.now ++ q.now)) }
    {
        rest_order(self.from_name(), p, q)
    }
}
