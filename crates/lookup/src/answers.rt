// What an accepted sheet replies to the questions that are asked of it: the letters of a name, the infinitive of a link, the
// kind of a suffix, and the place of a name.
ghost use Rattle.std.specs.Prelude.{◌≡◌, ◌++◌, Some};
ghost use Rattle.sheet.specs.Replies.{letters_told, letters_for};
ghost use Rattle.lookup.specs.Answers.{value_spot, told_at, SpotIn, ValueOf, NameOf, kind_for};

use crate::lexicon::Lexicon;
use runs::same;
use sheet::form::FormAt;
use sheet::letters::{Letters, read_letters};

// A part of the sheet: `len` bytes from byte `at` on.
#[derive(Clone, Copy)]
pub struct Spot {
    pub at: usize,
    pub len: usize,
}

// What a kind line of a sheet says of its suffix.
#[derive(Clone, Copy, Debug, PartialEq, Eq)]
pub enum SheetKind {
    Post,
    Comp,
}

// Where the value of a line stands.
fn value_spot(line: &FormAt<'_>) -> Spot
    ensures { (Some result ≡ value_spot line.now.sheet.now (Some line.now.at)) × SpotIn line.now.sheet.now (Some result) }
{
    let (from, to) = line.value_ends();
    Spot {
        at: from,
        len: to - from,
    }
}

// The letters of a line, none where there is no line.
pub(crate) fn letters_at(line: Option<FormAt<'_>>) -> Letters
    ensures { result ≡ letters_told (told_at line.entry) }
{
    match line {
        None => Letters {
            word: false,
            head: false,
            verb: false,
            pronoun: false,
            spelled: false,
            tag: None,
        },
        Some(line) => read_letters(line.value()),
    }
}

impl Lexicon<'_> {
    // Where the value of the line for `letter` and the name that `p` and then `q` make stands in the sheet, if it has that line.
    pub fn value_of(&self, letter: u8, p: &[u8], q: &[u8]) -> Option<Spot>
        ensures { ValueOf self.now.bytes.now letter (p.now ++ q.now) result }
    {
        let line = self.seek(letter, p, q).found?;
        Some(value_spot(&line))
    }

    // Where the name that `p` and then `q` make stands in its own `w` line, if it has one.
    pub fn spot_of(&self, p: &[u8], q: &[u8]) -> Option<Spot>
        ensures { NameOf self.now.bytes.now 0x77 (p.now ++ q.now) result }
    {
        let line = self.seek(b'w', p, q).found?;
        let (start, end) = line.name_ends();
        Some(Spot {
            at: start,
            len: end - start,
        })
    }

    // Where the infinitive of a link stands, if the sheet has a line for the link.
    pub fn link_of(&self, name: &[u8]) -> Option<Spot>
        ensures { ValueOf self.now.bytes.now 0x6C name.now result }
    {
        self.value_of(b'l', name, b"")
    }

    // The kind that the sheet gives a suffix, where it has a kind line for it.
    pub fn kind_of(&self, name: &[u8]) -> Option<SheetKind>
        ensures { result ≡ kind_for self.now.bytes.now name.now }
    {
        let line = self.seek(b'k', name, b"").found?;
        if same(line.value(), b"post") {
            Some(SheetKind::Post)
        } else {
            Some(SheetKind::Comp)
        }
    }

    // The letters of the name that `p` and then `q` make; none where it has no `w` line.
    pub fn letters_of(&self, p: &[u8], q: &[u8]) -> Letters
        ensures { result ≡ letters_for self.now.bytes.now (p.now ++ q.now) }
    {
        letters_at(self.seek(b'w', p, q).found)
    }
}
