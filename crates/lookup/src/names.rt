// The words of a sheet whose names begin with a head: what is asked of them is sought among their lines alone.
ghost use Rattle.std.specs.Prelude.{◌≡◌, ◌++◌};
ghost use Rattle.sheet.specs.Replies.{letters_for};
ghost use Rattle.lookup.specs.Begins.{Begun};

use crate::answers::letters_at;
use crate::begins::Range;
use crate::lexicon::Lexicon;
use sheet::letters::Letters;

// A head, and the `w` lines of the names that begin with it.
#[derive(Clone, Copy)]
pub struct Names<'a> {
    pub sheet: &'a Lexicon<'a>,
    pub head: &'a [u8],
    pub range: Range,
    ghost begun: { Begun sheet.now.bytes.now sheet.now.starts.now 0x77 head.now range },
}

impl Names<'_> {
    // The letters of the name that the head and then `q` make; none where it has no `w` line.
    pub fn letters_of(&self, q: &[u8]) -> Letters
        ensures { result ≡ letters_for self.now.sheet.now.bytes.now (self.now.head.now ++ q.now) }
    {
        letters_at(self.sheet.seek_in(self.range, b'w', self.head, q))
    }
}
