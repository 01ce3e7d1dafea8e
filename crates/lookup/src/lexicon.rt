// An accepted sheet with the first byte of each of its lines: what every question is asked of. `lines::check_lines` stores the list of any
// sheet that is accepted; whoever has such a list from elsewhere can make a lexicon too.
ghost use Rattle.std.specs.Prelude.{◌≡◌, ◌<◌, length, get_or};
ghost use Rattle.sheet.specs.Replies.{Indexed};

use crate::starts::Start;
use sheet::form::FormAt;

// The bytes of an accepted sheet, and the first byte of each of its lines.
#[derive(Clone, Copy)]
pub struct Lexicon<'s> {
    pub bytes: &'s [u8],
    pub starts: &'s [Start],
    ghost indexed: { Indexed bytes.now starts.now },
}

impl Lexicon<'_> {
    // Line number i.
    pub fn line(&self, i: usize) -> FormAt<'_>
        requires { i < length self.now.starts.now }
        ensures { (result.sheet.now ≡ self.now.bytes.now) × (result.at ≡ get_or self.now.starts.now i 0) }
    {
        let at = usize::from(self.starts[i]);
        FormAt {
            sheet: self.bytes,
            at,
        }
    }
}
