// Words out of running text: the tokens of a text, by their first byte and the byte behind their last.
#![tactic(auto)]

ghost use Rattle.std.specs.Prelude.{◌≡◌, length};
ghost use Rattle.tokenizer.specs.Answers.{tokenized, listed};

use crate::walk::{pass, walk};
use refusals::Refusal;

pub mod once;
mod parting;
mod seen;
mod walk;

// The tokens of the text, in a lent list: start and end of each, one after the other; what is given is how many there are. Refused is a
// text over 65,536 bytes (9), one that is not UTF-8 (2), and a list that is too short (10). What stands past the tokens is left, and all
// of it where anything is refused: so the pass that checks writes to a list of its own, and only where that is too short is there another.
// Too long a text is refused before that list is cleared.
pub fn tokenize(text: &[u8], list: &mut [u32]) -> Result<usize, Refusal>
    ensures { (result ≡ tokenized text.now (length list.old))
        × (list.new ≡ listed text.now list.old) }
{
    if 65536 < text.len() {
        return Err(Refusal::TextTooLong);
    }
    let mut own = [0u32; 1024];
    let count = pass(text, &mut own)?;
    if list.len() < 2 * count {
        return Err(Refusal::ListTooShort);
    }
    if count <= 512 {
        list[..2 * count].copy_from_slice(&own[..2 * count]);
    } else {
        walk(text, list);
    }
    Ok(count)
}
