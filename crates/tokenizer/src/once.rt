// The tokens of a text in one pass, for a caller whose own list it is.
ghost use Rattle.std.specs.Prelude.{◌≡◌, length};
ghost use Rattle.tokenizer.specs.Answers.{tokenized};
ghost use Rattle.tokenizer.specs.Stored.{passed};

use crate::walk::pass;
use refusals::Refusal;

// The tokens of the text, in a list of the caller's own: start and end of each, one after the other. One pass over the text, which
// writes as it goes: where anything but 9 is refused, the list holds the tokens that were passed, as many as there was room for.
pub fn tokenize_in(text: &[u8], list: &mut [u32]) -> Result<usize, Refusal>
    ensures { (result ≡ tokenized text.now (length list.old))
        × (list.new ≡ passed text.now list.old) }
{
    let count = pass(text, list)?;
    if list.len() < 2 * count {
        return Err(Refusal::ListTooShort);
    }
    Ok(count)
}
