// The words of a text.
ghost use Rattle.std.specs.Prelude.{◌≡◌, length};
ghost use Rattle.tokenizer.specs.Answers.{tokenized, listed};
ghost use Rattle.exports.specs.Codes.{written_code};

use crate::written_code;
use tokenizer::tokenize;

// The tokens of the text in the list, first byte and byte behind the last of each; the answer's value is how many there are. Where nothing
// is written, and the list is as it was: the refusal, 9, 2 or 10. 32,768 numbers are always enough.
#[unsafe(no_mangle)]
pub extern "C" fn yunthirel_tokens(text: &[u8], list: &mut [u32]) -> u64
    ensures { (result ≡ written_code (tokenized text.now (length list.old)))
        × (list.new ≡ listed text.now list.old) }
{
    written_code(tokenize(text, list))
}
