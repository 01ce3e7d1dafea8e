// The tokens of a text as lines.
ghost use Rattle.std.specs.Prelude.{ℕ, List, ◌≡◌};
ghost use Rattle.tokenizer.specs.Answers.{listed};
ghost use Rattle.writing.specs.Placed.{Whole};
ghost use Rattle.tokens.specs.Printed.{printed};
ghost use Rattle.tokens.specs.Lines.{list_text};

use tokenizer::tokenize;
use writing::{Printed, Writer, put_front};

// Tokens as `tokenize` stores them: start and end of each, one after the other.
#[derive(Drop)]
struct Tokens<'l> {
    list: &'l [u32],
}

// Their number, and a line for each.
impl Printed for Tokens<'_> {
    ghost text = { λ t. list_text t.list.now };

    #[tactic(auto, using(std::proofs::lemmas::Grind::common_steps, crate::proofs::Rows::lines_turn, crate::proofs::Rows::lines_end), unfolding(crate::specs::Lines::list_text, crate::specs::Printed::token_line))]
    fn put(&self, w: &mut Writer) {
        w.put(b"(list ");
        w.put_decimal(self.list.len() / 2);
        w.put(b")\n");
        for span in self.list.chunks_exact(2) {
            w.put(b"(t ");
            w.put_decimal(span[0] as usize);
            w.put(b" ");
            w.put_decimal(span[1] as usize);
            w.put(b")\n");
        }
    }
}

// Writes what the program prints for the text at the front of a buffer of 262,157 bytes, which is always long enough, and gives how long
// it is. `list` takes the tokens on the way, as `tokenize` fills it.
pub fn answer_of(text: &[u8], list: &mut [u32; 32768], out: &mut [u8; 262157]) -> usize
    ensures { Whole (printed text.now) out.old out.new result × (list.new ≡ listed text.now list.old) }
{
    match tokenize(text, list) {
        Ok(count) => {
            let list = &list[..2 * count];
            put_front(&Tokens { list }, out)
        }
        Err(refusal) => put_front(&refusal, out),
    }
}
