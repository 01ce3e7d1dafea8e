// Request (a)'s program: standard input is a text; printed is a line with the number of its tokens, then a line for each with its first
// byte and the byte behind its last, or one line with the number of the refusal. The text is read one byte past the limit, so that too
// long a one is told from the longest.
#![tactic(auto)]

ghost use Rattle.std.specs.Prelude.{OnOk, IfSome};
ghost use Rattle.std.specs.Io.KnownBytes.{Appends};
ghost use Rattle.tokens.specs.Printed.{printed};

use intake::read_at_most;
use std::alloc::Global;
use std::io;
use std::io::{Read, Write};

pub mod lines;

// Writes the lines of the tokens of the text that a reader has left.
fn answer<R: Read + Drop, W: Write>(alloc: Global, text: R, told: &mut W) -> io::Result<()>
    ensures { OnOk result (IfSome (R.remaining text) (λ s. Appends (W.contents told.old) (W.contents told.new) (printed s))) }
{
    let text = read_at_most(alloc, text, 65537)?;
    let mut list = [0u32; 32768];
    let mut out = [0u8; 262157];
    let size = lines::answer_of(&text, &mut list, &mut out);
    told.write_all(&out[..size])
}

fn main(rt: HostRuntime) -> io::Result<()> {
    answer(rt.alloc(), rt.stdin(), &mut rt.stdout())
}
