// Document 01's program: standard input is the word up to the first 0A, then the sheet; printed is the list of the word's readings, or
// one line with the number of the refusal. An input is read one byte past the limit, so that too long a one is told from the longest.
#![tactic(auto)]

ghost use Rattle.std.specs.Prelude.{OnOk, IfSome};
ghost use Rattle.std.specs.Io.KnownBytes.{Appends};
ghost use Rattle.listing.specs.Printed.{printed};

use intake::read_at_most;
use listing::whole::answer_of;
use std::alloc::Global;
use std::io;
use std::io::{Read, Write};

// Writes the list of readings for the word and the sheet that a reader has left.
fn answer<R: Read + Drop, W: Write>(alloc: Global, input: R, told: &mut W) -> io::Result<()>
    ensures { OnOk result (IfSome (R.remaining input) (λ s. Appends (W.contents told.old) (W.contents told.new) (printed s))) }
{
    let input = read_at_most(alloc, input, 65537)?;
    let mut out = [0u8; 65536];
    let size = answer_of(&input, &mut out);
    told.write_all(&out[..size])
}

fn main(rt: HostRuntime) -> io::Result<()> {
    answer(rt.alloc(), rt.stdin(), &mut rt.stdout())
}
