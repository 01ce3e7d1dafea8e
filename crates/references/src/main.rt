// Document 02 (k)'s program: standard input is a sheet; printed is the report of what its lines refer to, or one line with the number of
// the refusal. The sheet is read one byte past its limit, so that too long a one is told from the longest.
#![tactic(auto)]

ghost use Rattle.std.specs.Prelude.{OnOk, IfSome};
ghost use Rattle.std.specs.Io.KnownBytes.{Appends};
ghost use Rattle.referred.specs.Answers.{printed};

use intake::read_at_most;
use referred::whole::answer_of;
use std::alloc::Global;
use std::io;
use std::io::{Read, Write};

// Writes what is said of the sheet that a reader has left.
fn answer<R: Read + Drop, W: Write>(alloc: Global, sheet: R, told: &mut W) -> io::Result<()>
    ensures { OnOk result (IfSome (R.remaining sheet) (λ s. Appends (W.contents told.old) (W.contents told.new) (printed s))) }
{
    let sheet = read_at_most(alloc, sheet, 65537)?;
    let mut out = [0u8; 65549];
    let size = answer_of(&sheet, &mut out);
    told.write_all(&out[..size])
}

fn main(rt: HostRuntime) -> io::Result<()> {
    answer(rt.alloc(), rt.stdin(), &mut rt.stdout())
}
