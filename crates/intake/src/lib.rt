// What a program is given: the bytes that a reader has left, up to a number of them.
#![tactic(auto)]

ghost use Rattle.std.specs.Prelude.{◌≡◌, IfOk, IfSome, take};

use std::alloc::Global;
use std::io;
use std::io::Read;

// The first bytes that the reader has left, at most so many.
pub fn read_at_most<R: Read + Drop>(alloc: Global, reader: R, most: u64) -> io::Result<Vec<u8>>
    ensures { IfOk result (λ read. IfSome (R.remaining reader) (λ xs. read.items ≡ take most xs)) }
{
    let mut read = Vec::new(alloc);
    reader.take(most).read_to_end(&mut read)?;
    Ok(read)
}
