// Replays the oracle's fixed list of readings. The file stdin beside src is oracle/fixed/list.cases, and then a word of 192 bytes and one
// of 193; for each case is printed what `readings` prints for its word and sheet, which must be the lines of oracle/fixed/list.answers that
// begin with a parenthesis, and then what the oracle prints for the two words (the file stdout).
#![tactic(auto)]

use blocks::first_case;
use listing::whole::readings_of;
use std::io;
use std::io::{Read, Write};

fn replay<W: Write>(printed: &mut W, s: &[u8]) -> io::Result<()> {
    let mut out = [0u8; 65536];
    let mut rest = s;
    while let Some(case) = first_case(rest) {
        let n = readings_of(case.word, case.sheet, &mut out);
        printed.write_all(&out[..n])?;
        rest = case.rest;
    }
    Ok(())
}

fn main(rt: HostRuntime) -> io::Result<()> {
    let mut cases = Vec::new(rt.alloc());
    rt.stdin().read_to_end(&mut cases)?;
    replay(&mut rt.stdout(), &cases)
}
