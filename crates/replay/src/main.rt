// Replays the oracle's fixed list of acceptance answers (oracle/fixed/acceptance.cases, the file stdin beside src) and writes one
// line a case, which must be the oracle's (acceptance.answers, the file stdout): 0, a number, or a number and a line's first byte.
#![tactic(auto)]

use blocks::first_case;
use refusals::Refusal;
use sheet::check::check_sheet;
use std::io;
use std::io::{BufWriter, Read, Write};
use text::word::check_word;

// What is said of a word and a sheet: the word is checked first.
fn said_of(word: &[u8], sheet: &[u8]) -> Result<(), Refusal> {
    check_word(word)?;
    Ok(check_sheet(sheet)?)
}

// Writes it.
fn say<W: Write>(out: &mut W, said: Result<(), Refusal>) -> io::Result<()> {
    match said {
        Ok(()) => writeln!(out, "0"),
        Err(refusal) => match refusal.place() {
            Some(at) => writeln!(out, "{} {at}", refusal.number()),
            None => writeln!(out, "{}", refusal.number()),
        },
    }
}

fn replay<W: Write>(out: &mut W, s: &[u8]) -> io::Result<()> {
    let mut rest = s;
    while let Some(case) = first_case(rest) {
        say(out, said_of(case.word, case.sheet))?;
        rest = case.rest;
    }
    Ok(())
}

fn main(rt: HostRuntime) -> io::Result<()> {
    let mut cases = Vec::new(rt.alloc());
    rt.stdin().read_to_end(&mut cases)?;
    let mut out = BufWriter::new(rt.alloc(), rt.stdout())?;
    replay(&mut out, &cases)?;
    out.flush()
}
