// Request (n)'s program, `visits SHEET`: the sheet by its path, and words on standard input, one a line and as many as there are; printed is
// a line for each with the number of pieces visited, or with its refusal; for a refused sheet its refusal alone. The sheet is checked
// once. Words are read stretch by stretch, and a sheet one byte past the limit, so that too long a one is told from the longest. A path
// that can't be read is told on standard error, and then nothing is printed.
#![tactic(auto)]

ghost use Rattle.std.specs.Prelude.{ℕ, List, [], ◌++◌, IfSome, OnOk};
ghost use Rattle.std.specs.Io.KnownBytes.{Appends, Consumes, IsAtEnd};
ghost use Rattle.refusals.specs.Refusals.{numbers_of};
ghost use Rattle.sheet.specs.Inputs.{Placed};
ghost use Rattle.writing.specs.Refused.{refused_text};
ghost use Rattle.visits.specs.Printed.{lines_of, unended, last_line, printed};

use crate::lines::{put_last, put_lines};
use arrayvec::ArrayVec;
use intake::read_at_most;
use lookup::lexicon::Lexicon;
use lookup::lines::lexicon_of;
use lookup::starts::Start;
use refusals::Refusal;
use sheet::limits::ALL_STARTS;
use std::io::{ErrorKind, Read, Write};
use std::rt::Files;
use std::{env, fs, io};
use writing::{Printed, Writer};

pub mod lines;

// Prints the line of a refusal.
fn say_refused<W: Write>(told: &mut W, refusal: Refusal) -> io::Result<()>
    ensures { Placed refusal → OnOk result (Appends (W.contents told.old) (W.contents told.new) (refused_text (numbers_of refusal))) }
{
    let mut out = [0u8; 64];
    let mut w = Writer::new(&mut out);
    refusal.put(&mut w);
    told.write_all(w.written())
}

// Prints the lines of all words that a reader has left. A proved loop has to end, and nothing says that an input does: so its turns are
// counted, up to a number that no run uses up. Where they end, the words are those that were read, and the last one's line is printed too.
fn answer_all<R: Read, W: Write>(words: &mut R, told: &mut W, sheet: &Lexicon<'_>) -> io::Result<()>
    ensures read { OnOk result ((read : List ℕ) × Consumes (R.remaining words.old) (R.remaining words.new) read
        × Appends (W.contents told.old) (W.contents told.new) (lines_of sheet.now.bytes.now [] read ++ last_line sheet.now.bytes.now (unended [] read))) }
    ensures all { OnOk result (IsAtEnd (R.remaining words.new) → IfSome (R.remaining words.old) (λ input.
        Appends (W.contents told.old) (W.contents told.new) (lines_of sheet.now.bytes.now [] input ++ last_line sheet.now.bytes.now (unended [] input)))) }
{
    let mut word = ArrayVec::new();
    let mut text = [0u8; 4096];
    let mut out = [0u8; 65536];
    for _ in 0..u64::MAX {
        match words.read(&mut text) {
            Ok(0) => break,
            Ok(n) => {
                let mut w = Writer::new(&mut out);
                put_lines(&mut w, &mut word, &text[..n], sheet);
                told.write_all(w.written())?;
            }
            Err(error) if error.kind() == ErrorKind::Interrupted => {}
            Err(error) => return Err(error),
        }
    }
    let mut w = Writer::new(&mut out);
    put_last(&mut w, word.as_slice(), sheet);
    told.write_all(w.written())
}

// Checks the sheet, and goes on to the words where it is accepted.
fn answer<R: Read, W: Write>(words: &mut R, told: &mut W, sheet: &[u8]) -> io::Result<()>
    ensures read { OnOk result ((read : List ℕ) × Consumes (R.remaining words.old) (R.remaining words.new) read
        × Appends (W.contents told.old) (W.contents told.new) (printed sheet.now read)) }
    ensures all { OnOk result (IsAtEnd (R.remaining words.new) → IfSome (R.remaining words.old) (λ input.
        Appends (W.contents told.old) (W.contents told.new) (printed sheet.now input))) }
{
    let mut starts: [Start; ALL_STARTS] = [0; ALL_STARTS];
    match lexicon_of(sheet, &mut starts) {
        Err(fault) => say_refused(told, Refusal::from(fault)),
        Ok(lexicon) => answer_all(words, told, &lexicon),
    }
}

// The sheet of a path, to its end, or one byte past the limit.
fn read_sheet<R: Files + AllocGlobal>(rt: &R, path: &str) -> io::Result<Vec<u8>> {
    read_at_most(rt.alloc(), fs::open(rt, path)?, 65537)
}

fn main(rt: HostRuntime) -> io::Result<()> {
    let mut given = env::args(&rt)?.skip(1);
    let (Some(path), None) = (given.next(), given.next()) else {
        return rt.stderr().write_all(
            b"usage: visits SHEET, with words on standard input, one a line\n",
        );
    };
    match read_sheet(&rt, path.as_str()) {
        Ok(sheet) => answer(&mut rt.stdin(), &mut rt.stdout(), &sheet),
        Err(error) => eprintln!(rt; "{path}: {error}"),
    }
}
