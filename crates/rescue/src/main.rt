// Document 02 (m)'s program: standard input is a torn sheet; the kept one goes to standard output, the report to standard error. A sheet
// over its limit is refused on standard error, with nothing on standard output. The report is written part by part, since it can be far
// longer than the sheet.
#![tactic(auto)]

ghost use Rattle.std.specs.Prelude.{IfSome, OnOk};
ghost use Rattle.std.specs.Io.KnownBytes.{Appends};
ghost use Rattle.rescued.specs.Stretches.{report_of};
ghost use Rattle.rescue.specs.Printed.{kept_printed, report_told};

use intake::read_at_most;
use refusals::Refusal;
use rescued::part::Torn;
use sheet::limits::SHEET_BYTES;
use std::alloc::Global;
use std::io;
use std::io::{Read, Write};
use writing::{Printed, Writer};

// The report of a sheet, part by part.
fn report<W: Write>(told: &mut W, torn: &Torn<'_>) -> io::Result<()>
    ensures { OnOk result (Appends (W.contents told.old) (W.contents told.new) (report_of torn.now.sheet.now)) }
{
    let mut out = [0u8; 4096];
    let mut rest = torn.report();
    while !rest.is_over() {
        let part = rest.put_part(&mut out);
        told.write_all(&out[..part.size])?;
        rest = part.rest;
    }
    Ok(())
}

// Writes what is kept of the sheet that a reader has left, and tells what was dropped.
fn answer<R: Read + Drop, K: Write, T: Write>(
    alloc: Global,
    sheet: R,
    kept: &mut K,
    told: &mut T,
) -> io::Result<()>
    ensures keeps { OnOk result (IfSome (R.remaining sheet) (λ s. Appends (K.contents kept.old) (K.contents kept.new) (kept_printed s))) }
    ensures tells { OnOk result (IfSome (R.remaining sheet) (λ s. Appends (T.contents told.old) (T.contents told.new) (report_told s))) }
{
    let sheet = read_at_most(alloc, sheet, SHEET_BYTES as u64 + 1)?;
    let mut out = [0u8; SHEET_BYTES];
    if SHEET_BYTES < sheet.len() {
        let mut w = Writer::new(&mut out);
        Refusal::SheetTooLong.put(&mut w);
        return told.write_all(w.written());
    }
    let torn = Torn { sheet: &sheet };
    let size = torn.put_kept(&mut out);
    kept.write_all(&out[..size])?;
    report(told, &torn)
}

fn main(rt: HostRuntime) -> io::Result<()> {
    answer(rt.alloc(), rt.stdin(), &mut rt.stdout(), &mut rt.stderr())
}
