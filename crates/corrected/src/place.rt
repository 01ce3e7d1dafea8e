// Where a given line stands in the sheet, or would stand: the sheet is checked once and the place is found by halves.
ghost use Rattle.std.specs.Prelude.{◌≡◌, take};
ghost use Rattle.sheet.specs.Forms.{key_of};
ghost use Rattle.corrected.specs.Answers.{of_line, opening_of};
ghost use Rattle.corrected.specs.Spans.{Spanned, given_of, Opens};

use lookup::lexicon::Lexicon;
use lookup::lines::with_lexicon;
use refusals::Refusal;
use sheet::walk::Walk;
use std::cmp::Ordering;

// The bytes of a line in the sheet: from its first byte up to behind its 0A. Of a line that is not there, the place where it would stand.
#[derive(Clone, Copy)]
pub(crate) struct Span {
    pub from: usize,
    pub to: usize,
}

// A given line that is a single form with its 0A: its first letter, and where its name ends.
#[derive(Clone, Copy)]
pub(crate) struct Given {
    pub letter: u8,
    pub name_end: usize,
}

// Reads a given line, as the first of a sheet; nothing where it is no single form.
fn read_given(line: &[u8]) -> Option<Given>
    ensures { result ≡ given_of line.now }
{
    let Ok(Some(form)) = (Walk { at: 0, last: None }).step(line) else {
        return None;
    };
    if form.next.at < line.len() {
        return None;
    }
    Some(Given {
        letter: form.letter,
        name_end: form.name_end,
    })
}

// Where the line of a first letter and a name stands.
fn span_of(sheet: &Lexicon<'_>, letter: u8, name: &[u8]) -> Span
    ensures { Spanned sheet.now.bytes.now (key_of letter name.now) result }
{
    let i = sheet.range_of(letter, name).lo;
    if sheet.starts.len() <= i {
        return Span {
            from: sheet.bytes.len(),
            to: sheet.bytes.len(),
        };
    }
    let line = sheet.line(i);
    match line.order(letter, name, b"") {
        Ordering::Equal => Span {
            from: line.at,
            to: line.value_ends().1 + 3,
        },
        _ => Span {
            from: line.at,
            to: line.at,
        },
    }
}

// What is found for a given line in an accepted sheet: where it stands, or that it is no single form.
fn find_in_lines(sheet: &Lexicon<'_>, line: &[u8]) -> Result<Span, Refusal>
    ensures { Opens (of_line line.now) sheet.now.bytes.now line.now result }
{
    let given = read_given(line).ok_or(Refusal::NoSingleForm)?;
    Ok(span_of(sheet, given.letter, &line[3..given.name_end]))
}

// What is found for an edit in the first `used` bytes of a buffer: where the line stands, or why the edit is refused before that is asked.
pub(crate) fn find_line(buf: &[u8], used: usize, line: &[u8]) -> Result<Span, Refusal>
    ensures { Opens (opening_of buf.now used line.now) (take used buf.now) line.now result }
{
    if buf.len() < used {
        return Err(Refusal::SheetTooLong);
    }
    with_lexicon(&buf[..used], |lexicon| find_in_lines(lexicon, line))?
}
