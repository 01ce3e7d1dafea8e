// The edits of a sheet in a lent buffer.
ghost use Rattle.std.specs.Prelude.{◌≡◌};
ghost use Rattle.corrected.specs.Answers.{put_of, put_left, withdraw_of, withdraw_left};

use crate::place::find_line;
use crate::splice::replace;
use refusals::Refusal;
use sheet::limits::SHEET_BYTES;

// Puts the given line into the sheet that has the first `used` bytes of the buffer, in the place of the line of the same first letter and
// name if there is one, and gives the sheet's new length. Refused, and the buffer left as it was: a used length beyond the buffer or a sheet
// over its limit (4), a faulty sheet (5 or 6), a given line that is no single form with its 0A (11), a new length that passes the buffer or
// the sheet's limit (13). What stands behind the new length stays.
pub fn put_line(buffer: &mut [u8], used: usize, line: &[u8]) -> Result<usize, Refusal>
    ensures { (result ≡ put_of buffer.old used line.now) × (buffer.new ≡ put_left buffer.old used line.now) }
{
    let span = find_line(buffer, used, line)?;
    let size = span.from + line.len() + (used - span.to);
    if buffer.len() < size || SHEET_BYTES < size {
        return Err(Refusal::NoRoom);
    }
    replace(buffer, span.from, span.to, used, line);
    Ok(size)
}

// Withdraws the line that has the given line's first letter and name from the sheet that has the first `used` bytes of the buffer, and gives
// the sheet's new length. Refused, and the buffer left as it was: 4, 5, 6 and 11 as of a line put, and where there is no such line (12).
// What stands behind the new length stays.
pub fn withdraw_line(buffer: &mut [u8], used: usize, line: &[u8]) -> Result<usize, Refusal>
    ensures { (result ≡ withdraw_of buffer.old used line.now) × (buffer.new ≡ withdraw_left buffer.old used line.now) }
{
    let span = find_line(buffer, used, line)?;
    if span.to <= span.from {
        return Err(Refusal::NothingToWithdraw);
    }
    replace(buffer, span.from, span.to, used, b"");
    Ok(span.from + (used - span.to))
}
