// The edits of a sheet in a lent buffer.
ghost use Rattle.std.specs.Prelude.{◌≡◌};
ghost use Rattle.corrected.specs.Answers.{put_of, put_left, withdraw_of, withdraw_left};
ghost use Rattle.exports.specs.Codes.{written_code};

use crate::written_code;
use corrected::entry::{put_line, withdraw_line};

// Puts the given line, with its 0A, into the sheet that has the first `used` bytes of the buffer, in the place of the line of the same first
// letter and name if there is one; the answer's value is the sheet's new length. Where it is refused, and the buffer is as it was: 4 to 6 for
// the used length and the sheet, 11 for a line that is no single form, 13 for a new length that passes the buffer or the sheet's limit. What
// stands behind the new length stays.
#[unsafe(no_mangle)]
pub extern "C" fn yunthirel_put_line(buffer: &mut [u8], used: usize, line: &[u8]) -> u64
    ensures { (result ≡ written_code (put_of buffer.old used line.now)) × (buffer.new ≡ put_left buffer.old used line.now) }
{
    written_code(put_line(buffer, used, line))
}

// Withdraws the line that has the given line's first letter and name from the sheet that has the first `used` bytes of the buffer; the
// answer's value is the sheet's new length. Where it is refused, and the buffer is as it was: 4 to 6 and 11 as of a line put, 12 where there
// is no such line. What stands behind the new length stays.
#[unsafe(no_mangle)]
pub extern "C" fn yunthirel_withdraw_line(buffer: &mut [u8], used: usize, line: &[u8]) -> u64
    ensures { (result ≡ written_code (withdraw_of buffer.old used line.now)) × (buffer.new ≡ withdraw_left buffer.old used line.now) }
{
    written_code(withdraw_line(buffer, used, line))
}
