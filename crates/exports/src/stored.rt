// Rows of bytes, as C reads them, stored in a lent buffer one after the other.
ghost use Rattle.std.specs.Prelude.{ℕ, List, ◌≡◌, ◌++◌, ◌*◌, ◌≤◌, length, drop};
ghost use Rattle.exports.specs.Rows.{rows_filled};

use crate::refusal_code;
use refusals::Refusal;

// What is stored as a row of bytes, all rows of a kind as wide.
pub(crate) trait Row: Copy {
    const WIDTH: usize;

    ghost WIDTH: { ℕ };

    ghost bytes: { Self → List ℕ };

    // Stores it at the front of the buffer.
    fn put(self, out: &mut [u8])
        requires { WIDTH ≤ length out.old }
        ensures { out.new ≡ bytes self ++ drop WIDTH out.old };

    ghost wide: { (x : Self) → length (bytes x) ≡ WIDTH };
}

// Rows one after the other at the front of the buffer, and their number; 8 where the buffer is too short.
pub(crate) fn put_rows<T: Row>(rows: &[T], out: &mut [u8]) -> u64
    requires { (length rows.now ≤ 65536) × (T.WIDTH * length rows.now ≤ 65536) }
    ensures { (result ≡ (rows_filled T.WIDTH T.bytes rows.now out.old).code)
        × (out.new ≡ (rows_filled T.WIDTH T.bytes rows.now out.old).buffer) }
{
    let n = rows.len();
    if out.len() < T::WIDTH * n {
        return refusal_code(Refusal::OutputTooShort);
    }
    for (i, &row) in rows.iter().enumerate() {
        row.put(&mut out[T::WIDTH * i..]);
    }
    256 * (n as u64)
}
