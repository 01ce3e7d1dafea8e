// Bytes of a buffer put in the place of others: what an edit does to the buffer.
ghost use Rattle.std.specs.Prelude.{◌≡◌, ◌++◌, ◌+◌, ◌-◌, ◌≤◌, length, take, drop};

// Puts a text in the place of the bytes from byte `from` up to byte `to` of the first `used`: what stands behind them is moved once.
pub(crate) fn replace(buf: &mut [u8], from: usize, to: usize, used: usize, text: &[u8])
    requires { (from ≤ to) × (to ≤ used) × (used ≤ length buf.old) × (from + length text.now + (used - to) ≤ length buf.old) }
    ensures { buf.new ≡ (take from buf.old ++ (text.now ++ take (used - to) (drop to buf.old))) ++ drop (from + length text.now + (used - to)) buf.old }
{
    let end = from + text.len();
    buf.copy_within(to..used, end);
    buf[from..end].copy_from_slice(text);
}
