// Bytes into a lent buffer. Each function here and above takes the whole buffer and a place, for it writes into any buffer that it is lent.
ghost use Rattle.std.specs.Prelude.{◌∷◌, [], ◌<◌, ◌≤◌, ◌+◌, length};
ghost use Rattle.print.specs.Put.{Wrote};

pub fn put_byte(buf: &mut [u8], at: usize, b: u8) -> usize
    requires { at < length buf.old }
    ensures { Wrote buf.old at (b ∷ []) buf.new result }
{
    buf[at] = b;
    at + 1
}

// `s` is a byte string at each call, so that the copy, inlined, becomes a few wide stores.
pub fn put_bytes(buf: &mut [u8], at: usize, s: &[u8]) -> usize
    requires { at + length s.now ≤ length buf.old }
    ensures { Wrote buf.old at s.now buf.new result }
{
    let end = at + s.len();
    buf[at..end].copy_from_slice(s);
    end
}
