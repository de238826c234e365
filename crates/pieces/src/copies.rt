// Bytes copied into a lent buffer.
ghost use Rattle.std.specs.Prelude.{◌∷◌, [], ◌+◌, ◌<◌, ◌≤◌, length};
ghost use Rattle.buffers.specs.Written.{Wrote};

pub fn put_byte(out: &mut [u8], at: usize, b: u8) -> usize
    requires { at < length out.old }
    ensures { Wrote out.old at out.new result (b ∷ []) }
{
    out[at] = b;
    at + 1
}

pub fn put(out: &mut [u8], at: usize, text: &[u8]) -> usize
    requires { at + length text.now ≤ length out.old }
    ensures { Wrote out.old at out.new result text.now }
{
    let end = at + text.len();
    out[at..end].copy_from_slice(text);
    end
}
