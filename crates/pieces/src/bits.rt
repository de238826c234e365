// Bits as digits.
ghost use Rattle.std.specs.Prelude.{◌≡◌, ◌+◌, ◌≤◌, length};
ghost use Rattle.rules.specs.Transcripts.{bit_digits};
ghost use Rattle.buffers.specs.Written.{Wrote};

use buffers::put_digits;

// The nine lowest bits, the lowest of them last.
pub fn put_bits(out: &mut [u8], at: usize, bits: u16) -> usize
    requires { at + 9 ≤ length out.old }
    ensures wrote { Wrote out.old at out.new result (bit_digits 9 bits) }
    ensures value { result ≡ at + 9 }
{
    put_digits::<2, 48>(out, at, 9, u64::from(bits))
}
