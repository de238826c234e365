// What is written into lent buffers: the laws of the writes, and the digits of a number in any base.
#![tactic(auto)]

ghost use Rattle.std.specs.Prelude.{◌≡◌, ◌+◌, ◌<◌, ◌≤◌, length};
ghost use Rattle.buffers.specs.Digits.{digits_in};
ghost use Rattle.buffers.specs.Written.{Wrote};

// The lowest `width` digits of a number in a base, the highest first; `ZERO` is the byte of the digit 0.
pub fn put_digits<const BASE: u64, const ZERO: u64>(
    out: &mut [u8],
    at: usize,
    width: usize,
    n: u64,
) -> usize
    requires base { (0 < BASE) × (ZERO + BASE ≤ 256) }
    requires room { at + width ≤ length out.old }
    ensures wrote { Wrote out.old at out.new result (digits_in BASE ZERO width n) }
    ensures value { result ≡ at + width }
{
    let mut rest = n;
    for left in (0..width).rev() {
        out[at + left] = (ZERO + rest % BASE) as u8;
        rest /= BASE;
    }
    at + width
}
