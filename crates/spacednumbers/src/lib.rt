// The numbers of a line, each after a space, with a minus where negative.
#![tactic(auto)]

ghost use Rattle.std.specs.Prelude.{◌+◌, ◌≤◌, pos, length};
ghost use Rattle.rules.specs.Text.{signed_decimal};
ghost use Rattle.rules.specs.Transcripts.{spaced};
ghost use Rattle.buffers.specs.Written.{Wrote};
ghost use Rattle.spacednumbers.specs.Rooms.{long_room, number_room};

use decimals::put_decimal;
use pieces::copies::put_byte;

fn put_signed(out: &mut [u8], at: usize, v: i16) -> usize
    requires { at + 21 ≤ length out.old }
    ensures { Wrote out.old at out.new result (signed_decimal v) }
{
    let n = u64::from(v.unsigned_abs());
    if v < 0 {
        let a = put_byte(out, at, b'-');
        return put_decimal(out, a, n);
    }
    put_decimal(out, at, n)
}

// A space and a number of any length.
pub fn put_long_number(out: &mut [u8], at: usize, n: u64) -> usize
    requires { at + long_room ≤ length out.old }
    ensures wrote { Wrote out.old at out.new result (spaced (pos n)) }
    ensures upper_bound { result ≤ at + long_room }
{
    let a = put_byte(out, at, b' ');
    put_decimal(out, a, n)
}

// A space and a number of 16 bits. Not one generic function: the two promise different room, which a trait would have to carry.
pub fn put_number(out: &mut [u8], at: usize, n: u16) -> usize
    requires { at + long_room ≤ length out.old }
    ensures wrote { Wrote out.old at out.new result (spaced (pos n)) }
    ensures upper_bound { result ≤ at + number_room }
{
    put_long_number(out, at, u64::from(n))
}

// A space and a signed number of 16 bits.
pub fn put_signed_number(out: &mut [u8], at: usize, v: i16) -> usize
    requires { at + long_room ≤ length out.old }
    ensures wrote { Wrote out.old at out.new result (spaced v) }
    ensures upper_bound { result ≤ at + number_room }
{
    let a = put_byte(out, at, b' ');
    put_signed(out, a, v)
}
