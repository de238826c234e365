// Spec 9.1: the fields of an image, each written to its place in a lent buffer, high byte first.
#![tactic(auto)]

ghost use Rattle.std.specs.Prelude.{◌≡◌, [], ◌∷◌, map, ◌+◌, ◌≤◌, length};
ghost use Rattle.buffers.specs.Written.{Wrote};
ghost use Rattle.rules.specs.Images.{field, field_bytes, twos_complement};

use rules::Board;

// One field at a place, a number in so many bytes, its last byte first; the place after it.
pub fn put_field(out: &mut [u8], at: usize, width: usize, value: u32) -> usize
    requires { at + width ≤ length out.old }
    ensures wrote { Wrote out.old at out.new result (field_bytes (field width value ∷ [])) }
    ensures value { result ≡ at + width }
{
    let mut left = width;
    let mut rest = value;
    while 0 < left {
        left -= 1;
        out[at + left] = (rest % 256) as u8;
        rest /= 256;
    }
    at + width
}

// The nine counters of a record, in four bytes each.
pub fn put_counters(out: &mut [u8], at: usize, b: Board) -> usize
    requires { at + 36 ≤ length out.old }
    ensures wrote { Wrote out.old at out.new result (field_bytes (map (field 4) b.counters)) }
    ensures value { result ≡ at + 36 }
{
    let mut place = at;
    let mut i = 0;
    while i < 9 {
        place = put_field(out, place, 4, b.counters[i]);
        i += 1;
    }
    place
}

// A signed number's bits: -1 is 65535.
fn twos_complement(v: i16) -> u16
    ensures { result ≡ twos_complement v }
{
    let wide = v as i32;
    if wide < 0 {
        return (65536 + wide) as u16;
    }
    wide as u16
}

// Watts and vars, in two bytes each.
pub fn put_powers(out: &mut [u8], at: usize, watts: u16, vars: i16) -> usize
    requires { at + 4 ≤ length out.old }
    ensures wrote { Wrote out.old at out.new result (field_bytes (field 2 watts ∷ field 2 (twos_complement vars) ∷ [])) }
    ensures value { result ≡ at + 4 }
{
    let active = watts as u32;
    let reactive = twos_complement(vars) as u32;
    let place = put_field(out, at, 2, active);
    put_field(out, place, 2, reactive)
}

// Recovery count and side, in one byte each, and the held power, in two.
pub fn put_event(out: &mut [u8], at: usize, recovery: u8, side: u8, held: u16) -> usize
    requires { at + 4 ≤ length out.old }
    ensures { Wrote out.old at out.new result (field_bytes (field 1 recovery ∷ field 1 side ∷ field 2 held ∷ [])) }
{
    let a = put_field(out, at, 1, recovery as u32);
    let b = put_field(out, a, 1, side as u32);
    put_field(out, b, 2, held as u32)
}
