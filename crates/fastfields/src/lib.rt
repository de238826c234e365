// The fields of a sample line, for the fast reader: the bytes before the first number, and each number with the byte that closes
// it. There is room in the text for the longest line, so that no byte needs a test of the text's end. What is passed
// over here, the matcher reads.
#![tactic(auto)]

ghost use Rattle.std.specs.Prelude.{◌≡◌, true, false, ◌+◌, ◌≤◌, length, IfSome};
ghost use Rattle.formats.specs.Marks.{is_mark};
ghost use Rattle.fastfields.specs.Fast.{FastDigits, FastNumber, FastField, HeadTaken, closing_byte};

// What is found: the place after it, and its value.
#[derive(Clone, Copy)]
pub struct Found {
    pub next: usize,
    pub value: u32,
}

// One to six digits.
fn fast_digits(s: &[u8], at: usize) -> Option<Found>
    requires { at + 7 ≤ length s.now }
    ensures { IfSome result (FastDigits s.now at) }
{
    let mut value: u32 = 0;
    for i in 0..7 {
        let d = (s[at + i] ^ b'0') as u32;
        if 9 < d {
            if i == 0 {
                return None;
            }
            return Some(Found {
                next: at + i,
                value,
            });
        }
        value = value * 10 + d;
    }
    None
}

// A number without a leading zero.
fn fast_number(s: &[u8], at: usize) -> Option<Found>
    requires { at + 7 ≤ length s.now }
    ensures { IfSome result (FastNumber s.now at) }
{
    let d = fast_digits(s, at)?;
    if s[at] == b'0' && d.next != at + 1 {
        return None;
    }
    Some(d)
}

// A number and the byte that closes it.
pub fn fast_field(s: &[u8], at: usize, close: u8) -> Option<Found>
    requires { (at + 7 ≤ length s.now) × (is_mark close ≡ false) }
    ensures { IfSome result (FastField s.now at close) }
{
    let x = fast_number(s, at)?;
    if s[x.next] != close {
        return None;
    }
    Some(Found {
        next: x.next + 1,
        value: x.value,
    })
}

// The bytes before the first number.
pub fn headed(s: &[u8], at: usize) -> bool
    requires { at + 5 ≤ length s.now }
    ensures { result ≡ true → HeadTaken s.now at }
{
    s[at..].starts_with(b"(at (")
}

// The byte after number k.
pub fn closing(k: usize) -> u8
    ensures { result ≡ closing_byte k }
{
    if matches!(k, 2 | 6) { b')' } else { b' ' }
}
