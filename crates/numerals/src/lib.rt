// Spec 3.4: the numbers that stand in a text, read at a place of it.
#![tactic(auto)]

ghost use Rattle.std.specs.Prelude.{◌≡◌, ◌≤◌, length, drop};
ghost use Rattle.rules.specs.Text.{take_number, negated};
ghost use Rattle.formats.specs.Marks.{take_marked};
ghost use Rattle.numerals.specs.Places.{DigitsAt, NumberAt};

// The value of a run of digits, and the place after it.
#[derive(Clone, Copy)]
pub struct Digits {
    pub value: u32,
    pub next: usize,
}

// A number and the place after it.
#[derive(Clone, Copy)]
pub struct Number {
    pub value: i32,
    pub next: usize,
}

// The digits at a place, up to the seventh: seven are too many for a number.
fn digits_at(s: &[u8], at: usize) -> Digits
    requires { at ≤ length s.now }
    ensures { DigitsAt s.now at result }
{
    let end = at + (s.len() - at).min(7);
    let mut value: u32 = 0;
    for i in at..end {
        let b = s[i];
        if !b.is_ascii_digit() {
            return Digits { value, next: i };
        }
        value = value * 10 + ((b - b'0') as u32);
    }
    Digits { value, next: end }
}

fn number_at(s: &[u8], at: usize) -> Option<Number>
    requires { at ≤ length s.now }
    ensures { NumberAt (take_number (drop at s.now)) s.now result }
{
    let digits = digits_at(s, at);
    let count = digits.next - at;
    if !(1..=6).contains(&count) {
        return None;
    }
    if count > 1 && s[at] == b'0' {
        return None;
    }
    Some(Number {
        value: digits.value as i32,
        next: digits.next,
    })
}

// The number after a minus.
fn negative_at(s: &[u8], at: usize) -> Option<Number>
    requires { at ≤ length s.now }
    ensures { NumberAt (negated (take_number (drop at s.now))) s.now result }
{
    let x = number_at(s, at)?;
    if x.value == 0 {
        return None;
    }
    Some(Number {
        value: -x.value,
        next: x.next,
    })
}

// The number that a form's mark stands for.
pub fn marked_at(mark: u8, s: &[u8], at: usize) -> Option<Number>
    requires { at ≤ length s.now }
    ensures { NumberAt (take_marked mark (drop at s.now)) s.now result }
{
    if mark != b'#' && at < s.len() && s[at] == b'-' {
        return negative_at(s, at + 1);
    }
    number_at(s, at)
}
