// Spec 3.1, 3.2, 3.4, 10.2: lines, their forms, and the numbers in them.
#![tactic(auto)]

ghost use Rattle.std.specs.Prelude.{◌≡◌, ◌+◌, ◌≤◌, ◌<◌, ◌==◌, ltb, nat_abs, length, drop, position};
ghost use Rattle.rules.specs.Text.{feed, first_line, has_feed};
ghost use Rattle.rules.specs.Forms.{numbers_of};
ghost use Rattle.formats.specs.Marks.{form_at};
ghost use Rattle.text.specs.Lines.{numbers_read};

mod table;

use matching::match_at;
use table::form;
pub use table::sample_form;

// No line of a form is longer; `longest` in specs/.
pub const LONGEST: usize = 128;

fn first_feed(s: &[u8]) -> Option<usize>
    ensures { result ≡ position (λ b. b == feed) s.now }
{
    s.iter().position(|b| *b == b'\n')
}

// The place of the first line feed from a place on, or the end.
pub fn line_end(s: &[u8], from: usize) -> usize
    ensures value { result ≡ from + length (first_line (drop from s.now)) }
    ensures s_value { ltb result (length s.now) ≡ has_feed (drop from s.now) }
{
    if s.len() < from {
        return from;
    }
    let rest = &s[from..];
    from + first_feed(rest).unwrap_or(rest.len())
}

// The numbers of a whole line, by its form, followed by zeros.
pub fn form_numbers(i: usize, line: &[u8]) -> Option<[i32; 8]>
    requires { i < 14 }
    ensures { result ≡ numbers_read (numbers_of (form_at i) line.now) }
{
    let m = match_at(form(i), line, 0)?;
    if m.next != line.len() {
        return None;
    }
    Some(m.n)
}

// A number without its sign.
pub fn magnitude(v: i32) -> u32
    ensures { result ≡ nat_abs v }
{
    v.unsigned_abs()
}
