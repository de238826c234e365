// A form against a text: one matcher for all fourteen.
#![tactic(auto)]

ghost use Rattle.std.specs.Prelude.{◌≡◌, ◌≤◌, length, drop};
ghost use Rattle.formats.specs.Marks.{is_mark, marks};
ghost use Rattle.matching.specs.Forms.{take_form};
ghost use Rattle.matching.specs.Places.{MatchAt};

use numerals::marked_at;

// The numbers that stand in the places of a form's marks, followed by zeros, and the place after the form. No form has more
// than eight numbers.
#[derive(Clone, Copy)]
pub struct Match {
    pub next: usize,
    pub n: [i32; 8],
}

fn is_mark(b: u8) -> bool
    ensures { result ≡ is_mark b }
{
    matches!(b, b'#' | b'~')
}

// The form at a place of a text.
pub fn match_at(form: &[u8], s: &[u8], start: usize) -> Option<Match>
    requires { (marks form.now ≤ 8) × (start ≤ length s.now) }
    ensures { MatchAt (take_form form.now (drop start s.now)) s.now result }
{
    let mut n = [0i32; 8];
    let mut k = 0;
    let mut at = start;
    for mark in form {
        if is_mark(*mark) {
            let x = marked_at(*mark, s, at)?;
            n[k] = x.value;
            k += 1;
            at = x.next;
        } else {
            let b = s.get(at)?;
            if *b != *mark {
                return None;
            }
            at += 1;
        }
    }
    Some(Match { next: at, n })
}
