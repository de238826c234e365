// Spec 10.2: sample lines that stand in a text.
#![tactic(auto)]

ghost use Rattle.std.specs.Prelude.{◌≡◌, map, ◌≤◌, nat_abs, length, take};
ghost use Rattle.samples.specs.Lines.{sample_at};

mod fast;

use fast::fast_sample_at;
use matching::match_at;
use text::{magnitude, sample_form};

// The first seven of a line's numbers, as a step takes them.
fn sample_slice(n: [i32; 8]) -> [u32; 7]
    ensures { result ≡ map nat_abs (take 7 n) }
{
    let mut slice = [0u32; 7];
    for i in 0..7 {
        slice[i] = magnitude(n[i]);
    }
    slice
}

// The numbers of a sample line that is ended, and the place after its line feed.
#[derive(Clone, Copy)]
pub struct SampleAt {
    pub next: usize,
    pub slice: [u32; 7],
}

// The sample line at a place of a text: by the fast reader where there is room, and by its form where that finds nothing.
pub fn sample_at(s: &[u8], at: usize) -> Option<SampleAt>
    requires { at ≤ length s.now }
    ensures { result ≡ sample_at s.now at }
{
    if 64 <= s.len() - at {
        let x = fast_sample_at(s, at);
        if x.is_some() {
            return x;
        }
    }
    let m = match_at(sample_form(), s, at)?;
    if *s.get(m.next)? != b'\n' {
        return None;
    }
    Some(SampleAt {
        next: m.next + 1,
        slice: sample_slice(m.n),
    })
}
