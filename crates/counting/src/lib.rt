// Spec 6.1 to 6.6: one of the nine counters: whether it counts a reading, its top, one more, and its bit.
#![tactic(auto)]

ghost use Rattle.std.specs.Prelude.{◌≡◌, cond, suc, ◌+◌, ◌*◌, ◌<◌, min, eqb};
ghost use Rattle.counting.specs.Counting.{enters, hit_at, top_at};

use readings::reading::Reading;
use rules::Settings;

// The enter-service criteria (spec 6.4).
#[tactic(auto, unfolding(crate::specs::Counting::enters, rules::specs::Tests::all, rules::specs::Tests::within))]
pub fn in_range(r: Reading, s: Settings) -> bool
    ensures { result ≡ enters r s }
{
    r.permit
        && (s.volts.low..=s.volts.high).contains(&r.low)
        && (s.volts.low..=s.volts.high).contains(&r.high)
        && (s.hertz.low..=s.hertz.high).contains(&r.frequency)
}

// Whether counter i counts this reading: limit i is broken, always strictly; the ninth by the enter-service criteria.
pub fn counts(r: Reading, s: Settings, i: usize) -> bool
    requires { i < 9 }
    ensures { result ≡ hit_at r s i }
{
    match i {
        0 | 1 => r.low < s.trip[i].level,
        2 | 3 => s.trip[i].level < r.high,
        4 | 5 => r.frequency < s.trip[i].level,
        6 | 7 => s.trip[i].level < r.frequency,
        _ => in_range(r, s),
    }
}

// The top of counter i: its clearing time; the ninth's is the wait, of which 0 counts as 1.
pub fn top(s: Settings, i: usize) -> u32
    requires { i < 9 }
    ensures { result ≡ top_at s i }
{
    if i < 8 {
        s.trip[i].clearing
    } else {
        s.wait.max(1)
    }
}

// One more if the sample counts, up to the top; otherwise 0.
pub fn count(hit: bool, top: u32, old: u32) -> u32
    ensures { result ≡ cond hit (min top (suc old)) 0 }
{
    if !hit {
        0
    } else if old < top {
        old + 1
    } else {
        top
    }
}

// The bits with one more: 1 when the counter equals its top.
pub fn marked(bits: u16, n: u32, top: u32) -> u16
    requires { bits < 4096 }
    ensures { result ≡ 2 * bits + cond (eqb n top) 1 0 }
{
    2 * bits + u16::from(n == top)
}
