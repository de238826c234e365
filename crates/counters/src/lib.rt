// Spec 6.1 to 6.6: the nine counters and their bits after a sample.
#![tactic(auto)]

ghost use Rattle.std.specs.Prelude.{◌≡◌, true, []};
ghost use Rattle.rules.specs.Settings.{settings_accepted};
ghost use Rattle.rules.specs.Counters.{counted, full};
ghost use Rattle.rules.specs.Records.{each};
ghost use Rattle.rules.specs.Reports.{packed_after};
ghost use Rattle.counters.specs.Rules.{rules_at};
ghost use Rattle.counting.specs.Counting.{enters};

use counting::{count, counts, marked, top};
use readings::reading::Reading;
use rules::Settings;
use settings::Accepted;

// The counters, and the bits of those passed as one number.
#[derive(Clone, Copy)]
pub struct Counters {
    pub n: [u32; 9],
    pub bits: u16,
}

// The counters and bits of a reading in the enter-service range: under accepted settings no limit is broken there, so the eight are 0,
// below their tops, and the ninth counts.
fn count_ninth(old: [u32; 9], s: Accepted) -> Counters
    ensures n_value { (r : Reading) → enters r s.settings ≡ true → result.n ≡ each (counted []) (rules_at r s.settings) old }
    ensures bits_value { (r : Reading) → result.bits ≡ packed_after 0 (each full (rules_at r s.settings) result.n) }
{
    let most = top(s.settings, 8);
    let n = count(true, most, old[8]);
    let mut c = Counters {
        n: [0; 9],
        bits: marked(0, n, most),
    };
    c.n[8] = n;
    c
}

// The counters and bits one by one. The loop goes by the number of a counter, since `top` and `counts` take it.
fn count_each(old: [u32; 9], r: Reading, s: Settings) -> Counters
    ensures n_value { result.n ≡ each (counted []) (rules_at r s) old }
    ensures bits_value { result.bits ≡ packed_after 0 (each full (rules_at r s) result.n) }
{
    let mut next = Counters { n: old, bits: 0 };
    for i in 0..9 {
        let most = top(s, i);
        let n = count(counts(r, s, i), most, next.n[i]);
        next.n[i] = n;
        next.bits = marked(next.bits, n, most);
    }
    next
}

// All nine counters after the sample, and their bits. The loop is for readings outside the enter-service range.
pub fn count_all(inside: bool, old: [u32; 9], r: Reading, s: Settings) -> Counters
    requires { (settings_accepted s ≡ true) × (inside ≡ enters r s) }
    ensures n_value { result.n ≡ each (counted []) (rules_at r s) old }
    ensures bits_value { result.bits ≡ packed_after 0 (each full (rules_at r s) result.n) }
{
    if inside {
        return count_ninth(old, Accepted { settings: s });
    }
    count_each(old, r, s)
}
