// Spec 7.3 to 7.8: watts and vars.
#![tactic(auto)]

ghost use Rattle.std.specs.Prelude.{◌≡◌, true, ◌≤◌, nat_abs};
ghost use Rattle.rules.specs.Settings.{settings_accepted};
ghost use Rattle.rules.specs.Samples.{Slice, Equipment};
ghost use Rattle.rules.specs.Service.{vars_of, first_limits, left_by, watts_of};
ghost use Rattle.readings.specs.Readings.{reading_of, Exportable};

use droop::{side_of, within_droop};
use power::{volt_var, volt_watt, within_nameplate};
use readings::reading::Reading;
use recovery::within_recovery;
use rules::Settings;
use serving::gives_power;

#[derive(Clone, Copy)]
pub struct Powers {
    pub watts: u32,
    pub vars: i32,
}

// The least that the limits leave which stand first: droop in an event; otherwise available power, operator's limit and share.
fn first_limits(r: Reading, share: u32, held: u16) -> u32
    requires { r.frequency ≤ 80000 }
    ensures value { (e : Equipment) (x : Slice) → reading_of e x ≡ r → result ≡ left_by (first_limits x share held) }
    ensures upper_bound { result ≤ r.available }
{
    if side_of(r.frequency) == 0 {
        r.available.min(r.limit).min(share)
    } else {
        within_droop(r.frequency, held, r.available)
    }
}

// What a board in this status gives. In one that gives power the curves are read at the mean voltage, and watts are the least that a limit
// leaves, taken in their standing order, one to a line; in others both powers are 0.
#[tactic(auto, unfolding(rules::specs::Service::vars_of, rules::specs::Service::watts_of))]
pub fn powers_in(r: Reading, s: Settings, status: u8, share: u32, recovery: u8, held: u16) -> Powers
    requires { (Exportable r) × (settings_accepted s ≡ true) }
    ensures vars_value { (e : Equipment) (x : Slice) → reading_of e x ≡ r → result.vars ≡ vars_of e s x status }
    ensures watts_value { (e : Equipment) (x : Slice) → reading_of e x ≡ r → result.watts ≡ watts_of e s x status share recovery held }
    ensures watts_bound { (result.watts ≤ 10000) × (nat_abs result.vars ≤ 10000) }
{
    if !gives_power(status) {
        return Powers { watts: 0, vars: 0 };
    }
    let v = r.sum / 3;
    let vars = volt_var(s.var, v);
    let curve = volt_watt(s.watt, v);
    let p = first_limits(r, share, held);
    let p = p.min(curve);
    let p = within_nameplate(p, vars);
    let watts = within_recovery(p, recovery);
    Powers { watts, vars }
}
