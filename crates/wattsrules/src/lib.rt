// Spec 8.8: the rule that held the watts.
#![tactic(auto)]

ghost use Rattle.std.specs.Prelude.{◌≡◌, true, ◌++◌, ℕ, ◌≤◌, ◌<◌, nat_abs};
ghost use Rattle.rules.specs.Settings.{settings_accepted};
ghost use Rattle.rules.specs.Samples.{Slice, Equipment, frequency};
ghost use Rattle.rules.specs.Droop.{side_of};
ghost use Rattle.rules.specs.Service.{vars_of, calm_limits, event_limits, watts_of, power_limits, left_by};
ghost use Rattle.readings.specs.Readings.{reading_of, Exportable};
ghost use Rattle.wattsrules.specs.WattsRules.{last_limits, first_leaving, watts_rule};

use droop::{side_of, within_droop};
use power::{volt_watt, within_nameplate};
use readings::reading::Reading;
use reasons::WattsRule;
use rules::{Report, Settings};
use serving::gives_power;
use settings::Accepted;

// Of the last three limits the first that leaves no more than the watts, which are what these three leave. None leaves less, so that the last
// need not be looked at, and a nameplate with room for one watt more is not the one.
fn last_rule(r: Reading, s: Accepted, watts: u32, vars: i32) -> WattsRule
    requires { (watts < 10000) × (nat_abs vars ≤ 10000) }
    ensures { (e : Equipment) (x : Slice) (recovery : ℕ) → reading_of e x ≡ r → watts ≡ left_by (last_limits e s.settings x recovery vars)
        → result ≡ first_leaving watts (last_limits e s.settings x recovery vars) }
{
    if volt_watt(s.settings.watt, r.sum / 3) == watts {
        return WattsRule::VoltWatt;
    }
    if within_nameplate(watts + 1, vars) == watts {
        return WattsRule::NameplateRating;
    }
    WattsRule::CessationRecovery
}

// Outside an event available power, operator's limit and share stand before them.
fn calm_rule(r: Reading, s: Accepted, report: Report) -> WattsRule
    requires { (Exportable r) × (report.watts ≤ r.available) × (nat_abs report.vars ≤ 10000) }
    ensures { (e : Equipment) (x : Slice) → reading_of e x ≡ r
        → report.watts ≡ left_by (calm_limits x report.share ++ last_limits e s.settings x report.recovery report.vars)
        → result ≡ first_leaving report.watts (calm_limits x report.share ++ last_limits e s.settings x report.recovery report.vars) }
{
    let watts = u32::from(report.watts);
    if r.available == watts {
        return WattsRule::AvailablePower;
    }
    if r.limit == watts {
        return WattsRule::OperatorsLimit;
    }
    if u32::from(report.share) == watts {
        return WattsRule::RampShare;
    }
    last_rule(r, s, watts, i32::from(report.vars))
}

// In an event droop does; like every limit it leaves no less than the watts.
fn event_rule(r: Reading, s: Accepted, report: Report) -> WattsRule
    requires { (Exportable r) × (report.watts ≤ r.available) × (nat_abs report.vars ≤ 10000) × (1 ≤ side_of r.frequency) }
    ensures { (e : Equipment) (x : Slice) → reading_of e x ≡ r
        → report.watts ≡ left_by (event_limits x report.held ++ last_limits e s.settings x report.recovery report.vars)
        → result ≡ first_leaving report.watts (event_limits x report.held ++ last_limits e s.settings x report.recovery report.vars) }
{
    let watts = u32::from(report.watts);
    if within_droop(r.frequency, report.held, r.available) <= watts {
        return WattsRule::FrequencyDroop;
    }
    last_rule(r, s, watts, i32::from(report.vars))
}

// The first limit, in the order of spec 7.5 or in an event of spec 7.8, that leaves what the report's watts are.
pub fn watts_rule(r: Reading, s: Settings, report: Report) -> WattsRule
    requires { (Exportable r) × (settings_accepted s ≡ true) × (report.watts ≤ r.available) × (nat_abs report.vars ≤ 10000) }
    ensures { (e : Equipment) (x : Slice) → reading_of e x ≡ r
        → report.watts ≡ watts_of e s x report.status report.share report.recovery report.held
        → report.vars ≡ vars_of e s x report.status
        → result ≡ watts_rule report.status (power_limits e s x report.share report.recovery report.held report.vars) }
{
    if !gives_power(report.status) {
        return WattsRule::Status;
    }
    let accepted = Accepted { settings: s };
    if side_of(r.frequency) == 0 {
        return calm_rule(r, accepted, report);
    }
    event_rule(r, accepted, report)
}
