// Spec 5.4, 6.10 to 6.14, 7.6: what a status tells, and what a step makes of service, ramp, status and share.
#![tactic(auto)]

ghost use Rattle.std.specs.Prelude.{◌≡◌, Bool, cond, List, [], ◌∷◌, ◌++◌, ◌*◌, ◌/◌, ◌≤◌, min};
ghost use Rattle.rules.specs.Tests.{any};
ghost use Rattle.rules.specs.Regions.{is_continuous};
ghost use Rattle.rules.specs.Reports.{packed_after};
ghost use Rattle.rules.specs.Service.{in_service, exports, serves, ramped, status_of};

use rules::{Region, TOP_STATUS};

// Whether a board in a status is in service: tripped is 0, and an unknown one is read as tripped.
pub fn in_service(status: u8) -> bool
    ensures { result ≡ in_service status }
{
    (1..=TOP_STATUS).contains(&status)
}

// Whether it gives power: entering 1, continuous 2 and mandatory 3 do. In momentary cessation and where it ceases to energize a board in service
// gives none.
pub fn gives_power(status: u8) -> bool
    ensures { result ≡ exports status }
{
    (1..=3).contains(&status)
}

// Spec 6.10, 6.12: in service after the step. The lowest of the nine bits is ready, the others are the limits'.
pub fn in_service_after(was: bool, permit: bool, bits: u16) -> bool
    ensures { (trips : List Bool) (ready : Bool) → bits ≡ packed_after 0 (trips ++ (ready ∷ [])) → result ≡ serves was permit (any trips) ready }
{
    if was {
        permit && bits < 2
    } else {
        bits % 2 == 1
    }
}

pub fn is_continuous(region: Region) -> bool
    ensures { result ≡ is_continuous region }
{
    region == Region::Continuous
}

// Spec 6.11, 6.12: the ramp count after the step, from the count as lent (spec 5.4).
pub fn ramp_after(was: bool, on: bool, continuous: bool, length: u32, old: u32) -> u32
    ensures { result ≡ ramped was on continuous length (cond was (min length old) 0) }
{
    if !(was && on) {
        0
    } else if continuous && old < length {
        old + 1
    } else {
        old.min(length)
    }
}

// Spec 6.13.
pub fn status_of(on: bool, region: Region, full: bool) -> u8
    ensures { result ≡ status_of on region full }
{
    match region {
        _ if !on => 0,
        Region::Continuous if full => 2,
        Region::Continuous => 1,
        Region::Mandatory => 3,
        Region::Momentary => 4,
        Region::Cease => 5,
    }
}

// Spec 6.14. No division where the ramp is full.
pub fn share(ramp: u32, length: u32) -> u32
    requires { (ramp ≤ length) × (1 ≤ length) × (length ≤ 60000) }
    ensures value { result ≡ 10000 * ramp / length }
    ensures upper_bound { result ≤ 10000 }
{
    if ramp == length {
        10000
    } else {
        10000 * ramp / length
    }
}
