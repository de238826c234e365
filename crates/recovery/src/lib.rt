// Spec 6.15, 7.7: the recovery count, by which power comes back after a cessation.
#![tactic(auto)]

ghost use Rattle.std.specs.Prelude.{◌≡◌, true, ◌≤◌, min};
ghost use Rattle.rules.specs.Regions.{ceases};
ghost use Rattle.rules.specs.Service.{recovery_top, recovering, recovery_limit};

use rules::{RECOVERY_TOP, Region};

// Momentary cessation or cease to energize.
pub fn ceases(region: Region) -> bool
    ensures { result ≡ ceases region }
{
    matches!(region, Region::Momentary | Region::Cease)
}

// The count of a board that stays in service, from the count as lent (spec 5.4).
fn counted_on(ceasing: bool, old: u8) -> u8
    ensures { result ≡ recovering true true ceasing (min recovery_top old) }
{
    if ceasing {
        0
    } else {
        old.min(RECOVERY_TOP - 1) + 1
    }
}

// The count after the step: full where the board is tripped, and where it returns.
pub fn recovery_after(was: bool, on: bool, ceasing: bool, old: u8) -> u8
    ensures { result ≡ recovering was on ceasing (min recovery_top old) }
{
    if was && on {
        counted_on(ceasing, old)
    } else {
        RECOVERY_TOP
    }
}

// As much of a power as the count lets through: a fortieth of the rating is 250.
pub fn within_recovery(p: u32, recovery: u8) -> u32
    requires { p ≤ 10000 }
    ensures { result ≡ min p (recovery_limit recovery) }
{
    p.min(250 * u32::from(recovery))
}
