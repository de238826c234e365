// Spec 6.16, 6.17, 7.8: frequency droop. The side of an event, the power that is held in it, and what droop makes of that.
#![tactic(auto)]

ghost use Rattle.std.specs.Prelude.{◌≡◌, cond, ◌≤◌, min};
ghost use Rattle.rules.specs.Droop.{no_side, low_side, side_of, side_after, known_side, held_after, ten_thirds, drooped};

// The ends of the deadband; `deadband_high` and `deadband_low` in the specs of `rules`.
const DEADBAND_HIGH: u32 = 60036;

const DEADBAND_LOW: u32 = 59964;

// The side of a frequency: 1 above the deadband, 2 below it, 0 within it.
#[tactic(auto, unfolding(rules::specs::Droop::side_of))]
pub fn side_of(f: u32) -> u8
    ensures { result ≡ side_of f }
{
    if DEADBAND_HIGH < f {
        1
    } else if f < DEADBAND_LOW {
        2
    } else {
        0
    }
}

// The side after the step: that of the frequency where the board is in service.
#[tactic(auto, unfolding(rules::specs::Droop::side_of))]
pub fn side_after(on: bool, f: u32) -> u8
    ensures value { result ≡ side_after on f }
    ensures upper_bound { result ≤ low_side }
{
    if on { side_of(f) } else { 0 }
}

// A lent power is read as the rating at the most (spec 5.4).
fn rated(power: u16) -> u16
    ensures { result ≡ min 10000 power }
{
    power.min(10000)
}

// The held power after the step, from the side after it and the record as lent (spec 5.4): in service before, side, held power and watts. An
// unknown side is no side of a step, and so begins an event as none does.
pub fn held_after(side: u8, was: bool, old: u8, held: u16, watts: u16) -> u16
    requires { side ≤ low_side }
    ensures { result ≡ held_after (cond was (known_side old) no_side) side (cond was (min 10000 held) 0) (min 10000 watts) }
{
    if side == 0 {
        0
    } else if was && old == side {
        rated(held)
    } else {
        rated(watts)
    }
}

// Ten thirds of a distance in frequency, rounded down.
fn ten_thirds(distance: u32) -> u32
    requires { distance ≤ 60000 }
    ensures { result ≡ ten_thirds distance }
{
    distance * 10 / 3
}

// What droop makes of a held power, bounded. On the high side it is less, and not below 0.
#[tactic(auto, unfolding(rules::specs::Droop::side_of, rules::specs::Droop::drooped))]
pub fn within_droop(f: u32, held: u16, bound: u32) -> u32
    requires { (f ≤ 80000) × (1 ≤ side_of f) }
    ensures { result ≡ min (drooped f held) bound }
{
    let power = u32::from(held);
    if DEADBAND_HIGH < f {
        power
            .saturating_sub(ten_thirds(f - DEADBAND_HIGH))
            .min(bound)
    } else {
        (power + ten_thirds(DEADBAND_LOW - f)).min(bound)
    }
}
