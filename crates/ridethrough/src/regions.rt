// Spec 6.7 to 6.9: the operating region.
ghost use Rattle.std.specs.Prelude.{◌≡◌, true};
ghost use Rattle.rules.specs.Regions.{voltage_region, frequency_region, worse};
ghost use Rattle.rules.specs.declared.Region.TheVariants.{Continuous};
ghost use Rattle.ridethrough.specs.Regions.{region_at};

use readings::reading::Reading;
use rules::Region;

// The region of a voltage (Category III).
#[tactic(auto, unfolding(rules::specs::Regions::voltage_region))]
pub fn voltage_region(v: u32) -> Region
    ensures { result ≡ voltage_region v }
{
    if 12000 < v {
        Region::Cease
    } else if 11000 < v {
        Region::Momentary
    } else if 8800 <= v {
        Region::Continuous
    } else if 5000 <= v {
        Region::Mandatory
    } else {
        Region::Momentary
    }
}

// The region of a frequency. Ride-through ends at 57000 and 62000, both still in it; beyond them the board ceases to energize.
#[tactic(auto, unfolding(rules::specs::Regions::frequency_region, rules::specs::Tests::within))]
pub fn frequency_region(f: u32) -> Region
    ensures { result ≡ frequency_region f }
{
    match f {
        58800..=61200 => Region::Continuous,
        57000..=62000 => Region::Mandatory,
        _ => Region::Cease,
    }
}

// The worst of lowest voltage, highest voltage and frequency.
fn worst_region(low: u32, high: u32, frequency: u32) -> Region
    ensures { result ≡ worse (voltage_region low) (worse (voltage_region high) (frequency_region frequency)) }
{
    voltage_region(low).max(voltage_region(high).max(frequency_region(frequency)))
}

// The operating region of a reading. One in the enter-service range is in the continuous region.
pub fn region(inside: bool, r: Reading) -> Region
    requires { inside ≡ true → region_at r ≡ Continuous }
    ensures { result ≡ region_at r }
{
    if inside {
        Region::Continuous
    } else {
        worst_region(r.low, r.high, r.frequency)
    }
}
