// Spec 8.6, 8.7: the rule that held a status.
#![tactic(auto)]

ghost use Rattle.std.specs.Prelude.{◌≡◌, Bool, List, [], ◌∷◌, ◌++◌, length};
ghost use Rattle.rules.specs.Samples.{Slice, Equipment, permitted};
ghost use Rattle.rules.specs.Regions.{voltage_region, worse};
ghost use Rattle.rules.specs.Reports.{packed_after};
ghost use Rattle.rules.specs.declared.Settings.{Settings};
ghost use Rattle.readings.specs.Readings.{reading_of};
ghost use Rattle.statusrules.specs.StatusRules.{first_place, first_worst, region_cause, status_rule};

use readings::reading::Reading;
use reasons::StatusRule;
use ridethrough::regions::{frequency_region, voltage_region};
use rules::Region;

// Of nine bits, uv1's the highest and ready's the lowest: the place of the first limit in sheet order whose bit is 1, from 1; 0 where none is.
// Seven of the sixteen binary digits stand before uv1's, fourteen before of2's.
fn first_place(bits: u16) -> u8
    ensures { (trips : List Bool) (ready : Bool) → length trips ≡ 8 → bits ≡ packed_after 0 (trips ++ (ready ∷ [])) → result ≡ first_place 1 trips }
{
    match bits.leading_zeros() {
        zeros @ 7..=14 => (zeros - 6) as u8,
        _ => 0,
    }
}

// What decides the region: the first of lowest voltage, highest voltage and frequency whose own region is the worst.
fn region_cause(low: Region, high: Region, frequency: Region) -> StatusRule
    ensures { result ≡ first_worst (worse low (worse high frequency)) low high }
{
    if high <= low && frequency <= low {
        StatusRule::LowestVoltage
    } else if frequency <= high {
        StatusRule::HighestVoltage
    } else {
        StatusRule::Frequency
    }
}

// The rule of a step, from: in service before and after it, the nine bits, and what is read from its sample.
pub fn status_rule(was: bool, on: bool, bits: u16, r: Reading) -> StatusRule
    ensures { (e : Equipment) (st : Settings) (x : Slice) (trips : List Bool) (ready : Bool) → e.region ≡ voltage_region → reading_of e x ≡ r
        → length trips ≡ 8 → bits ≡ packed_after 0 (trips ++ (ready ∷ [])) → result ≡ status_rule was on (permitted x) trips (region_cause e st x) }
{
    if on {
        if !was {
            return StatusRule::Returned;
        }
        let low = voltage_region(r.low);
        let high = voltage_region(r.high);
        return region_cause(low, high, frequency_region(r.frequency));
    }
    if !was {
        return StatusRule::WaitNotFull;
    }
    if !r.permit {
        return StatusRule::Permission;
    }
    StatusRule::TripLimit(first_place(bits))
}
