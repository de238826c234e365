// Spec 2: a mean-square code to a voltage.
#![tactic(auto)]

ghost use Rattle.std.specs.Prelude.{◌≡◌, ◌<◌, length, get_or, [], ◌∷◌, ltb};
ghost use Rattle.rules.specs.Sensing.{last_code, sensed_by, sensed};
ghost use Rattle.rules.specs.Regions.{equipped_with};
ghost use Rattle.rules.specs.Refusals.{sensed_number};
ghost use Rattle.causes.specs.FirstCause.{cause, first};
ghost use Rattle.sensing.specs.Tables.{IsTable};

mod entries;

use entries::VOLTS;
use rules::{Refusal, Sensed};

// The voltage of each mean-square code.
pub type SensingTable = [u16; 4096];

// The table of 4,096 entries. A caller makes it once and lends it. No other function names the constant.
pub fn table() -> SensingTable
    ensures { IsTable result }
{
    VOLTS
}

// The voltage of a code, by a lent table.
pub fn volts(table: &[u16], code: u32) -> u16
    requires { (length table.now ≡ 4096) × (code < 4096) }
    ensures { result ≡ get_or table.now code 0 }
{
    table[code as usize]
}

// The voltage of any code, by a lent table: one above the table is refused, and never given the last entry.
pub fn sense_by(table: &[u16], code: u32) -> Sensed
    requires { length table.now ≡ 4096 }
    ensures value { result ≡ sensed_by (equipped_with table.now).sensing code }
    ensures result_value { sensed_number result ≡ first (cause 4 (ltb last_code code) ∷ []) }
{
    if code < 4096 {
        Ok(volts(table, code))
    } else {
        Err(Refusal::Code)
    }
}

// The voltage of any code, by our table.
pub fn sense(code: u32) -> Sensed
    ensures value { result ≡ sensed code }
    ensures result_value { sensed_number result ≡ first (cause 4 (ltb last_code code) ∷ []) }
{
    let t = table();
    sense_by(&t, code)
}
