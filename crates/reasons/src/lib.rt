// Spec 8.6, 8.8: the rules that can hold a status and the watts, and their numbers.
#![tactic(auto)]

ghost use Rattle.std.specs.Prelude.{◌≡◌};
ghost use Rattle.reasons.specs.Numbers.{status_rule_number, limit_place, watts_rule_number};

// The rule that held a status; `status_rule_number` of specs/ gives each case its number, and `limit_place` its value.
#[derive(Clone, Copy, Debug, PartialEq, Eq)]
pub enum StatusRule {
    Permission,
    TripLimit(u8),
    WaitNotFull,
    Returned,
    LowestVoltage,
    HighestVoltage,
    Frequency,
}

// The rule that held the watts, each with its number (spec 8.8).
#[derive(Clone, Copy, Debug, PartialEq, Eq)]
pub enum WattsRule {
    Status = 1,
    AvailablePower = 2,
    OperatorsLimit = 3,
    RampShare = 4,
    VoltWatt = 5,
    NameplateRating = 6,
    CessationRecovery = 7,
    FrequencyDroop = 8,
}

// The number of a status's rule.
pub fn status_rule_number(rule: StatusRule) -> u8
    ensures { result ≡ status_rule_number rule }
{
    match rule {
        StatusRule::Permission => 1,
        StatusRule::TripLimit(_) => 2,
        StatusRule::WaitNotFull => 3,
        StatusRule::Returned => 4,
        StatusRule::LowestVoltage => 5,
        StatusRule::HighestVoltage => 6,
        StatusRule::Frequency => 7,
    }
}

// The place in the sheet of the limit that a status's rule names, from 1; 0 where it names none.
pub fn limit_place(rule: StatusRule) -> u8
    ensures { result ≡ limit_place rule }
{
    if let StatusRule::TripLimit(place) = rule {
        place
    } else {
        0
    }
}

// The number of the watts' rule.
pub fn watts_rule_number(rule: WattsRule) -> u8
    ensures { result ≡ watts_rule_number rule }
{
    rule as u8
}
