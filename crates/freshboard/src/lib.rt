// Spec 5.3, 8.2: the board before any sample.
#![tactic(auto)]

ghost use Rattle.std.specs.Prelude.{◌≡◌};
ghost use Rattle.rules.specs.Records.{fresh};
ghost use Rattle.causes.specs.Calls.{fresh_report};

use rules::{Board, RECOVERY_TOP, Report};

// A fresh board (spec 5.3): tripped, with a full recovery count and all else 0.
pub fn fresh() -> Board
    ensures { result ≡ fresh }
{
    Board {
        status: 0,
        counters: [0; 9],
        ramp: 0,
        watts: 0,
        vars: 0,
        recovery: RECOVERY_TOP,
        side: 0,
        held: 0,
    }
}

// Its report, before the first sample (spec 8.2): tripped, with a full recovery count and all else 0.
pub fn fresh_report() -> Report
    ensures { result ≡ fresh_report }
{
    Report {
        status: 0,
        bits: 0,
        share: 0,
        recovery: RECOVERY_TOP,
        side: 0,
        held: 0,
        watts: 0,
        vars: 0,
    }
}
