// A report with the rules that held it as the calls of the C boundary give it: in numbers. What an exported step leaves stands in specs/.
#![tactic(auto)]

ghost use Rattle.std.specs.Prelude.{◌≡◌};
ghost use Rattle.stepcalls.specs.ExplainedCalls.{in_numbers, explained_fresh};

use reasons::{StatusRule, WattsRule, limit_place, status_rule_number, watts_rule_number};
use rules::Report;

// A report with the rules that held it, as numbers: the status's rule, the place of the limit that it names or 0, and the watts' rule.
#[repr(C)]
#[derive(Clone, Copy)]
pub struct Explained {
    pub report: Report,
    pub status: u8,
    pub limit: u8,
    pub watts: u8,
}

// A report and its rules in numbers.
pub fn in_numbers(report: Report, status: StatusRule, watts: WattsRule) -> Explained
    ensures { result ≡ in_numbers report status watts }
{
    Explained {
        report,
        status: status_rule_number(status),
        limit: limit_place(status),
        watts: watts_rule_number(watts),
    }
}

// A fresh board's report and rules in numbers.
pub fn fresh_explained() -> Explained
    ensures { result ≡ explained_fresh }
{
    in_numbers(
        freshboard::fresh_report(),
        StatusRule::WaitNotFull,
        WattsRule::Status,
    )
}
