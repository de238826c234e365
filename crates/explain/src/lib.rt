// Spec 8.5 to 8.8: a step that says, beside its report, which rule held the status and which held the watts. Record and report are those of
// `service::step::step`, which does not ask. Its public operations are `fresh_answer` and `step::step`; the rest is for `step`.
#![tactic(auto)]

pub mod step;

ghost use Rattle.std.specs.Prelude.{◌≡◌};
ghost use Rattle.explain.specs.Explained.{fresh_answer};

use reasons::{StatusRule, WattsRule};
use rules::{Board, Refusal, Report};

// A report with the rule that held its status and the one that held its watts.
#[derive(Clone, Copy)]
pub struct ExplainedReport {
    pub report: Report,
    pub status: StatusRule,
    pub watts: WattsRule,
}

// What a step answers: a report with its two rules, or why there is none.
pub type ExplainedAnswer = Result<ExplainedReport, Refusal>;

// A step's answer, with the record beside it.
#[derive(Clone, Copy)]
pub struct ExplainedStep {
    pub board: Board,
    pub answer: ExplainedAnswer,
}

// The report of a fresh board, with its rules (spec 8.2, 8.6, 8.8).
pub fn fresh_answer() -> ExplainedAnswer
    ensures { result ≡ fresh_answer }
{
    Ok(ExplainedReport {
        report: freshboard::fresh_report(),
        status: StatusRule::WaitNotFull,
        watts: WattsRule::Status,
    })
}
