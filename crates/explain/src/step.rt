// Spec 4.3, 8.5: the step that says which rules held, by value.
ghost use Rattle.std.specs.Prelude.{◌≡◌, true, ◌++◌, length};
ghost use Rattle.rules.specs.Regions.{our_equipment, equipped_with};
ghost use Rattle.causes.specs.FirstCause.{first, settings_causes, sample_causes};
ghost use Rattle.explain.specs.Explained.{explained_step};
ghost use Rattle.explain.specs.Numbers.{explained_number};

use crate::{ExplainedReport, ExplainedStep};
use readings::reading::read;
use rules::{Board, Settings};
use sensing::table;
use service::step_accepted;
use serving::in_service;
use settings::Accepted;
use statusrules::status_rule;
use wattsrules::watts_rule;

// The step under settings that are accepted and with a sensing table lent.
fn explained(table: &[u16], b: Board, s: Accepted, x: &[u32]) -> ExplainedStep
    requires { length table.now ≡ 4096 }
    ensures { result ≡ explained_step (equipped_with table.now) b s.settings x.now }
{
    let next = step_accepted(table, b, s.settings, x);
    let board = next.board;
    let answer = next.answer;
    match answer {
        Err(cause) => ExplainedStep {
            board,
            answer: Err(cause),
        },
        Ok(report) => {
            let r = read(table, x);
            let was = in_service(b.status);
            let on = in_service(report.status);
            let status = status_rule(was, on, report.bits, r);
            let watts = watts_rule(r, s.settings, report);
            ExplainedStep {
                board,
                answer: Ok(ExplainedReport {
                    report,
                    status,
                    watts,
                }),
            }
        }
    }
}

// The step with a sensing table lent, and the rules that held beside its report; a refused call has none, and changes nothing.
pub fn step_by(table: &[u16], b: Board, s: Settings, x: &[u32]) -> ExplainedStep
    requires { length table.now ≡ 4096 }
    ensures value { result ≡ explained_step (equipped_with table.now) b s x.now }
    ensures answer_value { explained_number result.answer ≡ first (settings_causes s ++ sample_causes x.now) }
{
    match settings::accept(s) {
        Err(refused) => ExplainedStep {
            board: b,
            answer: Err(refused.cause),
        },
        Ok(accepted) => explained(table, b, accepted, x),
    }
}

// The step, with our table.
pub fn step(b: Board, s: Settings, x: &[u32]) -> ExplainedStep
    ensures value { result ≡ explained_step our_equipment b s x.now }
    ensures answer_value { explained_number result.answer ≡ first (settings_causes s ++ sample_causes x.now) }
{
    let t = table();
    step_by(&t, b, s, x)
}
