// Spec 5.6: recorded samples, seven numbers each, stepped one after another on a fresh record.
#![tactic(auto)]

ghost use Rattle.std.specs.Prelude.{◌≡◌, true, ◌+◌, ◌-◌, ◌≤◌, min, length};
ghost use Rattle.rules.specs.Regions.{equipped_with};
ghost use Rattle.recording.specs.Recordings.{group_length, ran_by};

use freshboard::{fresh, fresh_report};
use rules::{Board, Report};
use service::step_accepted;
use settings::Accepted;

// A sample's numbers.
const GROUP_LENGTH: usize = 7;

// After all samples: the record, the last report, and how many were accepted.
#[derive(Clone, Copy)]
pub struct Ran {
    pub board: Board,
    pub report: Report,
    pub accepted: usize,
}

// The samples one after another, from a fresh record, under settings that are accepted and with one sensing table lent for all of them.
pub fn step_all(table: &[u16], settings: Accepted, samples: &[u32]) -> Ran
    requires { length table.now ≡ 4096 }
    ensures { result ≡ ran_by (equipped_with table.now) settings.settings samples.now }
{
    let mut ran = Ran {
        board: fresh(),
        report: fresh_report(),
        accepted: 0,
    };
    for sample in samples.chunks(GROUP_LENGTH) {
        let next = step_accepted(table, ran.board, settings.settings, sample);
        ran.board = next.board;
        if let Ok(report) = next.answer {
            ran.report = report;
            ran.accepted += 1;
        }
    }
    ran
}
