// Spec 10.2, 10.3: one sample line of a block: its numbers, what it makes of a board, and the answer written.
#![tactic(auto)]

ghost use Rattle.std.specs.Prelude.{◌≡◌, ◌+◌, ◌≤◌, length, drop};
ghost use Rattle.rules.specs.declared.Settings.{Settings};
ghost use Rattle.rules.specs.Regions.{equipped_with};
ghost use Rattle.rules.specs.Transcripts.{answer_line};
ghost use Rattle.buffers.specs.Written.{Wrote};
ghost use Rattle.program.specs.Responses.{line_room};
ghost use Rattle.sampleline.specs.SampleLines.{AcceptedFrom, formless_from, line_from, line_answer};

use lines::{put_refused, put_report};
use rules::{Answer, Board, Refusal, SheetRefusal, Stepped, refusal_number};
use samples::sample_at;
use sensing::SensingTable;
use service::step_accepted;
use settings::Accepted;
use text::line_end;

// A line that is ended: the place after its line feed, and its numbers where it has the sample form.
#[derive(Clone, Copy)]
pub struct LineAt {
    pub next: usize,
    pub slice: Option<[u32; 7]>,
}

// The line at a place, where it is ended and has no form.
fn formless_at(s: &[u8], at: usize) -> Option<LineAt>
    requires { at ≤ length s.now }
    ensures { result ≡ formless_from (drop at s.now) at }
{
    let end = line_end(s, at);
    if end < s.len() {
        return Some(LineAt {
            next: end + 1,
            slice: None,
        });
    }
    None
}

// The line at a place, where it is ended; one whose beginning was dropped has no form.
pub fn line_at(overlong: bool, s: &[u8], at: usize) -> Option<LineAt>
    requires { at ≤ length s.now }
    ensures { result ≡ line_from overlong (drop at s.now) at }
{
    if !overlong {
        if let Some(x) = sample_at(s, at) {
            return Some(LineAt {
                next: x.next,
                slice: Some(x.slice),
            });
        }
    }
    formless_at(s, at)
}

// What a line makes of a board: a step where it has the sample form, refusal 8 where it has not. Where the settings are refused, a step is
// their own refusal.
pub fn answer_to(
    table: &SensingTable,
    accepted: Result<Accepted, SheetRefusal>,
    b: Board,
    x: LineAt,
) -> Stepped
    ensures { (s : Settings) → AcceptedFrom s accepted → result ≡ line_answer (equipped_with table.now) b s x }
{
    let Some(slice) = x.slice else {
        return Stepped {
            board: b,
            answer: Err(Refusal::Sample),
        };
    };
    match accepted {
        Ok(accepted) => step_accepted(table, b, accepted.settings, &slice),
        Err(away) => Stepped {
            board: b,
            answer: Err(away.cause),
        },
    }
}

// The answer to an input line.
pub fn put_answer(out: &mut [u8], at: usize, answer: Answer, line: u64) -> usize
    requires { at + line_room ≤ length out.old }
    ensures { Wrote out.old at out.new result (answer_line line answer) }
{
    match answer {
        Ok(report) => put_report(out, at, report),
        Err(cause) => put_refused(out, at, refusal_number(cause), line),
    }
}
