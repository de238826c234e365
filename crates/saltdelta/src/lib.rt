// The library for C and Rust: the operations at a C boundary, which the crate saltdelta_c exports. include/saltdelta.h says what each
// number means and what a caller owes. A refused call answers with the number of its cause (spec 11.1) and stores nothing: it returns
// before any store.
#![tactic(auto)]

ghost use Rattle.std.specs.Prelude.{◌≡◌};
ghost use Rattle.rules.specs.Refusals.{saved_number};
ghost use Rattle.rules.specs.Records.{fresh};
ghost use Rattle.rules.specs.Images.{save_check, saved_into};
ghost use Rattle.causes.specs.Calls.{fresh_report};
ghost use Rattle.carryover.specs.CarryOver.{carry_number, forward_answer, back_answer, forward_into, back_into};
ghost use Rattle.replay.specs.Replays.{replayed_into};
ghost use Rattle.stepcalls.specs.StepAnswers.{record_after, report_after, step_number};
ghost use Rattle.stepcalls.specs.ExplainedCalls.{explained_fresh, explained_after};
ghost use Rattle.sheetcalls.specs.SheetAnswers.{sheet_answer, settings_after};
ghost use Rattle.calls.specs.ReplayAnswers.{replay_answer, replay_report};

use calls::{ReplayAnswer, back_call, forward_call, save_number};
use rules::{Board, Report, Settings};
use sheetcalls::{SheetAnswer, answer_of};
use stepcalls::{Explained, fresh_explained, in_numbers};

// A fresh board record.
pub fn saltdelta_fresh() -> Board
    ensures { result ≡ fresh }
{
    freshboard::fresh()
}

// The report of a fresh board.
pub fn saltdelta_fresh_report() -> Report
    ensures { result ≡ fresh_report }
{
    freshboard::fresh_report()
}

// The same with the rules that held it.
pub fn saltdelta_fresh_explained() -> Explained
    ensures { result ≡ explained_fresh }
{
    fresh_explained()
}

// Reads the sheet at the front of lent bytes into lent settings; a refused sheet leaves them as they were.
pub fn saltdelta_read_sheet(settings: &mut Settings, bytes: &[u8]) -> SheetAnswer
    ensures { (settings.new ≡ settings_after settings.old bytes.now) × (result ≡ sheet_answer bytes.now) }
{
    let outcome = sheet::read(bytes);
    if outcome.check.is_ok() {
        *settings = outcome.settings;
    }
    answer_of(bytes, outcome)
}

// A step of the lent record, and its report; a refused one leaves both as they were.
pub fn saltdelta_step(
    board: &mut Board,
    settings: &Settings,
    sample: &[u32],
    report: &mut Report,
) -> u32
    ensures { (board.new ≡ record_after board.old settings.now sample.now) × (report.new
        ≡ report_after report.old board.old settings.now sample.now) × (result ≡ step_number board.old settings.now sample.now) }
{
    let next = service::step::step(*board, *settings, sample);
    match next.answer {
        Ok(given) => {
            *board = next.board;
            *report = given;
            0
        }
        Err(cause) => u32::from(cause),
    }
}

// The same step, with its report and the rules that held it; a refused one leaves both lent structs as they were.
pub fn saltdelta_step_explained(
    board: &mut Board,
    settings: &Settings,
    sample: &[u32],
    explained: &mut Explained,
) -> u32
    ensures { (board.new ≡ record_after board.old settings.now sample.now) × (explained.new
        ≡ explained_after explained.old board.old settings.now sample.now) × (result ≡ step_number board.old settings.now sample.now) }
{
    let next = explain::step::step(*board, *settings, sample);
    match next.answer {
        Ok(given) => {
            *board = next.board;
            *explained = in_numbers(given.report, given.status, given.watts);
            0
        }
        Err(cause) => u32::from(cause),
    }
}

// The lent record's image at the front of a lent buffer; a buffer under 49 bytes keeps every byte.
pub fn saltdelta_save(board: &Board, buffer: &mut [u8]) -> u32
    ensures { (result ≡ saved_number (save_check buffer.old)) × (buffer.new ≡ saved_into board.now buffer.old) }
{
    save_number(*board, buffer)
}

// An image of the old firmware as one of this firmware, at the front of a lent target; a refused call leaves the target as it was.
pub fn saltdelta_carry_forward(source: &[u8], target: &mut [u8]) -> u32
    ensures { (result ≡ carry_number (forward_answer source.now target.old))
        × (target.new ≡ forward_into source.now target.old) }
{
    forward_call(source, target)
}

// An image of this firmware, its recovery count full, as one of the old firmware; likewise.
pub fn saltdelta_carry_back(source: &[u8], target: &mut [u8]) -> u32
    ensures { (result ≡ carry_number (back_answer source.now target.old))
        × (target.new ≡ back_into source.now target.old) }
{
    back_call(source, target)
}

// Lent samples, seven numbers each, replayed from a fresh record under lent settings: the last report, and the record's image at the front
// of a lent buffer. A refused replay leaves report and buffer as they were.
pub fn saltdelta_replay(
    settings: &Settings,
    samples: &[u32],
    report: &mut Report,
    buffer: &mut [u8],
) -> ReplayAnswer
    ensures { (report.new ≡ replay_report report.old settings.now samples.now buffer.old)
        × (buffer.new ≡ replayed_into settings.now samples.now buffer.old)
        × (result ≡ replay_answer settings.now samples.now buffer.old) }
{
    let done = replay::replay(*settings, samples, buffer);
    if done.number == 0 {
        *report = done.report;
    }
    ReplayAnswer {
        number: done.number,
        accepted: done.accepted,
    }
}
