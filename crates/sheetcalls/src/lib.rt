// What the library's reading of a sheet answers, in numbers.
#![tactic(auto)]

ghost use Rattle.std.specs.Prelude.{◌≡◌, ◌≤◌, length};
ghost use Rattle.rules.specs.Sheets.{read_sheet};
ghost use Rattle.sheet.specs.Outcomes.{Gives};
ghost use Rattle.sheetcalls.specs.SheetAnswers.{sheet_answer};

use sheet::{SheetOutcome, part_from};

// What reading a sheet answers: 0 and 0, or the refusal's number and its sheet line from 1; and where in the caller's own bytes the part
// handed back begins, and its length.
#[repr(C)]
#[derive(Clone, Copy)]
pub struct SheetAnswer {
    pub number: u32,
    pub line: u32,
    pub start: usize,
    pub length: usize,
}

// The answer of an outcome of reading these bytes, in numbers.
pub fn answer_of(bytes: &[u8], outcome: SheetOutcome) -> SheetAnswer
    requires { (Gives outcome (read_sheet bytes.now)) × (outcome.start ≤ length bytes.now) }
    ensures { result ≡ sheet_answer bytes.now }
{
    let part = part_from(bytes, outcome.check, outcome.start);
    let (number, line) = match outcome.check {
        Ok(()) => (0, 0),
        Err(why) => (u32::from(why.cause), u32::from(why.line)),
    };
    SheetAnswer {
        number,
        line,
        start: outcome.start,
        length: part.len(),
    }
}
