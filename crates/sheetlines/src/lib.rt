// The sheet's lines of a block.
#![tactic(auto)]

ghost use Rattle.std.specs.Prelude.{◌≡◌, ◌+◌, ◌<◌, length, IsErr};
ghost use Rattle.formats.specs.Marks.{form_at};
ghost use Rattle.sheet.specs.LineReads.{on_line};
ghost use Rattle.program.specs.States.{Fit};
ghost use Rattle.program.specs.Saying.{line_numbers, stage_after, sheet_line};
ghost use Rattle.states.specs.Carrying.{check_text};
ghost use Rattle.sheetlines.specs.SheetSaid.{SheetSaid};
ghost use Rattle.rules.specs.Settings.{sheet_lines};

use program::State;
use rules::{SHEET_LINES, Settings, SettingsCheck};
use sheet::{LineRead, LineRefusal, formless, read_line};
use states::stop;
use text::line_end;

// Line i of a sheet, counted from 0; one whose beginning was dropped has no form.
fn read_whole(overlong: bool, i: usize, line: &[u8], before: Settings) -> LineRead
    requires { i < sheet_lines }
    ensures { result ≡ on_line i before (line_numbers overlong (form_at i) line.now) }
{
    if overlong {
        return Err(LineRefusal {
            why: formless(i),
            settings: before,
        });
    }
    read_line(i, line, before)
}

fn stage_after(line: u64) -> u8
    ensures { result ≡ stage_after line }
{
    if line == SHEET_LINES as u64 { 1 } else { 0 }
}

// The state after a sheet's line, and what checking the line found.
#[derive(Clone, Copy)]
pub struct SheetLine {
    pub state: State,
    pub check: SettingsCheck,
}

fn sheet_line(q: State, line: &[u8]) -> SheetLine
    requires { (q.stage ≡ 0) × (Fit q (length line.now + 1)) }
    ensures line_value { sheet_line q line.now ≡ record { state = result.state; text = check_text result.check } }
    ensures stage_value { IsErr result.check → result.state.stage ≡ 2 }
{
    let n = line.len() as u64 + 1;
    match read_whole(q.overlong, (q.line - 1) as usize, line, q.settings) {
        Err(away) => SheetLine {
            state: stop(q, n),
            check: Err(away.why),
        },
        Ok(settings) => SheetLine {
            state: State {
                stage: stage_after(q.line),
                line: q.line + 1,
                overlong: false,
                taken: q.taken + n,
                settings,
                ..q
            },
            check: Ok(()),
        },
    }
}

// Where the sheet's lines of a block end, and what checking the last of them found.
#[derive(Clone, Copy)]
pub struct SheetLines {
    pub state: State,
    pub at: usize,
    pub check: SettingsCheck,
}

// The sheet's lines, as many as are there, up to the first that is refused.
pub fn sheet_lines(q: State, s: &[u8]) -> SheetLines
    requires { Fit q (length s.now) }
    ensures { SheetSaid q s.now result }
{
    let mut state = q;
    let mut at = 0;
    while state.stage == 0 {
        let end = line_end(s, at);
        if end >= s.len() {
            return SheetLines {
                state,
                at,
                check: Ok(()),
            };
        }
        let r = sheet_line(state, &s[at..end]);
        state = r.state;
        at = end + 1;
        if r.check.is_err() {
            return SheetLines {
                state,
                at,
                check: r.check,
            };
        }
    }
    SheetLines {
        state,
        at,
        check: Ok(()),
    }
}
