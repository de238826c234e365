// Spec 3.7 to 3.10: reading a sheet from lent bytes.
#![tactic(auto)]

ghost use Rattle.std.specs.Prelude.{◌≡◌, [], ◌+◌, ◌<◌, ◌≤◌, length, Err};
ghost use Rattle.rules.specs.Settings.{sheet_lines};
ghost use Rattle.rules.specs.Sheets.{settings_of};
ghost use Rattle.rules.specs.declared.Refusal.TheVariants.{Form};
ghost use Rattle.sheet.specs.LineReads.{line_read};
ghost use Rattle.sheet.specs.Outcomes.{SheetGiven};
ghost use Rattle.sheet.specs.Parts.{IsPart, IsPartFrom};

use rules::{Refusal, SHEET_LINES, Settings, SettingsCheck, SheetRefusal};
use settings::check_line;
use storing::{no_settings, with_numbers};
use text::{form_numbers, line_end};

// A line that is refused: why, and the settings then, with its numbers where it has its form.
#[derive(Clone, Copy)]
pub struct LineRefusal {
    pub why: SheetRefusal,
    pub settings: Settings,
}

// What reading a line gives: the settings with its numbers, or its refusal.
pub type LineRead = Result<Settings, LineRefusal>;

// Line i, counted from 0, that has not its form or is not there.
pub fn formless(line: usize) -> SheetRefusal
    requires { line < sheet_lines }
    ensures { result ≡ record { cause = Form; line = line + 1 } }
{
    SheetRefusal {
        cause: Refusal::Form,
        line: (line + 1) as u8,
    }
}

// Line i of a sheet, counted from 0, without its line feed: against its form, then for 2 and 3.
pub fn read_line(i: usize, line: &[u8], before: Settings) -> LineRead
    requires { i < sheet_lines }
    ensures { result ≡ line_read i line.now before }
{
    let Some(n) = form_numbers(i, line) else {
        return Err(LineRefusal {
            why: formless(i),
            settings: before,
        });
    };
    let next = with_numbers(before, i, n);
    match check_line(next, i) {
        Ok(()) => Ok(next),
        Err(why) => Err(LineRefusal {
            why,
            settings: next,
        }),
    }
}

// What reading a sheet gives: the check; the settings, all 0 where it is refused; and where the part handed back begins.
#[derive(Clone, Copy)]
pub struct SheetOutcome {
    pub check: SettingsCheck,
    pub settings: Settings,
    pub start: usize,
}

// A sheet refused at a line that begins at a place.
fn refused_at(why: SheetRefusal, start: usize) -> SheetOutcome
    ensures { result ≡ record { check = Err why; settings = settings_of []; start = start } }
{
    SheetOutcome {
        check: Err(why),
        settings: no_settings(),
        start,
    }
}

// The sheet at the front of lent bytes. What follows its last line is not looked at.
pub fn read(s: &[u8]) -> SheetOutcome
    ensures sheet_given { SheetGiven s.now result }
    ensures start_in_bounds { result.start ≤ length s.now }
{
    let mut settings = no_settings();
    let mut at = 0;
    for i in 0..SHEET_LINES {
        let end = line_end(s, at);
        if end >= s.len() {
            return refused_at(formless(i), at);
        }
        match read_line(i, &s[at..end], settings) {
            Ok(next) => {
                settings = next;
                at = end + 1;
            }
            Err(away) => return refused_at(away.why, at),
        }
    }
    SheetOutcome {
        check: Ok(()),
        settings,
        start: at,
    }
}

// The part of the caller's own bytes from a place on, the end at the latest: where a line is refused, that line without its line feed;
// else all that follows.
pub fn part_from(s: &[u8], check: SettingsCheck, start: usize) -> &[u8]
    ensures { IsPartFrom check start s.entry result }
{
    let n = s.len();
    if start > n {
        return &s[n..n];
    }
    match check {
        Ok(()) => &s[start..n],
        Err(_) => {
            let end = line_end(s, start);
            &s[start..end]
        }
    }
}

// The part that reading a sheet hands back: the refused line without its line feed, a missing one the empty part at the end; or
// what follows an accepted sheet.
pub fn part(s: &[u8]) -> &[u8]
    ensures { IsPart s.entry result }
{
    let outcome = read(s);
    let check = outcome.check;
    let start = outcome.start;
    part_from(s, check, start)
}
