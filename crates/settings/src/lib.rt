// Whether settings keep to the ranges and the strict rise of spec 3.5 and 3.6.
#![tactic(auto)]

ghost use Rattle.std.specs.Prelude.{◌≡◌, true, map, ◌<◌, ◌≤◌, IfOk, IfErr, Ok, Err};
ghost use Rattle.rules.specs.Tests.{all};
ghost use Rattle.rules.specs.Settings.{sheet_lines, in_row, rising, settings_check, settings_accepted};
ghost use Rattle.rules.specs.Refusals.{settings_number, line_of};
ghost use Rattle.causes.specs.FirstCause.{first, settings_causes, cause_line};
ghost use Rattle.ranges.specs.Rows.{row_of, row_at};
ghost use Rattle.pairs.specs.Pairs.{settings_line};
ghost use Rattle.settings.specs.Lines.{line_found, first_lines_check};

use pairs::{pair_at, pairs_in};
use ranges::{Row, in_row, row_table};
use rules::{Refusal, SHEET_LINES, Settings, SettingsCheck, SheetRefusal};

// Whether every pair of a line lies in a row.
fn line_in_row(row: Row, s: Settings, line: usize) -> bool
    requires { line < sheet_lines }
    ensures { result ≡ all (map (in_row (row_of row)) (settings_line s line)) }
{
    for k in 0..pairs_in(line) {
        if !in_row(row, pair_at(s, line, k)) {
            return false;
        }
    }
    true
}

// Whether the first numbers along a line rise strictly.
fn rises(s: Settings, line: usize) -> bool
    requires { line < sheet_lines }
    ensures { result ≡ rising (settings_line s line) }
{
    for k in 1..pairs_in(line) {
        if pair_at(s, line, k - 1).first >= pair_at(s, line, k).first {
            return false;
        }
    }
    true
}

// Refusals 2 and 3 of one line, 2 before 3 (spec 4.3). The row is given: whoever names the table copies it whole.
fn line_check(row: Row, s: Settings, line: usize) -> SettingsCheck
    requires { line < sheet_lines }
    ensures { result ≡ line_found (row_of row) (settings_line s line) line }
{
    let number = (line + 1) as u8;
    if !line_in_row(row, s, line) {
        return Err(SheetRefusal {
            cause: Refusal::Range,
            line: number,
        });
    }
    if !rises(s, line) {
        return Err(SheetRefusal {
            cause: Refusal::Rise,
            line: number,
        });
    }
    Ok(())
}

// The same for a line of settings, counted from 0.
pub fn check_line(s: Settings, line: usize) -> SettingsCheck
    requires { line < sheet_lines }
    ensures { result ≡ line_found (row_at line) (settings_line s line) line }
{
    let rows = row_table();
    line_check(rows[line], s, line)
}

// Refusals 2 and 3 of the first so many lines: the first found in sheet order (spec 4.3).
pub fn check_first(s: Settings, lines: usize) -> SettingsCheck
    requires { lines ≤ sheet_lines }
    ensures { result ≡ first_lines_check lines s }
{
    let rows = row_table();
    for line in 0..lines {
        line_check(rows[line], s, line)?;
    }
    Ok(())
}

// Settings that are accepted.
#[derive(Clone, Copy)]
pub struct Accepted {
    pub settings: Settings,
    pub ghost sheet: { settings_accepted settings ≡ true },
}

// The settings where they are accepted, and otherwise why they are refused.
pub fn accept(s: Settings) -> Result<Accepted, SheetRefusal>
    ensures accepted { IfOk result (λ a. (a.settings ≡ s) × (settings_check s ≡ Ok tt)) }
    ensures refused { IfErr result (λ away. settings_check s ≡ Err away) }
{
    check(s)?;
    Ok(Accepted { settings: s })
}

// Refusals 2 and 3 of all lines.
pub fn check(s: Settings) -> SettingsCheck
    ensures value { result ≡ settings_check s }
    ensures result_value { (settings_number result ≡ first (settings_causes s)) × (line_of result ≡ cause_line 1 (settings_causes s)) }
{
    check_first(s, SHEET_LINES)
}
