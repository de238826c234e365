// The host's sheet reader: spec 3.7 to 3.10.
#![tactic(auto)]

ghost use Rattle.reader.specs.Reads.{Reads};

use rules::{Settings, SettingsCheck};
use sheet::{part_from, read};

// What reading a sheet gives: the check, with cause and line where it is refused; the settings, all 0 then; and the caller's own
// bytes that are handed back, the refused line or what follows an accepted sheet.
#[derive(Clone, Copy)]
pub struct SheetRead<'a> {
    pub check: SettingsCheck,
    pub settings: Settings,
    pub line: &'a [u8],
}

// The sheet at the front of lent bytes, read once.
pub fn read_sheet(s: &[u8]) -> SheetRead
    ensures { Reads s.entry result }
{
    let outcome = read(s);
    let line = part_from(s, outcome.check, outcome.start);
    SheetRead {
        check: outcome.check,
        settings: outcome.settings,
        line,
    }
}
