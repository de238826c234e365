// Executed cases: spec 3.7, 3.9. The host's sheet reader, whose result holds a part of the caller's bytes.
ghost use Rattle.std.specs.Prelude.{◌≡◌};
ghost use Rattle.rules.specs.Sheets.{read_sheet};
ghost use Rattle.sheet.specs.Parts.{IsPart};

use reader::read_sheet;
use rules::{SettingsCheck, refusal_number};
use shown::show;
use std::io;

// The part that reading hands back: from the caller's bytes to the caller's bytes.
fn line_of(s: &[u8]) -> &[u8]
    ensures { IsPart s.entry result }
{
    let read = read_sheet(s);
    read.line
}

// What reading finds.
fn check_of(s: &[u8]) -> SettingsCheck
    ensures { result ≡ (read_sheet s.now).check }
{
    let read = read_sheet(s);
    read.check
}

// The number and the line of a check, both 0 where it is accepted.
fn show_check(rt: &impl Print, check: SettingsCheck) -> io::Result<()> {
    match check {
        Ok(()) => {
            show(rt, b"  number: ", 0)?;
            show(rt, b"  line: ", 0)
        }
        Err(refused) => {
            show(rt, b"  number: ", refusal_number(refused.cause) as u64)?;
            show(rt, b"  line: ", refused.line as u64)
        }
    }
}

// A text, and the part of it that reading hands back.
fn shows(rt: &impl Print, label: &[u8], s: &[u8]) -> io::Result<()> {
    let line = line_of(s);
    rt.write_all(label)?;
    rt.write_all(line)?;
    rt.write_all(b"\n")?;
    show_check(rt, check_of(s))
}

pub fn sheets(rt: &impl Print) -> io::Result<()> {
    shows(rt, b"handed back of an empty text: ", b"")?;
    shows(
        rt,
        b"of a line that is unended: ",
        b"(trip (uv1 8800 2100))",
    )?;
    shows(
        rt,
        b"of a line of another form: ",
        b"(trip (uv1 08 2100))\n(trip (uv2 5000 200))\n",
    )?;
    shows(
        rt,
        b"of a number outside its row: ",
        b"(trip (uv1 8800 2100))\n(trip (uv2 5001 200))\n(trip)\n",
    )?;
    shows(
        rt,
        b"of a sheet and what follows: ",
        b"(trip (uv1 8800 2100))\n(trip (uv2 5000 200))\n(trip (ov1 11000 1300))\n(trip (ov2 12000 16))\n(trip (uf1 58500 30000))\n(trip (uf2 56500 16))\n(trip (of1 61200 30000))\n(trip (of2 62000 16))\n(enter (volts 9170 10500))\n(enter (hertz 59500 60100))\n(enter (wait 30000 30000))\n(var (9200 4400) (9800 0) (10200 0) (10800 -4400))\n(watt (10600 10000) (11000 2000))\n(at (1000 1000 1000) 60000 1 10000 10000)",
    )?;
    shows(
        rt,
        b"of a curve that does not rise: ",
        b"(trip (uv1 8800 2100))\n(trip (uv2 5000 200))\n(trip (ov1 11000 1300))\n(trip (ov2 12000 16))\n(trip (uf1 58500 30000))\n(trip (uf2 56500 16))\n(trip (of1 61200 30000))\n(trip (of2 62000 16))\n(enter (volts 9170 10500))\n(enter (hertz 59500 60100))\n(enter (wait 30000 30000))\n(var (9200 4400) (9800 0) (10200 0) (10800 -4400))\n(watt (11000 10000) (11000 0))\n",
    )
}
