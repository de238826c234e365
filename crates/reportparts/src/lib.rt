// Spec 10.4: the parts of a report line, each into a lent buffer, and the tests whether one is written at once.
#![tactic(auto)]

ghost use Rattle.std.specs.Prelude.{◌≡◌, ◌+◌, ◌≤◌, length};
ghost use Rattle.buffers.specs.Written.{Wrote};
ghost use Rattle.spacednumbers.specs.Rooms.{number_room, long_room};
ghost use Rattle.reportparts.specs.Parts.{head_room, event_room, report_head, is_steady, event_numbers};

use pieces::bits::put_bits;
use pieces::copies::{put, put_byte};
use pieces::words::put_word;
use rules::{RECOVERY_TOP, Report};
use spacednumbers::put_number;

// "(report ", the status word, a space and the nine bits.
pub fn put_head(out: &mut [u8], at: usize, report: Report) -> usize
    requires { at + head_room ≤ length out.old }
    ensures wrote { Wrote out.old at out.new result (report_head report) }
    ensures upper_bound { result ≤ at + head_room }
{
    let a = put(out, at, b"(report ");
    let b = put_word(out, a, report.status);
    let c = put_byte(out, b, b' ');
    put_bits(out, c, report.bits)
}

// Continuous, of the nine bits ready alone, full share, full recovery: what is reported most.
pub fn is_steady(report: Report) -> bool
    ensures { result ≡ is_steady report }
{
    report.status == 2
        && report.bits == 1
        && report.share == 10000
        && report.recovery == RECOVERY_TOP
}

// Side and held power: at once where there is no event.
pub fn put_event(out: &mut [u8], at: usize, side: u8, held: u16) -> usize
    requires { at + number_room + long_room ≤ length out.old }
    ensures wrote { Wrote out.old at out.new result (event_numbers side held) }
    ensures upper_bound { result ≤ at + event_room }
{
    if side == 0 && held == 0 {
        return put(out, at, b" 0 0");
    }
    let a = put_number(out, at, u16::from(side));
    put_number(out, a, held)
}
