// Spec 10.4, 10.5: the lines that are written, each into a lent buffer.
#![tactic(auto)]

ghost use Rattle.std.specs.Prelude.{◌+◌, ◌≤◌, length};
ghost use Rattle.rules.specs.Transcripts.{line_room, report_line, refused_line};
ghost use Rattle.buffers.specs.Written.{Wrote};
ghost use Rattle.lines.specs.Fronts.{front_room, report_front};

use pieces::copies::put;
use reportparts::{is_steady, put_event, put_head};
use rules::Report;
use spacednumbers::{put_long_number, put_number, put_signed_number};

// The line as far as the recovery count: at once where it is the steady one, and otherwise piece by piece.
fn put_front(out: &mut [u8], at: usize, report: Report) -> usize
    requires { at + line_room ≤ length out.old }
    ensures wrote { Wrote out.old at out.new result (report_front report) }
    ensures upper_bound { result ≤ at + front_room }
{
    if is_steady(report) {
        return put(out, at, b"(report continuous 000000001 10000 40");
    }
    let a = put_head(out, at, report);
    let b = put_number(out, a, report.share);
    put_number(out, b, u16::from(report.recovery))
}

// A report: status word, nine bits and the numbers, the share first.
pub fn put_report(out: &mut [u8], at: usize, report: Report) -> usize
    requires { at + line_room ≤ length out.old }
    ensures { Wrote out.old at out.new result (report_line report) }
{
    let mut place = put_front(out, at, report);
    place = put_event(out, place, report.side, report.held);
    place = put_number(out, place, report.watts);
    place = put_signed_number(out, place, report.vars);
    put(out, place, b")\n")
}

// A refusal: the cause's number and the input line.
pub fn put_refused(out: &mut [u8], at: usize, number: u8, line: u64) -> usize
    requires { at + line_room ≤ length out.old }
    ensures { Wrote out.old at out.new result (refused_line number line) }
{
    let a = put(out, at, b"(refused");
    let b = put_long_number(out, a, u64::from(number));
    let c = put_long_number(out, b, line);
    put(out, c, b")\n")
}
