// Spec 10.13: a block's lines, stage by stage: the sheet's, the samples, and what stands after the last line feed.
#![tactic(auto)]

ghost use Rattle.std.specs.Prelude.{◌≡◌, true, false, ◌-◌, ◌≤◌, length, drop};
ghost use Rattle.rules.specs.Samples.{Equipment};
ghost use Rattle.rules.specs.Regions.{our_equipment};
ghost use Rattle.rules.specs.Text.{has_feed};
ghost use Rattle.program.specs.States.{Fit, reads_sheet};
ghost use Rattle.states.specs.Carrying.{begun, Carried, Stuck};
ghost use Rattle.tails.specs.Closed.{Closed};
ghost use Rattle.program.specs.Responses.{line_room};

use handling::sample_lines::sample_lines;
use lines::put_refused;
use program::State;
use rules::{LINE_ROOM, refusal_number};
use sensing::table;
use sheetlines::sheet_lines;
use states::Handled;
use tails::tail;

// The sheet's lines of a block, and the line that is written where one is refused.
fn on_sheet(q: State, s: &[u8], out: &mut [u8]) -> Handled
    requires { (Fit q (length s.now)) × (line_room ≤ length out.old) }
    ensures carried { (e : Equipment) → Carried e s.now out.old (begun q) out.new result }
    ensures s_value { reads_sheet result.state ≡ true → has_feed (drop result.at s.now) ≡ false }
{
    let r = sheet_lines(q, s);
    let state = r.state;
    let at = r.at;
    let check = r.check;
    match check {
        Ok(()) => Handled {
            state,
            at,
            written: 0,
        },
        Err(refused) => {
            let written = put_refused(
                out,
                0,
                refusal_number(refused.cause),
                u64::from(refused.line),
            );
            Handled { state, at, written }
        }
    }
}

// The sample lines of a block, once the sheet is read. The sensing table is made once for all of them.
fn on_samples(h: Handled, s: &[u8], out: &mut [u8]) -> Handled
    requires { (h.at ≤ length s.now) × (h.written ≤ length out.old) × (Fit h.state (length s.now - h.at)) × (reads_sheet h.state ≡ true → has_feed (drop h.at s.now) ≡ false) }
    ensures carried { Carried our_equipment s.now out.old h out.new result }
    ensures stuck { Stuck s.now out.old result }
{
    let state = h.state;
    if state.stage != 1 {
        return h;
    }
    let t = table();
    sample_lines(&t, h, s, out)
}

// A block whose bytes are all before the input's end.
pub fn handle(q: State, s: &[u8], ends: bool, out: &mut [u8]) -> Handled
    requires { Fit q (length s.now) }
    ensures { Closed our_equipment ends s.now out.old (begun q) out.new result }
{
    if out.len() < LINE_ROOM {
        return Handled {
            state: q,
            at: 0,
            written: 0,
        };
    }
    let a = on_sheet(q, s, out);
    let b = on_samples(a, s, out);
    tail(b, s, ends, out)
}
