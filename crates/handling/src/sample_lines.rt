// The sample lines of a block.
ghost use Rattle.std.specs.Prelude.{◌≡◌, ◌-◌, ◌≤◌, length};
ghost use Rattle.rules.specs.Regions.{equipped_with};
ghost use Rattle.program.specs.States.{Fit};
ghost use Rattle.states.specs.Carrying.{Carried, Stuck};

use program::State;
use rules::LINE_ROOM;
use sampleline::{answer_to, line_at, put_answer};
use sensing::SensingTable;
use states::Handled;

// The sample lines of a block, as many as are there and fit, from a place that the state stands at. Whether the settings are accepted is asked
// once for all of them.
pub fn sample_lines(table: &SensingTable, h: Handled, s: &[u8], out: &mut [u8]) -> Handled
    requires { (h.state.stage ≡ 1) × (Fit h.state (length s.now - h.at)) × (h.at ≤ length s.now) × (h.written ≤ length out.old) }
    ensures carried { Carried (equipped_with table.now) s.now out.old h out.new result }
    ensures stuck { Stuck s.now out.old result }
{
    let q = h.state;
    let accepted = settings::accept(q.settings);
    let mut board = q.board;
    let mut line = q.line;
    let mut overlong = q.overlong;
    let mut at = h.at;
    let mut w = h.written;
    while LINE_ROOM <= out.len() - w {
        let Some(x) = line_at(overlong, s, at) else {
            break;
        };
        let r = answer_to(table, accepted, board, x);
        board = r.board;
        w = put_answer(out, w, r.answer, line);
        at = x.next;
        overlong = false;
        line += 1;
    }
    let state = State {
        stage: 1,
        line,
        overlong,
        taken: q.taken + ((at - h.at) as u64),
        board,
        ..q
    };
    Handled {
        state,
        at,
        written: w,
    }
}
