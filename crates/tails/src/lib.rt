// What stands after the last line feed of a block.
#![tactic(auto)]

ghost use Rattle.std.specs.Prelude.{◌≡◌, List, ℕ, ◌+◌, ◌-◌, ◌≤◌, ◌<◌, length};
ghost use Rattle.rules.specs.Samples.{Equipment};
ghost use Rattle.buffers.specs.Written.{Wrote};
ghost use Rattle.program.specs.States.{Fit, dropping};
ghost use Rattle.program.specs.Saying.{end_text};
ghost use Rattle.states.specs.Carrying.{Stuck};
ghost use Rattle.tails.specs.Closed.{Closed};
ghost use Rattle.program.specs.Responses.{line_room};

use lines::put_refused;
use program::State;
use rules::{LINE_ROOM, Refusal, refusal_number};
use states::{Handled, stop};
use text::LONGEST;

// What is written where the input ends with n bytes of a line.
fn put_end(out: &mut [u8], at: usize, q: State, n: usize) -> usize
    requires { at + line_room ≤ length out.old }
    ensures { (l : List ℕ) → length l ≡ n → Wrote out.old at out.new result (end_text q l) }
{
    let stage = q.stage;
    let line = q.line;
    if stage == 0 {
        return put_refused(out, at, refusal_number(Refusal::Form), line);
    }
    if 2 <= stage {
        return at;
    }
    if q.overlong || 0 < n {
        return put_refused(out, at, refusal_number(Refusal::Sample), line);
    }
    at
}

// The state with the n bytes of a line longer than any form dropped.
fn drop_bytes(q: State, n: u64) -> State
    requires { q.taken + n < 18446744073709551616 }
    ensures { result ≡ dropping q n }
{
    State {
        overlong: true,
        taken: q.taken + n,
        ..q
    }
}

// The bytes after the last line feed: where the input ends with them, they are its last line; a line longer than any form is taken
// and dropped; any other waits for its line feed.
pub fn tail(h: Handled, s: &[u8], ends: bool, out: &mut [u8]) -> Handled
    requires { (h.at ≤ length s.now) × (h.written ≤ length out.old) × (Fit h.state (length s.now - h.at)) × (Stuck s.now out.old h) }
    ensures { (e : Equipment) → Closed e ends s.now out.old h out.new result }
{
    let q = h.state;
    let at = h.at;
    let w = h.written;
    let stage = q.stage;
    let end = s.len();
    if 2 <= stage {
        return h;
    }
    if out.len() - w < LINE_ROOM {
        return h;
    }
    let n = end - at;
    if ends {
        let written = put_end(out, w, q, n);
        let state = stop(q, n as u64);
        return Handled {
            state,
            at: end,
            written,
        };
    }
    if q.overlong || LONGEST < n {
        let state = drop_bytes(q, n as u64);
        return Handled {
            state,
            at: end,
            written: w,
        };
    }
    h
}
