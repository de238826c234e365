// The program's state: how a lent one is read, and where it ends; and the bytes of a block that are left, moved to the front of its buffer.
#![tactic(auto)]

ghost use Rattle.std.specs.Prelude.{◌≡◌, ◌&&◌, [], ◌+◌, ◌-◌, ◌≤◌, ◌<◌, min, ltb, length, take, drop};
ghost use Rattle.rules.specs.Records.{fresh};
ghost use Rattle.rules.specs.Sheets.{settings_of};
ghost use Rattle.rules.specs.Transcripts.{input_end};
ghost use Rattle.program.specs.States.{start, sensible, stopped};
ghost use Rattle.program.specs.Responses.{budget};

use program::State;
use rules::{Board, SHEET_LINES, Settings};

// A state, the place in a block that it stands at, and how many bytes are written.
#[derive(Clone, Copy)]
pub struct Handled {
    pub state: State,
    pub at: usize,
    pub written: usize,
}

// A turn that goes on, and took some bytes, is followed by another.
pub fn goes_on(going: bool, taken: usize) -> bool
    ensures { result ≡ (going && ltb 0 taken) }
{
    going && 0 < taken
}

// Before the first byte, with the settings and the board that a program begins with.
#[tactic(auto, unfolding(program::specs::States::start))]
pub fn start(settings: Settings, board: Board) -> State
    requires { (settings ≡ settings_of []) × (board ≡ fresh) }
    ensures { result ≡ start }
{
    State {
        stage: 0,
        line: 1,
        overlong: false,
        taken: 0,
        settings,
        board,
    }
}

// Its counts pass a test that those of every state that some input leads to pass.
#[tactic(auto, unfolding(program::specs::States::sensible))]
pub fn sensible(q: State) -> bool
    ensures { result ≡ sensible q }
{
    1 <= q.line
        && q.taken <= 1000000000000
        && q.line <= q.taken + 1
        && (q.stage != 0 || q.line <= SHEET_LINES as u64)
}

// All is done, with n bytes more taken.
pub fn stop(q: State, n: u64) -> State
    requires { q.taken + n < 18446744073709551616 }
    ensures { result ≡ stopped q n }
{
    State {
        stage: 2,
        overlong: false,
        taken: q.taken + n,
        ..q
    }
}

// How many bytes may still be taken.
pub fn budget(q: State) -> u64
    requires { q.taken ≤ input_end }
    ensures { result ≡ budget q }
{
    1000000000000 - q.taken
}

// How many of these bytes the budget has room for.
pub fn within_budget(bytes: usize, budget: u64) -> usize
    ensures { result ≡ min budget bytes }
{
    (bytes as u64).min(budget) as usize
}

// The bytes from a place up to an end go to the front.
pub fn to_front(buf: &mut [u8], from: usize, end: usize) -> usize
    requires { (from ≤ end) × (end ≤ length buf.old) }
    ensures { (result ≡ end - from) × (take result buf.new ≡ take result (drop from buf.old)) }
{
    buf.copy_within(from..end, 0);
    end - from
}
