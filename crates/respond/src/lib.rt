// Spec 10.13: the program's answer to a block of input.
#![tactic(auto)]

ghost use Rattle.std.specs.Prelude.{◌≡◌, false, ◌≤◌, length};
ghost use Rattle.rules.specs.Regions.{our_equipment};
ghost use Rattle.respond.specs.Answering.{Responds};
ghost use Rattle.program.specs.Responses.{line_room, longest};

mod begin;

pub use begin::start;
use program::State;
use stages::handle;
use states::{sensible, stop, within_budget};

// What `respond` answers: the next state, how many bytes of the block it took, how many it wrote, and whether all is done.
#[derive(Clone, Copy)]
pub struct Responded {
    pub state: State,
    pub taken: usize,
    pub written: usize,
    pub done: bool,
}

// The answer to a block of input, `last` where the input ends with it: as many lines as are there and fit into the lent buffer. A line is
// handled where the buffer has room for 128 bytes more, and a line without its line feed waits while it is not longer than 128
// bytes: lend a buffer of 128 bytes or more, and blocks that can hold more than 128.
pub fn respond(state: State, block: &[u8], last: bool, out: &mut [u8]) -> Responded
    ensures responds { Responds our_equipment state block.now last out.old out.new result }
    ensures taken_in_bounds { (result.taken ≤ length block.now) × (result.written ≤ length out.old) }
    ensures block_len_bound { line_room ≤ length out.old → result.done ≡ false → result.taken ≡ 0 → length block.now ≤ longest }
{
    if !sensible(state) {
        return Responded {
            state: stop(state, 0),
            taken: 0,
            written: 0,
            done: true,
        };
    }
    let budget = states::budget(state);
    let end = within_budget(block.len(), budget);
    let ends = last || budget <= block.len() as u64;
    let r = handle(state, &block[0..end], ends, out);
    let next = r.state;
    let stage = next.stage;
    Responded {
        state: next,
        taken: r.at,
        written: r.written,
        done: 2 <= stage,
    }
}
