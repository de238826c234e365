// Spec 10.12: one call of `respond`, and what it wrote handed to the writing.
#![tactic(auto)]

ghost use Rattle.std.specs.Prelude.{◌≡◌, ◌+◌, ◌<◌, length};
ghost use Rattle.rules.specs.Regions.{our_equipment};
ghost use Rattle.handover.specs.OneCall.{Says};
ghost use Rattle.program.specs.Responses.{respond_of};
ghost use Rattle.stdio.specs.Counts.{out_room, Talks, Tells};
ghost use Rattle.stdio.specs.Moves.{Put};

use program::State;
use respond::respond;
use std::io::Write;
use stdio::{Handed, Input, hand_over};

// After a call of `respond`: the state, how many bytes it took, how far the writing is, and whether all is done.
#[derive(Clone, Copy)]
pub struct Spoken {
    pub state: State,
    pub taken: usize,
    pub handed: Handed,
    pub done: bool,
}

// One call of `respond`, and what it wrote handed over. The count of bytes handed over stays below 2^64. How far the reading is is there for
// the contract alone.
pub fn say<W: Write>(
    to: &mut W,
    q: State,
    block: &[u8],
    last: bool,
    input: Input,
    out: &mut [u8],
    before: Handed,
) -> Spoken
    requires out_len { (length out.old ≡ out_room) × (Talks our_equipment last q block.now before) }
    requires out_room_bound { before.bytes + out_room < 18446744073709551616 }
    requires tells { Tells input last }
    ensures says { Says our_equipment q block.now last before result }
    ensures put { Put result.handed.put (W.contents to.old) (W.contents to.new) (respond_of our_equipment q block.now last out_room).text }
{
    let r = respond(q, block, last, out);
    let n = r.written;
    let handed = hand_over(to, &out[0..n], q, block, input, before);
    let next = r.state;
    Spoken {
        state: next,
        taken: r.taken,
        handed,
        done: r.done,
    }
}
