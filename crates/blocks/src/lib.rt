// Spec 10.12, 10.13: the answers to a block of input, handed over by one call of `respond` after another.
#![tactic(auto)]

ghost use Rattle.std.specs.Prelude.{◌≡◌, ◌+◌, ◌*◌, ◌<◌, length};
ghost use Rattle.rules.specs.Regions.{our_equipment};
ghost use Rattle.blocks.specs.Blocks.{AnswersBlock};
ghost use Rattle.stdio.specs.Counts.{out_room, Talks, Tells};

use handover::say;
use program::State;
use states::goes_on;
use std::io::Write;
use stdio::{Handed, Input};

// After a block: the state, the place of the first byte that is not taken, how far the writing is, and whether there is more to do.
#[derive(Clone, Copy)]
pub struct Answered {
    pub state: State,
    pub at: usize,
    pub handed: Handed,
    pub going: bool,
}

// The answers to a block's lines, handed over each time that the buffer is full or the block is handled. A write that fails ends the
// program.
pub fn answer<W: Write>(
    to: &mut W,
    q: State,
    block: &[u8],
    last: bool,
    input: Input,
    out: &mut [u8],
    before: Handed,
) -> Answered
    requires out_len { (length out.old ≡ out_room) × (Talks our_equipment last q block.now before) }
    requires block_bound { before.bytes + out_room * (length block.now + 1) < 18446744073709551616 }
    requires tells { Tells input last }
    ensures { AnswersBlock our_equipment q block.now last before (W.contents to.old) (W.contents to.new) result }
{
    let end = block.len();
    let mut state = q;
    let mut at = 0;
    let mut handed = before;
    let mut going = true;
    let mut more = true;
    while more {
        let r = say(to, state, &block[at..end], last, input, out, handed);
        let taken = r.taken;
        state = r.state;
        handed = r.handed;
        at += taken;
        going = handed.put() && !r.done;
        more = goes_on(going, taken);
    }
    Answered {
        state,
        at,
        handed,
        going,
    }
}
