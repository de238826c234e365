// Spec 10.1, 10.9, 10.12: a program's loop over read, respond and write. What is handed to the writing is what a session of `respond` says that
// is given what the reads left in the buffer: the transcript, unless a read or a write fails.
#![tactic(auto)]

ghost use Rattle.std.specs.Prelude.{◌≡◌, length};
ghost use Rattle.rules.specs.Regions.{our_equipment};
ghost use Rattle.program.specs.States.{start};
ghost use Rattle.console.specs.Loop.{block_room, Runs};
ghost use Rattle.stdio.specs.Counts.{out_room};

use blocks::answer;
use program::State;
use states::to_front;
use std::io::{Read, Write};
use stdio::{Handed, Input, read_to};

// How a run ended: the state, how many bytes are left in the buffer, and how far reading and writing are.
#[derive(Clone, Copy)]
pub struct RunEnd {
    pub state: State,
    pub have: usize,
    pub input: Input,
    pub handed: Handed,
}

// From a state that a session begins in, blocks of input until its end, or until all is done: no more than 10^12 bytes are read. No more than
// 128 bytes wait for their line feed, so there is always room to read to.
pub fn run<R: Read, W: Write>(
    from: &mut R,
    to: &mut W,
    first: State,
    buf: &mut [u8],
    out: &mut [u8],
) -> RunEnd
    requires { (first ≡ start) × (length buf.old ≡ block_room) × (length out.old ≡ out_room) }
    ensures { Runs our_equipment buf.new (R.remaining from.old) (R.remaining from.new) (W.contents to.old) (W.contents to.new) result }
{
    let mut state = first;
    let mut have = 0;
    let mut input = Input::unread();
    let mut handed = Handed::unsaid();
    let mut going = true;
    while going {
        input = read_to(from, buf, have, state, handed, input);
        if input.failed() {
            return RunEnd {
                state,
                have,
                input,
                handed,
            };
        }
        let bytes = input.bytes();
        let end = have + bytes;
        let last = input.ended();
        let a = answer(to, state, &buf[0..end], last, input, out, handed);
        state = a.state;
        have = to_front(buf, a.at, end);
        handed = a.handed;
        going = a.going;
    }
    RunEnd {
        state,
        have,
        input,
        handed,
    }
}
