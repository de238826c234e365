// Executed cases: spec 10.8, 10.9, 10.15. `respond` with a lent state near the last byte that is read.
#![tactic(auto)]

use program::State;
use respond::respond;
use shown::{sheet, show};
use std::io;

// Spec 10.9: so many bytes of an input are read.
const INPUT_END: u64 = 1000000000000;

// A state at a line, with so many bytes taken; the sheet is being read (stage 0), or lines after it are (stage 1).
fn lent(stage: u8, line: u64, overlong: bool, taken: u64) -> State {
    State {
        stage,
        line,
        overlong,
        taken,
        settings: sheet(),
        board: service::fresh(),
    }
}

fn yes(b: bool) -> u64 {
    if b { 1 } else { 0 }
}

// What a call makes of a block: how many bytes it takes, whether all is done, and what it writes.
fn show_answer(rt: &impl Print, label: &[u8], state: State, block: &[u8]) -> io::Result<()> {
    let mut out = [0u8; 256];
    let r = respond(state, block, false, &mut out);
    let taken = r.taken as u64;
    let done = yes(r.done);
    let written = r.written;
    show(rt, label, taken)?;
    show(rt, b"  all is done: ", done)?;
    rt.write_all(&out[0..written])
}

// A sample line of 42 bytes, where so many bytes are left to be read.
fn sample(rt: &impl Print, label: &[u8], left: u64) -> io::Result<()> {
    if INPUT_END < left {
        return Ok(());
    }
    let state = lent(1, 14, false, INPUT_END - left);
    show_answer(
        rt,
        label,
        state,
        b"(at (1000 1000 1000) 60000 1 10000 10000)\n",
    )
}

fn main(rt: HostRuntime) -> io::Result<()> {
    sample(&rt, b"a line and room for more, taken: ", 43)?;
    sample(&rt, b"a line that ends with the input, taken: ", 42)?;
    sample(&rt, b"a line whose line feed is cut off, taken: ", 41)?;
    sample(&rt, b"a line of which one byte is read, taken: ", 1)?;
    sample(&rt, b"a line behind the last byte, taken: ", 0)?;
    show_answer(
        &rt,
        b"two lines, the second cut off, taken: ",
        lent(1, 14, false, INPUT_END - 45),
        b"(at (1000 1000 1000) 60000 1 10000 10000)\n(at (1000 1000 1000) 60000 1 10000 10000)\n",
    )?;
    show_answer(
        &rt,
        b"the end of a line longer than any form, taken: ",
        lent(1, 14, true, INPUT_END - 3),
        b"1)\n",
    )?;
    show_answer(
        &rt,
        b"such a line, cut off, taken: ",
        lent(1, 14, true, INPUT_END - 2),
        b"1)\n",
    )?;
    show_answer(
        &rt,
        b"sheet line 13 missing at the last byte, taken: ",
        lent(0, 13, false, INPUT_END),
        b"(watt (10600 10000) (11000 2000))\n",
    )?;
    show_answer(
        &rt,
        b"a state past the last byte, taken: ",
        lent(1, 14, false, INPUT_END + 1),
        b"(at (1000 1000 1000) 60000 1 10000 10000)\n",
    )?;
    show_answer(
        &rt,
        b"a state with the largest count, taken: ",
        lent(1, 14, false, 18446744073709551615),
        b"(at)\n",
    )?;
    show_answer(
        &rt,
        b"a state at line 0, taken: ",
        lent(1, 0, false, 1000),
        b"(at)\n",
    )?;
    show_answer(
        &rt,
        b"a state of more lines than bytes, taken: ",
        lent(1, 14, false, 12),
        b"(at)\n",
    )?;
    show_answer(
        &rt,
        b"a state in the sheet past line 13, taken: ",
        lent(0, 14, false, 1000),
        b"(at)\n",
    )?;
    show_answer(
        &rt,
        b"a state in which all is done, taken: ",
        lent(2, 14, false, 1000),
        b"(at)\n",
    )
}
