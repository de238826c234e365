// Spec 10.13: the program's state between blocks of input. What it means stands in specs/.
#![tactic(auto)]

use rules::{Board, Settings};

// `stage` is 0 while the sheet is read, 1 while samples are, and anything else when all is done; `line` is the number of the input
// line that comes next, from 1; `overlong` says that the beginning of that line was taken and dropped, it being longer than any form;
// `taken` counts the bytes taken.
#[derive(Clone, Copy)]
pub struct State {
    pub stage: u8,
    pub line: u64,
    pub overlong: bool,
    pub taken: u64,
    pub settings: Settings,
    pub board: Board,
}
