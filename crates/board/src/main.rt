// The program `board`: spec 10. Two buffers, and the loop over read, respond and write from the state before the first byte.
#![tactic(auto)]

use console::run;
use respond::start;

fn main(rt: HostRuntime) {
    let mut from = rt.stdin();
    let mut to = rt.stdout();
    let mut buf = [0u8; 65536];
    let mut out = [0u8; 131072];
    run(&mut from, &mut to, start(), &mut buf, &mut out);
}
