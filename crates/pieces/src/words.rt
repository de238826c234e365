// The status words.
ghost use Rattle.std.specs.Prelude.{◌≡◌, ◌+◌, ◌≤◌, length};
ghost use Rattle.buffers.specs.Written.{Wrote};
ghost use Rattle.pieces.specs.Pieces.{status_word};

use crate::copies::put;

// The word of a status; an unknown status has none. Each arm copies a length that is known, without a call.
// Out of line, so that the loop over the lines keeps its registers: 649 instructions a sample line, and 663 in line.
#[inline(never)]
pub fn put_word(out: &mut [u8], at: usize, status: u8) -> usize
    requires { at + 10 ≤ length out.old }
    ensures wrote { Wrote out.old at out.new result (status_word status) }
    ensures upper_bound { result ≤ at + 10 }
{
    match status {
        0 => put(out, at, b"tripped"),
        1 => put(out, at, b"entering"),
        2 => put(out, at, b"continuous"),
        3 => put(out, at, b"mandatory"),
        4 => put(out, at, b"momentary"),
        5 => put(out, at, b"cease"),
        _ => at,
    }
}
