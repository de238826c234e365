// The fast reader of sample lines: most of them stand inside a block, with room after them for the longest one, and then
// no byte needs a test of the text's end. What is passed over here, the matcher reads; what is found here is what the matcher finds.
ghost use Rattle.std.specs.Prelude.{◌≡◌, ◌+◌, ◌≤◌, length, Some, IfSome};
ghost use Rattle.samples.specs.Lines.{sample_at};

use crate::SampleAt;
use fastfields::{closing, fast_field, headed};

// The sample line at a place, with at least 64 bytes from there on: the longest one has fewer.
pub fn fast_sample_at(s: &[u8], start: usize) -> Option<SampleAt>
    requires { start + 64 ≤ length s.now }
    ensures { IfSome result (λ x. Some x ≡ sample_at s.now start) }
{
    if !headed(s, start) {
        return None;
    }
    let mut slice = [0u32; 7];
    let mut at = start + 5;
    for k in 0..7 {
        let x = fast_field(s, at, closing(k))?;
        slice[k] = x.value;
        at = x.next;
        if k == 2 {
            if s[at] != b' ' {
                return None;
            }
            at += 1;
        }
    }
    if s[at] != b'\n' {
        return None;
    }
    Some(SampleAt {
        next: at + 1,
        slice,
    })
}
