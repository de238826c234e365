// Spec 9: the image of a board record, 49 bytes, high byte first.
#![tactic(auto)]

ghost use Rattle.std.specs.Prelude.{◌≡◌, [], ◌∷◌, ◌≤◌, ltb, length};
ghost use Rattle.buffers.specs.Written.{written};
ghost use Rattle.causes.specs.FirstCause.{cause, first};
ghost use Rattle.rules.specs.Refusals.{saved_number};
ghost use Rattle.rules.specs.Images.{image, image_length, save_check, saved_into};

use imagefields::{put_counters, put_event, put_field, put_powers};
use rules::{Board, IMAGE_LENGTH, Refusal, Saved};

// The image at the front of a buffer that has room for it: each field after the one before it.
fn put_image(out: &mut [u8], b: Board)
    requires { image_length ≤ length out.old }
    ensures { out.new ≡ written out.old 0 (image b) }
{
    let mut at = put_field(out, 0, 1, b.status as u32);
    at = put_counters(out, at, b);
    at = put_field(out, at, 4, b.ramp);
    at = put_powers(out, at, b.watts, b.vars);
    put_event(out, at, b.recovery, b.side, b.held);
}

// The image at the front of a lent buffer; the bytes after it are untouched. A buffer under 49 bytes keeps every byte.
pub fn save(b: Board, out: &mut [u8]) -> Saved
    ensures value { (result ≡ save_check out.old) × (out.new ≡ saved_into b out.old) }
    ensures result_value { saved_number result ≡ first (cause 9 (ltb (length out.old) image_length) ∷ []) }
{
    if out.len() < IMAGE_LENGTH {
        return Err(Refusal::Buffer);
    }
    put_image(out, b);
    Ok(())
}
