// Spec 9.5 to 9.7: the bytes that an image of the old firmware has of one of this firmware, and what stands behind them.
#![tactic(auto)]

ghost use Rattle.std.specs.Prelude.{◌≡◌, ◌≤◌, length, take};
ghost use Rattle.buffers.specs.Written.{written};
ghost use Rattle.oldimages.specs.OldImages.{old_length, has_added};

use rules::{IMAGE_LENGTH, RECOVERY_TOP};

// How many bytes an image of the old firmware has; `old_length` in specs/.
pub const OLD_LENGTH: usize = 45;

// What carrying forward appends: a full recovery count, no side, and a held power of 0 in two bytes; `added_bytes` in specs/.
pub const ADDED: [u8; 4] = [RECOVERY_TOP, 0, 0, 0];

// What stands in a source behind the bytes of an old image is what carrying forward appends.
pub fn has_added(source: &[u8]) -> bool
    ensures { result ≡ has_added source.now }
{
    if source.len() != IMAGE_LENGTH {
        return false;
    }
    if source[OLD_LENGTH] != RECOVERY_TOP {
        return false;
    }
    if source[46] != 0 {
        return false;
    }
    if source[47] != 0 {
        return false;
    }
    source[48] == 0
}

// The bytes that both images have, at the front of the target.
pub fn copy_old(source: &[u8], target: &mut [u8])
    requires { (old_length ≤ length source.now) × (old_length ≤ length target.old) }
    ensures { target.new ≡ written target.old 0 (take old_length source.now) }
{
    target[..OLD_LENGTH].copy_from_slice(&source[..OLD_LENGTH]);
}
