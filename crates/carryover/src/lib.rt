// Spec 9.5 to 9.8: images carried over from the old firmware, whose images have 45 bytes and end before the recovery count, and back to it.
#![tactic(auto)]

ghost use Rattle.std.specs.Prelude.{◌≡◌};
ghost use Rattle.causes.specs.FirstCause.{first};
ghost use Rattle.carryover.specs.CarryOver.{carry_number, carry_answer, forward_answer, back_answer, forward_into, back_into, forward_causes, back_causes};

use oldimages::{ADDED, OLD_LENGTH, copy_old, has_added};
use rules::IMAGE_LENGTH;

// Why an image is not carried over, each with its number (spec 11.1).
#[derive(Clone, Copy, Debug, PartialEq, Eq)]
pub enum CarryRefusal {
    TargetLength = 9,
    SourceLength = 10,
    AddedBytes = 11,
}

// What carrying an image over answers.
pub type CarryAnswer = Result<(), CarryRefusal>;

// The number of an answer, 0 where nothing is refused.
pub fn carry_number(answer: CarryAnswer) -> u8
    ensures { result ≡ carry_number answer }
{
    match answer {
        Ok(()) => 0,
        Err(why) => why as u8,
    }
}

// The answer by three tests in the order of spec 9.8: the source has its length; behind the old bytes stands what carrying forward appends;
// the target has room.
fn checked(measured: bool, added: bool, room: bool) -> CarryAnswer
    ensures { result ≡ carry_answer measured added room }
{
    if !measured {
        return Err(CarryRefusal::SourceLength);
    }
    if !added {
        return Err(CarryRefusal::AddedBytes);
    }
    if !room {
        return Err(CarryRefusal::TargetLength);
    }
    Ok(())
}

// An image of the old firmware as one of this firmware, at the front of a lent target; the bytes behind it are untouched. A refused call
// leaves the target as it was.
pub fn forward(source: &[u8], target: &mut [u8]) -> CarryAnswer
    ensures value { (result ≡ forward_answer source.now target.old)
        × (target.new ≡ forward_into source.now target.old) }
    ensures result_value { carry_number result ≡ first (forward_causes source.now target.old) }
{
    checked(
        source.len() == OLD_LENGTH,
        true,
        IMAGE_LENGTH <= target.len(),
    )?;
    copy_old(source, target);
    target[OLD_LENGTH..IMAGE_LENGTH].copy_from_slice(&ADDED);
    Ok(())
}

// An image of this firmware that has what carrying forward appends as one of the old firmware, at the front of a lent target; likewise.
pub fn back(source: &[u8], target: &mut [u8]) -> CarryAnswer
    ensures value { (result ≡ back_answer source.now target.old)
        × (target.new ≡ back_into source.now target.old) }
    ensures result_value { carry_number result ≡ first (back_causes source.now target.old) }
{
    checked(
        source.len() == IMAGE_LENGTH,
        has_added(source),
        OLD_LENGTH <= target.len(),
    )?;
    copy_old(source, target);
    Ok(())
}
