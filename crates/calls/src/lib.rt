// Saving and carrying over as the calls of the C boundary answer them: in numbers. What an exported replay leaves stands in specs/.
#![tactic(auto)]

ghost use Rattle.std.specs.Prelude.{◌≡◌};
ghost use Rattle.carryover.specs.CarryOver.{carry_number};
ghost use Rattle.rules.specs.Refusals.{saved_number};
ghost use Rattle.rules.specs.Images.{save_check, saved_into};
ghost use Rattle.calls.specs.ImageCalls.{ForwardLeaves, BackLeaves};

use carryover::{CarryAnswer, carry_number};
use rules::{Board, refusal_number};

// What a replay answers: 0, or the refusal's number; and how many samples were accepted.
#[repr(C)]
#[derive(Clone, Copy)]
pub struct ReplayAnswer {
    pub number: u32,
    pub accepted: usize,
}

// The number of what carrying an image over answers.
pub fn number_answered(answer: CarryAnswer) -> u32
    ensures { result ≡ carry_number answer }
{
    u32::from(carry_number(answer))
}

// An image carried forward, and the number of the answer.
pub fn forward_call(source: &[u8], target: &mut [u8]) -> u32
    ensures { ForwardLeaves source.now target.old target.new result }
{
    number_answered(carryover::forward(source, target))
}

// An image carried back, likewise.
pub fn back_call(source: &[u8], target: &mut [u8]) -> u32
    ensures { BackLeaves source.now target.old target.new result }
{
    number_answered(carryover::back(source, target))
}

// A saving by value.
pub fn save_number(b: Board, out: &mut [u8]) -> u32
    ensures { (result ≡ saved_number (save_check out.old)) × (out.new ≡ saved_into b out.old) }
{
    match image::save(b, out) {
        Ok(()) => 0,
        Err(cause) => refusal_number(cause) as u32,
    }
}
