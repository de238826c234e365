// Spec 5.6: a replay. Lent samples are stepped one after another on a fresh record, under lent settings, and the record's image is saved.
#![tactic(auto)]

ghost use Rattle.std.specs.Prelude.{◌≡◌, [], ◌∷◌, ◌++◌, ltb, length};
ghost use Rattle.rules.specs.Regions.{equipped_with};
ghost use Rattle.rules.specs.Images.{image_length};
ghost use Rattle.causes.specs.FirstCause.{cause, first, settings_causes};
ghost use Rattle.replay.specs.Replays.{replay_refused, replayed_by, replayed_into_by, replayed, replayed_into};

use freshboard::fresh_report;
use image::save;
use recording::step_all;
use rules::{IMAGE_LENGTH, Refusal, Report, Settings};
use sensing::table;

// What a replay answers: 0 or the refusal's number, how many samples were accepted, and the last report.
// No Result: by value a refused replay answers a report too (spec 5.6), and `ReplaysRightly` of specs/ is claimed of it and of the exported call alike.
#[derive(Clone, Copy)]
pub struct Replayed {
    pub number: u32,
    pub accepted: usize,
    pub report: Report,
}

// A refused replay: the number of its cause, and no samples.
fn refused(cause: Refusal) -> Replayed
    ensures { result ≡ replay_refused cause }
{
    Replayed {
        number: u32::from(cause),
        accepted: 0,
        report: fresh_report(),
    }
}

// Replays lent samples with a sensing table lent, and saves the image. Settings are checked for 2 and 3 in sheet order, then the buffer for 9;
// a refused replay leaves the buffer as it was. A refused sample is no step and does not refuse the replay.
pub fn replay_by(table: &[u16], settings: Settings, samples: &[u32], buffer: &mut [u8]) -> Replayed
    requires { length table.now ≡ 4096 }
    ensures value { (result ≡ replayed_by (equipped_with table.now) settings samples.now buffer.old)
        × (buffer.new ≡ replayed_into_by (equipped_with table.now) settings samples.now buffer.old) }
    ensures number_value { result.number ≡ first (settings_causes settings ++ (cause 9 (ltb (length buffer.old) image_length) ∷ [])) }
{
    match settings::accept(settings) {
        Err(away) => refused(away.cause),
        Ok(accepted) => {
            if buffer.len() < IMAGE_LENGTH {
                return refused(Refusal::Buffer);
            }
            let run = step_all(table, accepted, samples);
            let board = run.board;
            let report = run.report;
            let _ = save(board, buffer);
            Replayed {
                number: 0,
                accepted: run.accepted,
                report,
            }
        }
    }
}

// Replays lent samples with our table.
pub fn replay(settings: Settings, samples: &[u32], buffer: &mut [u8]) -> Replayed
    ensures value { (result ≡ replayed settings samples.now buffer.old)
        × (buffer.new ≡ replayed_into settings samples.now buffer.old) }
    ensures number_value { result.number ≡ first (settings_causes settings ++ (cause 9 (ltb (length buffer.old) image_length) ∷ [])) }
{
    let t = table();
    replay_by(&t, settings, samples, buffer)
}
