// Spec 4.3, 6 to 8: the step, by value.
ghost use Rattle.std.specs.Prelude.{◌≡◌, true, ◌++◌, ◌/◌, ◌≤◌, length};
ghost use Rattle.rules.specs.Settings.{settings_accepted};
ghost use Rattle.rules.specs.Samples.{Slice, Equipment};
ghost use Rattle.rules.specs.Regions.{voltage_region, region_of, our_equipment, equipped_with};
ghost use Rattle.rules.specs.Droop.{side_after};
ghost use Rattle.rules.specs.Refusals.{answer_number};
ghost use Rattle.rules.specs.Records.{settled, next, step_of};
ghost use Rattle.causes.specs.FirstCause.{first, settings_causes, sample_causes};
ghost use Rattle.readings.specs.Readings.{reading_of, Exportable};
ghost use Rattle.service.specs.Steps.{Bits, reported};

use counters::{Counters, count_all};
use counting::in_range;
use droop::{held_after, side_after};
use output::powers_in;
use readings::reading::{Reading, check, read};
use recovery::{ceases, recovery_after};
use ridethrough::regions::region;
use rules::{Board, Region, Report, Settings, Stepped};
use sensing::table;
use serving::{in_service, in_service_after, is_continuous, ramp_after, share, status_of};
use settings::Accepted;

// Spec 6.13 to 8.1: the record and the report, from the counters, in service, the region, the ramp count, the recovery count, the side and the
// held power.
fn settle(
    s: Accepted,
    r: Reading,
    c: Counters,
    on: bool,
    area: Region,
    ramp: u32,
    recovery: u8,
    side: u8,
    held: u16,
) -> Stepped
    requires { (Exportable r) × (ramp ≤ s.settings.ramp) × (side ≡ side_after on r.frequency) }
    ensures { (e : Equipment) (x : Slice) → reading_of e x ≡ r → region_of e s.settings x ≡ area → Bits e s.settings c.n c.bits
        → result ≡ reported e s.settings (settled e s.settings x c.n on ramp recovery held) }
{
    let length = s.settings.ramp;
    let status = status_of(on, area, ramp == length);
    let part = share(ramp, length);
    let p = powers_in(r, s.settings, status, part, recovery, held);
    let n = c.n;
    let watts = p.watts as u16;
    let vars = p.vars as i16;
    let shown = part as u16;
    Stepped {
        board: Board {
            status,
            counters: n,
            ramp,
            watts,
            vars,
            recovery,
            side,
            held,
        },
        answer: Ok(Report {
            status,
            bits: c.bits,
            share: shown,
            recovery,
            side,
            held,
            watts,
            vars,
        }),
    }
}

// The rules, on what is read from an accepted sample.
fn advance(b: Board, s: Accepted, r: Reading) -> Stepped
    requires { Exportable r }
    ensures { (e : Equipment) (x : Slice) → e.region ≡ voltage_region → reading_of e x ≡ r → result ≡ reported e s.settings (next e s.settings x b) }
{
    let old = b.counters;
    let inside = in_range(r, s.settings);
    let c = count_all(inside, old, r, s.settings);
    let was = in_service(b.status);
    let on = in_service_after(was, r.permit, c.bits);
    let area = region(inside, r);
    let ramp = ramp_after(was, on, is_continuous(area), s.settings.ramp, b.ramp);
    let recovery = recovery_after(was, on, ceases(area), b.recovery);
    let side = side_after(on, r.frequency);
    let held = held_after(side, was, b.side, b.held, b.watts);
    settle(s, r, c, on, area, ramp, recovery, side, held)
}

// The step under settings that are accepted and with a sensing table lent: only the sample is checked.
pub fn step_accepted(table: &[u16], b: Board, s: Settings, x: &[u32]) -> Stepped
    requires { (length table.now ≡ 4096) × (settings_accepted s ≡ true) }
    ensures { result ≡ step_of (equipped_with table.now) b s x.now }
{
    match check(x) {
        Err(cause) => Stepped {
            board: b,
            answer: Err(cause),
        },
        Ok(()) => advance(b, Accepted { settings: s }, read(table, x)),
    }
}

// The step with a sensing table lent: settings are checked for 2 and 3 in sheet order, then the slice for 8, 4, 5, 6, 7; a refused call changes
// nothing.
pub fn step_by(table: &[u16], b: Board, s: Settings, x: &[u32]) -> Stepped
    requires { length table.now ≡ 4096 }
    ensures value { result ≡ step_of (equipped_with table.now) b s x.now }
    ensures answer_value { answer_number result.answer ≡ first (settings_causes s ++ sample_causes x.now) }
{
    match settings::accept(s) {
        Err(refused) => Stepped {
            board: b,
            answer: Err(refused.cause),
        },
        Ok(accepted) => step_accepted(table, b, accepted.settings, x),
    }
}

// The step, with our table.
pub fn step(b: Board, s: Settings, x: &[u32]) -> Stepped
    ensures value { result ≡ step_of our_equipment b s x.now }
    ensures answer_value { answer_number result.answer ≡ first (settings_causes s ++ sample_causes x.now) }
{
    let t = table();
    step_by(&t, b, s, x)
}
