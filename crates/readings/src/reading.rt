// Spec 2.5, 4.1, 4.2: the checks of a slice, and what the rules read from an accepted one.
ghost use Rattle.std.specs.Prelude.{◌≡◌, true, [], ◌∷◌, leb, length};
ghost use Rattle.rules.specs.Tests.{all, within};
ghost use Rattle.rules.specs.Sensing.{last_code};
ghost use Rattle.rules.specs.Samples.{sample_check, sample_accepted};
ghost use Rattle.rules.specs.Regions.{equipped_with};
ghost use Rattle.readings.specs.Readings.{reading_of};

use rules::{Refusal, SampleCheck};
use sensing::volts;

// What the rules read: lowest, highest and sum of the three voltages, frequency, permit service, available power and operator's limit.
#[derive(Clone, Copy)]
pub struct Reading {
    pub low: u32,
    pub high: u32,
    pub sum: u32,
    pub frequency: u32,
    pub permit: bool,
    pub available: u32,
    pub limit: u32,
}

#[tactic(auto, unfolding(rules::specs::Tests::all))]
fn codes_known(a: u32, b: u32, c: u32) -> bool
    ensures { result ≡ all (leb a last_code ∷ leb b last_code ∷ leb c last_code ∷ []) }
{
    a <= 4095 && b <= 4095 && c <= 4095
}

#[tactic(auto, unfolding(rules::specs::Tests::all))]
fn powers_known(available: u32, limit: u32) -> bool
    ensures { result ≡ all (leb available 10000 ∷ leb limit 10000 ∷ []) }
{
    available <= 10000 && limit <= 10000
}

// Refusals 8, 4, 5, 6, 7 of a slice, the first found.
#[tactic(auto, unfolding(rules::specs::Samples::sample_check, rules::specs::Tests::within))]
pub fn check(x: &[u32]) -> SampleCheck
    ensures { result ≡ sample_check x.now }
{
    if x.len() != 7 {
        return Err(Refusal::Sample);
    }
    if !codes_known(x[0], x[1], x[2]) {
        return Err(Refusal::Code);
    }
    if !(40000..=80000).contains(&x[3]) {
        return Err(Refusal::Frequency);
    }
    if 1 < x[4] {
        return Err(Refusal::Permission);
    }
    if !powers_known(x[5], x[6]) {
        return Err(Refusal::Power);
    }
    Ok(())
}

// The reading of an accepted slice, by a lent sensing table.
pub fn read(table: &[u16], x: &[u32]) -> Reading
    requires { (length table.now ≡ 4096) × (sample_accepted x.now ≡ true) }
    ensures { result ≡ reading_of (equipped_with table.now) x.now }
{
    let a = u32::from(volts(table, x[0]));
    let b = u32::from(volts(table, x[1]));
    let c = u32::from(volts(table, x[2]));
    Reading {
        low: a.min(b.min(c)),
        high: a.max(b.max(c)),
        sum: a + b + c,
        frequency: x[3],
        permit: x[4] == 1,
        available: x[5],
        limit: x[6],
    }
}
