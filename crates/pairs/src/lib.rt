// Settings as the lines of their sheet (spec 3.2), each of one to four pairs of numbers.
#![tactic(auto)]

ghost use Rattle.std.specs.Prelude.{◌≡◌, ◌<◌, pos};
ghost use Rattle.rules.specs.Settings.{sheet_lines, pair, point_pair};
ghost use Rattle.pairs.specs.Pairs.{settings_pair, pairs_in};
ghost use Rattle.ranges.specs.Pairs.{pair_of};

use ranges::Pair;
use rules::{Point, Settings};

fn unsigned_pair(first: u32, second: u32) -> Pair
    ensures { pair_of result ≡ pair (pos first) (pos second) }
{
    Pair {
        first: i64::from(first),
        second: i64::from(second),
    }
}

fn point_pair(p: Point) -> Pair
    ensures { pair_of result ≡ point_pair p }
{
    Pair {
        first: i64::from(p.volts),
        second: i64::from(p.power),
    }
}

// How many pairs a line has, lines counted from 0: the var line four, the watt line two, any other one.
pub fn pairs_in(line: usize) -> usize
    ensures { result ≡ pairs_in line }
{
    match line {
        11 => 4,
        12 => 2,
        _ => 1,
    }
}

// Pair k of a line, both counted from 0. The pairs of a line are no slice: limits, ranges, plain numbers and points hold them.
pub fn pair_at(s: Settings, line: usize, k: usize) -> Pair
    requires { (line < sheet_lines) × (k < pairs_in line) }
    ensures { pair_of result ≡ settings_pair s line k }
{
    match line {
        0..=7 => unsigned_pair(s.trip[line].level, s.trip[line].clearing),
        8 => unsigned_pair(s.volts.low, s.volts.high),
        9 => unsigned_pair(s.hertz.low, s.hertz.high),
        10 => unsigned_pair(s.wait, s.ramp),
        11 => point_pair(s.var[k]),
        _ => point_pair(s.watt[k]),
    }
}
