// A line's numbers stored into settings.
#![tactic(auto)]

ghost use Rattle.std.specs.Prelude.{◌≡◌, [], ◌<◌};
ghost use Rattle.rules.specs.Settings.{sheet_lines};
ghost use Rattle.rules.specs.Sheets.{settings_of};
ghost use Rattle.storing.specs.Stores.{with_numbers};

use points::points;
use rules::{Limit, Point, Settings, Span};
use text::magnitude;

// Settings with every number 0.
pub fn no_settings() -> Settings
    ensures { result ≡ settings_of [] }
{
    let limit = Limit {
        level: 0,
        clearing: 0,
    };
    let point = Point { volts: 0, power: 0 };
    Settings {
        trip: [limit; 8],
        volts: Span { low: 0, high: 0 },
        hertz: Span { low: 0, high: 0 },
        wait: 0,
        ramp: 0,
        var: [point; 4],
        watt: [point; 2],
    }
}

// The settings with the numbers of line i, counted from 0.
pub fn with_numbers(before: Settings, i: usize, n: [i32; 8]) -> Settings
    requires { i < sheet_lines }
    ensures { result ≡ with_numbers before i n }
{
    let mut next = before;
    let first = magnitude(n[0]);
    let second = magnitude(n[1]);
    let span = Span {
        low: first,
        high: second,
    };
    match i {
        0..=7 => {
            next.trip[i] = Limit {
                level: first,
                clearing: second,
            };
        }
        8 => next.volts = span,
        9 => next.hertz = span,
        10 => {
            next.wait = first;
            next.ramp = second;
        }
        11 => next.var = points(n),
        _ => next.watt = points(n),
    }
    next
}
