// What the programs of executed cases share: a line that names a case and what it gave, and a sheet.
#![tactic(auto)]

use rules::{Limit, Point, Settings, Span};
use std::io;

pub fn show(rt: &impl Print, label: &[u8], n: u64) -> io::Result<()> {
    rt.write_all(label)?;
    println!(rt; "{n}")
}

// The default sheet with a return wait of 0 steps and a ramp of 100.
pub fn sheet() -> Settings {
    Settings {
        trip: [
            Limit {
                level: 8800,
                clearing: 2100,
            },
            Limit {
                level: 5000,
                clearing: 200,
            },
            Limit {
                level: 11000,
                clearing: 1300,
            },
            Limit {
                level: 12000,
                clearing: 16,
            },
            Limit {
                level: 58500,
                clearing: 30000,
            },
            Limit {
                level: 56500,
                clearing: 16,
            },
            Limit {
                level: 61200,
                clearing: 30000,
            },
            Limit {
                level: 62000,
                clearing: 16,
            },
        ],
        volts: Span {
            low: 9170,
            high: 10500,
        },
        hertz: Span {
            low: 59500,
            high: 60100,
        },
        wait: 0,
        ramp: 100,
        var: [
            Point {
                volts: 9200,
                power: 4400,
            },
            Point {
                volts: 9800,
                power: 0,
            },
            Point {
                volts: 10200,
                power: 0,
            },
            Point {
                volts: 10800,
                power: -4400,
            },
        ],
        watt: [
            Point {
                volts: 10600,
                power: 10000,
            },
            Point {
                volts: 11000,
                power: 2000,
            },
        ],
    }
}

// The voltage of a code, or 1000000 and the refusal's number.
