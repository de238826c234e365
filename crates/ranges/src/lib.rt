// Spec 3.5: the table of allowed values, and the one range check that reads it.
#![tactic(auto)]

ghost use Rattle.std.specs.Prelude.{◌≡◌, ◌&&◌, map};
ghost use Rattle.std.specs.Int.Signed.{le_z};
ghost use Rattle.rules.specs.Settings.{rows, in_row};
ghost use Rattle.ranges.specs.Rows.{row_of};
ghost use Rattle.ranges.specs.Pairs.{pair_of};

use rules::SHEET_LINES;

// Two numbers of a line, wide enough for any that lent settings hold.
#[derive(Clone, Copy)]
pub struct Pair {
    pub first: i64,
    pub second: i64,
}

// Lowest and highest of a line's first number, then of its second, ends included. A constant's value calls nothing, and so holds no `a..=b`.
#[derive(Clone, Copy)]
pub struct Row(pub i64, pub i64, pub i64, pub i64);

// A row a line, in sheet order.
const ROWS: [Row; SHEET_LINES] = [
    Row(0, 8800, 2100, 5000), // uv1
    Row(0, 5000, 200, 2100), // uv2
    Row(11000, 12000, 100, 1300), // ov1
    Row(12000, 12000, 16, 16), // ov2
    Row(50000, 59000, 18000, 100000), // uf1
    Row(50000, 57000, 16, 100000), // uf2
    Row(61000, 66000, 18000, 100000), // of1
    Row(61800, 66000, 16, 100000), // of2
    Row(8800, 9500, 10500, 10600), // volts
    Row(59000, 59900, 60100, 61000), // hertz
    Row(0, 60000, 100, 60000), // wait
    Row(7000, 13000, -10000, 10000), // var
    Row(10000, 12000, 0, 10000), // watt
];

// The whole table.
#[tactic(auto, unfolding(rules::specs::Settings::rows))]
pub fn row_table() -> [Row; SHEET_LINES]
    ensures { map row_of result ≡ rows }
{
    ROWS
}

// Whether a number lies in a range, ends included.
fn within(low: i64, high: i64, n: i64) -> bool
    ensures { result ≡ (le_z low n && le_z n high) }
{
    (low..=high).contains(&n)
}

// Whether a pair lies in a row.
pub fn in_row(row: Row, p: Pair) -> bool
    ensures { result ≡ in_row (row_of row) (pair_of p) }
{
    within(row.0, row.1, p.first) && within(row.2, row.3, p.second)
}
