// The declared types of the interface board. What they mean stands in specs/, in the order of docs/SPECIFICATION.md. Those that a C or Rust
// program lends are laid out as C lays them out.
#![tactic(auto)]

ghost use Rattle.std.specs.Prelude.{◌≡◌};
ghost use Rattle.rules.specs.Refusals.{refusal_number};

// How many lines a sheet has; `sheet_lines` in specs/.
pub const SHEET_LINES: usize = 13;

// Room for one line that is written, whichever; `line_room` in specs/.
pub const LINE_ROOM: usize = 128;

// How many bytes an image has: no shorter buffer takes it; `image_length` in specs/.
pub const IMAGE_LENGTH: usize = 49;

// The last status; `top_status` in specs/.
pub const TOP_STATUS: u8 = 5;

// How many steps it takes until power is back after a cessation; `recovery_top` in specs/.
pub const RECOVERY_TOP: u8 = 40;

// A trip line: a voltage or frequency limit, and its clearing time in steps.
#[repr(C)]
#[derive(Clone, Copy)]
pub struct Limit {
    pub level: u32,
    pub clearing: u32,
}

// An enter-service criterion: a range with both ends included.
#[repr(C)]
#[derive(Clone, Copy)]
pub struct Span {
    pub low: u32,
    pub high: u32,
}

// A point of a volt-var or volt-watt curve.
#[repr(C)]
#[derive(Clone, Copy)]
pub struct Point {
    pub volts: u32,
    pub power: i32,
}

// A sheet: the eight trip lines in sheet order, the enter-service lines with return wait and ramp length, and the two curves.
#[repr(C)]
#[derive(Clone, Copy)]
pub struct Settings {
    pub trip: [Limit; 8],
    pub volts: Span,
    pub hertz: Span,
    pub wait: u32,
    pub ramp: u32,
    pub var: [Point; 4],
    pub watt: [Point; 2],
}

// The board record that a host keeps and lends: its nine counters are the limits' in sheet order and then the ninth,
// `ramp` is the ramp count, `recovery` the recovery count, `side` that of a droop event, and `held` the power that is held in it. The
// narrow fields stand where they cost least room.
#[repr(C)]
#[derive(Clone, Copy)]
pub struct Board {
    pub status: u8,
    pub recovery: u8,
    pub side: u8,
    pub counters: [u32; 9],
    pub ramp: u32,
    pub watts: u16,
    pub vars: i16,
    pub held: u16,
}

// A report. Its nine bits are one number, uv1 highest and ready lowest.
#[repr(C)]
#[derive(Clone, Copy)]
pub struct Report {
    pub status: u8,
    pub recovery: u8,
    pub bits: u16,
    pub share: u16,
    pub watts: u16,
    pub vars: i16,
    pub held: u16,
    pub side: u8,
}

// The operating regions of ride-through (spec 6.7), from the best to the worst.
#[derive(Clone, Copy, Debug, PartialEq, Eq, PartialOrd, Ord)]
pub enum Region {
    Continuous,
    Mandatory,
    Momentary,
    Cease,
}

// The causes for which input is turned away, each with its number (spec 11.1).
#[derive(Clone, Copy, Debug, PartialEq, Eq)]
pub enum Refusal {
    Form = 1,
    Range = 2,
    Rise = 3,
    Code = 4,
    Frequency = 5,
    Permission = 6,
    Power = 7,
    Sample = 8,
    Buffer = 9,
}

// The number of a cause.
pub fn refusal_number(cause: Refusal) -> u8
    ensures { result ≡ refusal_number cause }
{
    cause as u8
}

// The same in 32 bits, as the calls of the C boundary answer it.
impl From<Refusal> for u32 {
    ghost from_gives = { λ cause n. n ≡ refusal_number cause };

    fn from(cause: Refusal) -> u32 {
        cause as u32
    }
}

// Why settings are refused: the first cause, and its sheet line, counted from 1.
#[derive(Clone, Copy, Debug, PartialEq, Eq)]
pub struct SheetRefusal {
    pub cause: Refusal,
    pub line: u8,
}

// What checking settings finds.
pub type SettingsCheck = Result<(), SheetRefusal>;

// What checking a sample finds.
pub type SampleCheck = Result<(), Refusal>;

// The voltage that a mean-square code gives.
pub type Sensed = Result<u16, Refusal>;

// What a step answers.
pub type Answer = Result<Report, Refusal>;

// What saving an image answers.
pub type Saved = Result<(), Refusal>;

// A step's answer, with the record beside it.
#[derive(Clone, Copy)]
pub struct Stepped {
    pub board: Board,
    pub answer: Answer,
}
