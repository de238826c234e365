// Reading and writing: the program's only calls that reach outside it. The two records here are made and changed nowhere else. Where a reader
// states the bytes that it has left, and a writer those that it holds, the contracts say which bytes move. Standard input and output state
// none: that what a read leaves in the buffer is the input, and that what is lent to a write that goes well is written, is what std and C
// are trusted for.
#![tactic(auto)]

ghost use Rattle.std.specs.Prelude.{◌≡◌, true, false, ◌+◌, ◌-◌, ◌≤◌, ◌<◌, length, take, drop};
ghost use Rattle.rules.specs.Regions.{our_equipment};
ghost use Rattle.stdio.specs.Counts.{unread, read_after, read_failed, read_ended, Waits, unsaid, Due};
ghost use Rattle.stdio.specs.Moves.{Came, Put};

use program::State;
use states::within_budget;
use std::io::{Read, Write};

// How far the reading is: how many bytes may still be read (spec 10.9), and of the last read how many bytes it asked for, what it
// answered (how many bytes it put into the buffer, or none where it failed), and how many bytes came.
#[derive(Clone, Copy)]
pub struct Input {
    budget: u64,
    asked: usize,
    answer: Option<usize>,
    bytes: usize,
}

// How far the writing is: how many bytes were handed to it, and whether the last write went well.
#[derive(Clone, Copy)]
pub struct Handed {
    bytes: u64,
    put: bool,
}

impl Input {
    // Before the first read.
    pub fn unread() -> Self
        ensures { result ≡ unread }
    {
        Self {
            budget: 1000000000000,
            asked: 0,
            answer: Some(0),
            bytes: 0,
        }
    }

    pub fn bytes(self) -> usize
        ensures { result ≡ self.bytes }
    {
        self.bytes
    }

    pub fn failed(self) -> bool
        ensures { result ≡ read_failed self }
    {
        self.answer.is_none()
    }

    // The read brought nothing: where it went well, the input has ended.
    pub fn ended(self) -> bool
        ensures { result ≡ read_ended self }
    {
        self.bytes == 0
    }
}

impl Handed {
    // Before the first write.
    pub fn unsaid() -> Self
        ensures { result ≡ unsaid }
    {
        Self {
            bytes: 0,
            put: true,
        }
    }

    pub fn put(self) -> bool
        ensures { result ≡ self.put }
    {
        self.put
    }
}

// One read to a place of the buffer, which is not full, of no more bytes than may still be read. The bytes before the place are kept: they
// are what the session in this state has left, and all that it has said is handed over. State and writing are there for the contract alone.
pub fn read_to<R: Read>(
    from: &mut R,
    buf: &mut [u8],
    have: usize,
    q: State,
    handed: Handed,
    before: Input,
) -> Input
    requires { (have < length buf.old) × (Waits our_equipment q (take have buf.old) handed before) }
    ensures value { result ≡ read_after before (length buf.old - have) result.answer }
    ensures buf_unchanged { take have buf.new ≡ take have buf.old }
    ensures came { Came result (R.remaining from.old) (R.remaining from.new) (take result.bytes (drop have buf.new)) }
{
    let asked = within_budget(buf.len() - have, before.budget);
    let answer = from.read(&mut buf[have..have + asked]).ok();
    let bytes = answer.unwrap_or(0);
    Input {
        budget: before.budget - bytes as u64,
        asked,
        answer,
        bytes,
    }
}

// A text goes to the writing: what a call of `respond` writes for this state and block, told of the input's end where the last read brought
// none; a session stands there that has said as many bytes as were handed over. State, block and reading are there for the contract alone.
pub fn hand_over<W: Write>(
    to: &mut W,
    text: &[u8],
    q: State,
    block: &[u8],
    input: Input,
    before: Handed,
) -> Handed
    requires due { Due our_equipment q block.now input before text.now }
    requires text_bound { before.bytes + length text.now < 18446744073709551616 }
    ensures count { result.bytes ≡ before.bytes + length text.now }
    ensures put { Put result.put (W.contents to.old) (W.contents to.new) text.now }
{
    let put = put_all(to, text);
    Handed {
        bytes: before.bytes + text.len() as u64,
        put,
    }
}

// All of a text is written. The first write that fails or takes no byte ends it, one that a signal interrupts too (spec 10.12).
fn put_all<W: Write>(to: &mut W, text: &[u8]) -> bool
    ensures { Put result (W.contents to.old) (W.contents to.new) text.now }
{
    let mut done = 0;
    while done < text.len() {
        match to.write(&text[done..]) {
            Ok(0) => return false,
            Ok(n) => done += n,
            Err(_) => return false,
        }
    }
    true
}
