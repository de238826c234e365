// Executed cases: spec 14.2, 11.1. Each line names a case and what the library gave.
#![tactic(auto)]

mod sheets;

use rules::{Answer, Board, Saved, Settings, refusal_number};
use sheets::sheets;
use shown::{sheet, show};
use std::io;

fn wide16(x: u16) -> u64 {
    x as u64
}

fn wide8(x: u8) -> u64 {
    x as u64
}

fn volts_of(code: u32) -> u64 {
    match sensing::sense(code) {
        Ok(v) => wide16(v),
        Err(cause) => 1000000 + refusal_number(cause) as u64,
    }
}

// The status that an answer shows, or 100 and the refusal's number.
fn status_of(answer: Answer) -> u64 {
    match answer {
        Ok(r) => wide8(r.status),
        Err(cause) => 100 + refusal_number(cause) as u64,
    }
}

// The answer to one call on a fresh record.
fn first_status(s: Settings, code: u32, frequency: u32, permission: u32, available: u32) -> u64 {
    let x = [code, 1000, 1000, frequency, permission, available, 10000];
    let t = service::step::step(service::fresh(), s, &x);
    let answer = t.answer;
    status_of(answer)
}

// In service, then n steps with all phases above ov2: the last status.
fn status_above_ov2(n: u32) -> u64 {
    let s = sheet();
    let calm = [1000, 1000, 1000, 60000, 1, 10000, 10000];
    let mut t = service::step::step(service::fresh(), s, &calm);
    let high = [1441, 1441, 1441, 60000, 1, 10000, 10000];
    for _ in 0..n {
        t = service::step::step(t.board, s, &high);
    }
    let answer = t.answer;
    status_of(answer)
}

fn saved_number(answer: Saved) -> u64 {
    match answer {
        Ok(()) => 0,
        Err(cause) => refusal_number(cause) as u64,
    }
}

// The board after one step in service with vars on the falling side, and one more in a droop event.
fn exporting() -> Board {
    let s = sheet();
    let calm = [1000, 1000, 1000, 60000, 1, 10000, 10000];
    let t = service::step::step(service::fresh(), s, &calm);
    let falling = [1041, 1041, 1041, 60000, 1, 10000, 10000];
    let u = service::step::step(t.board, s, &falling);
    let event = [1041, 1041, 1041, 60049, 1, 10000, 10000];
    let v = service::step::step(u.board, s, &event);
    v.board
}

fn show_bytes(rt: &impl Print, bytes: &[u8]) -> io::Result<()> {
    for byte in bytes {
        show(rt, b"byte ", wide8(*byte))?;
    }
    Ok(())
}

fn images(rt: &impl Print) -> io::Result<()> {
    let b = exporting();
    let mut short = [170u8; 48];
    show(
        rt,
        b"save into 48 bytes: ",
        saved_number(image::save(b, &mut short)),
    )?;
    show(rt, b"its first byte: ", wide8(short[0]))?;
    let mut buffer = [170u8; 50];
    show(
        rt,
        b"save into 50 bytes: ",
        saved_number(image::save(b, &mut buffer)),
    )?;
    show_bytes(rt, &buffer)
}

fn main(rt: HostRuntime) -> io::Result<()> {
    show(&rt, b"code 841: ", volts_of(841))?;
    show(&rt, b"code 840: ", volts_of(840))?;
    show(&rt, b"code 4095: ", volts_of(4095))?;
    show(&rt, b"code 4096: ", volts_of(4096))?;
    let s = sheet();
    show(
        &rt,
        b"lowest voltage 9170: ",
        first_status(s, 841, 60000, 1, 10000),
    )?;
    show(
        &rt,
        b"lowest voltage 9165: ",
        first_status(s, 840, 60000, 1, 10000),
    )?;
    show(
        &rt,
        b"code above the table: ",
        first_status(s, 4096, 60000, 1, 10000),
    )?;
    show(
        &rt,
        b"frequency 39999: ",
        first_status(s, 1000, 39999, 1, 10000),
    )?;
    show(
        &rt,
        b"permission 2: ",
        first_status(s, 1000, 60000, 2, 10000),
    )?;
    show(
        &rt,
        b"available 10001: ",
        first_status(s, 1000, 60000, 1, 10001),
    )?;
    show(&rt, b"fifteen steps above ov2: ", status_above_ov2(15))?;
    show(&rt, b"sixteen steps above ov2: ", status_above_ov2(16))?;
    images(&rt)?;
    sheets(&rt)
}
