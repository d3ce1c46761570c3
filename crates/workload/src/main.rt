// A workload for measuring: after set-up, a hundred thousand received frames and nothing else; or, with any argument, as many
// accepted register accesses. `step` is called at one place, as a replay does.
#![tactic(auto)]

use model::{Frame, Step};
use std::env::Env;

// Eight active banks, two of each class, one of the two for each FIFO; then Normal.
// By number, so that what is measured stays what it was: `step` called at one place, and its step made there.
fn set_up(i: u32) -> Step {
    match i {
        0 => Step::Write(0x204, 0x0033),
        1 => Step::Write(0x20C, 0x000F),
        2 => Step::Write(0x214, 0x0055),
        3 => Step::Write(0x240, 0x20000000),
        4 => Step::Write(0x244, 0x20200000),
        5 => Step::Write(0x248, 0x20400000),
        6 => Step::Write(0x24C, 0x20600000),
        7 => Step::Write(0x250, 0x40000000),
        8 => Step::Write(0x254, 0xF0000000),
        9 => Step::Write(0x258, 0x50000000),
        10 => Step::Write(0x25C, 0xF0000000),
        11 => Step::Write(0x260, 0x80208000),
        12 => Step::Write(0x264, 0x80608040),
        13 => Step::Write(0x270, 0xFF00A000),
        14 => Step::Write(0x274, 0xFF00A100),
        15 => Step::Write(0x21C, 0x00FF),
        16 => Step::Write(0x200, 0),
        17 => Step::Write(0x000, 0),
        _ => Step::Idle,
    }
}

// Identifiers that go through the standard ones in steps of 37, so that all classes match and some frames none.
fn frame(i: u32) -> Frame {
    Frame {
        identifier: i % 2048 * 37 % 2048 * 2097152,
        low: i,
        high: i,
        length: 8,
    }
}

// In turn: TSR, MSR, ESR and RF0R read, IER and a bank's word written, the word read, MSR written.
// By number, as `set_up`: the words go with i.
fn access(i: u32) -> Step {
    match i % 8 {
        0 => Step::Read(0x008),
        1 => Step::Read(0x004),
        2 => Step::Read(0x018),
        3 => Step::Read(0x00C),
        4 => Step::Write(0x014, i),
        5 => Step::Write(0x250, i),
        6 => Step::Read(0x250),
        _ => Step::Write(0x004, 0x1C),
    }
}

// A flag and no closure: two instances of the loop would be two places that call `step`.
fn next(registers: bool, i: u32) -> Step {
    if registers {
        access(i)
    } else if i < 19 {
        set_up(i)
    } else {
        Step::Receive(frame(i))
    }
}

fn has_argument(rt: &impl Env) -> bool {
    !matches!(command_line::argument(rt, &mut [0u8; 1]), Ok(None))
}

fn main(rt: HostRuntime) {
    let registers = has_argument(&rt);
    let mut z = controller::reset();
    let mut words: u32 = 0;
    let mut refused: u32 = 0;
    for i in 0..100019 {
        let a = controller::step(z, next(registers, i));
        z = a.controller;
        words = words.wrapping_add(a.word);
        refused = refused.wrapping_add(u32::from(a.code));
    }
    let rdl = z.core.fifo0.third.rdl;
    // Output that can't be written is lost, and there is nobody to tell.
    let _ = println!(rt; "{refused} {words} {rdl:08x}");
}
