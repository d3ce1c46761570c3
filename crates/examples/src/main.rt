// The worked numbers of document 01, run through the functions by value and through those on a lent controller: a line for each, what
// it is and what came out.
#![tactic(auto)]

use calls::{ByValue, Calls, Lent};
use model::{Bank, Controller, Core, Errors, Fifo, Filters, Frame};
use std::io::Print;

mod calls;

fn wrote<C: Calls>(z: Controller, offset: u16, w: u32) -> Controller {
    C::write(z, offset, w).controller
}

fn reads<C: Calls>(z: Controller, offset: u16) -> u32 {
    C::read(z, offset).word
}

fn idled<C: Calls>(z: Controller) -> Controller {
    C::idle(z).controller
}

fn received<C: Calls>(z: Controller, x: Frame) -> Controller {
    C::frame_received(z, x).controller
}

// Into Normal, the low bits of MCR being m.
fn normal<C: Calls>(z: Controller, m: u32) -> Controller {
    idled::<C>(wrote::<C>(z, 0x000, m))
}

// Bank 0 takes every frame.
fn listening<C: Calls>(m: u32) -> Controller {
    let z = wrote::<C>(controller::reset(), 0x21C, 1);
    normal::<C>(wrote::<C>(z, 0x200, 0), m)
}

fn with_counters(z: Controller, tec: u16, rec: u8) -> Controller {
    let errors = Errors { tec, rec, lec: 0 };
    Controller {
        core: Core { errors, ..z.core },
        ..z
    }
}

fn frame(identifier: u32, low: u32) -> Frame {
    Frame {
        identifier,
        low,
        high: 0,
        length: 1,
    }
}

// ---- what is printed

fn error_ends<C: Calls>(rt: &impl Print, tec: u16) {
    let z = wrote::<C>(normal::<C>(controller::reset(), 0), 0x180, 1);
    let on = C::start(z).controller;
    let ended = C::outcome(with_counters(on, tec, 0), 1).controller;
    let esr = reads::<C>(ended, 0x018);
    let _ = println!(rt;
        "TEC {tec} and an error, TEC and BOFF: {} {}",
        esr / 65536 % 256,
        esr / 4 % 2
    );
}

fn frame_comes<C: Calls>(rt: &impl Print, rec: u8) {
    let z = received::<C>(with_counters(listening::<C>(0), 0, rec), frame(0, 0));
    let _ = println!(rt;
        "REC {rec} and a frame: {}",
        reads::<C>(z, 0x018) / 16777216
    );
}

fn error_comes<C: Calls>(rt: &impl Print, rec: u8) {
    let z = C::receive_error(with_counters(listening::<C>(0), 0, rec), 1, 8).controller;
    let _ = println!(rt;
        "REC {rec} and a receive error of 8: {}",
        reads::<C>(z, 0x018) / 16777216
    );
}

fn wakes<C: Calls>(rt: &impl Print) {
    let z = C::activity(controller::reset()).controller;
    let _ = println!(rt; "activity in Sleep, WKUI: {}", reads::<C>(z, 0x004) / 8 % 2);
}

fn ticks<C: Calls>(rt: &impl Print, n: u16) {
    let z = C::bit_times(normal::<C>(controller::reset(), 0x80), 65535).controller;
    let later = C::bit_times(z, n).controller;
    let _ = println!(rt; "timer 65535 plus {n}: {}", later.core.control.timer);
}

// The mailbox that starts first, of mailbox 0 with identifier word x and mailbox 1 with y.
fn first_started<C: Calls>(x: u32, y: u32) -> u32 {
    let z = wrote::<C>(normal::<C>(controller::reset(), 0), 0x180, x);
    C::start(wrote::<C>(z, 0x190, y)).word
}

fn four_frames<C: Calls>(rt: &impl Print, m: u32) {
    let mut z = listening::<C>(m);
    for low in [0xA, 0xB, 0xC, 0xD] {
        z = received::<C>(z, frame(0, low));
    }
    let second = wrote::<C>(z, 0x00C, 0x20);
    let third = wrote::<C>(second, 0x00C, 0x20);
    let (a, b, c) = (
        reads::<C>(z, 0x1B8),
        reads::<C>(second, 0x1B8),
        reads::<C>(third, 0x1B8),
    );
    let how = if m == 0 { "unlocked" } else { "locked" };
    let _ = println!(rt; "frames 10, 11, 12, then 13, {how}: {a} {b} {c}");
}

fn numbering<C: Calls>(rt: &impl Print) {
    let g = Filters {
        mode: 0x3FFF,
        scale: 0,
        assignment: 0,
        activation: 0,
        finit: false,
    };
    let first = filter::first_number(g, Fifo::F0, Bank(13));
    let a = wrote::<C>(controller::reset(), 0x204, 0x3FFF);
    let b = wrote::<C>(wrote::<C>(a, 0x2AC, 0x00200000), 0x21C, 0x3FFF);
    let c = normal::<C>(wrote::<C>(b, 0x200, 0), 0);
    let z = received::<C>(c, frame(0x00200000, 0));
    let last = reads::<C>(z, 0x1B4) / 256 % 256;
    let _ = println!(rt;
        "16-bit lists in all banks, first number of bank 13 and the last: {} {last}",
        first.0
    );
}

// BOFF after so many idle events with ABOM.
fn bus_off_after<C: Calls>(n: u32) -> u32 {
    let mut z = with_counters(normal::<C>(controller::reset(), 0x40), 256, 0);
    for _ in 0..n {
        z = idled::<C>(z);
    }
    reads::<C>(z, 0x018) / 4 % 2
}

fn resets<C: Calls>(rt: &impl Print) {
    let z = C::hardware_reset(normal::<C>(controller::reset(), 0)).controller;
    let _ = print!(rt; "MCR, MSR, TSR, BTR, FMR after hardware reset:");
    for offset in [0x000, 0x004, 0x008, 0x01C, 0x200] {
        let _ = print!(rt; " {:08x}", reads::<C>(z, offset));
    }
    let _ = println!(rt);
}

fn numbers<C: Calls>(rt: &impl Print) {
    error_ends::<C>(rt, 247);
    error_ends::<C>(rt, 248);
    frame_comes::<C>(rt, 129);
    frame_comes::<C>(rt, 128);
    error_comes::<C>(rt, 250);
    wakes::<C>(rt);
    ticks::<C>(rt, 1);
    ticks::<C>(rt, 65535);
    let standard_first = first_started::<C>(0x20000001, 0x20000005);
    let standard_second = first_started::<C>(0x20000005, 0x20000001);
    let _ = println!(rt;
        "first of standard 0x100 and extended 0x04000000, then the other way round: {standard_first} {standard_second}"
    );
    let extended_first = first_started::<C>(0x00200005, 0x00400001);
    let extended_second = first_started::<C>(0x00400001, 0x00200005);
    let _ = println!(rt;
        "first of extended 0x00040000 and standard 0x002, then the other way round: {extended_first} {extended_second}"
    );
    four_frames::<C>(rt, 0x00);
    four_frames::<C>(rt, 0x08);
    numbering::<C>(rt);
    let _ = println!(rt;
        "BOFF after 127 and after 128 idle events with ABOM: {} {}",
        bus_off_after::<C>(127),
        bus_off_after::<C>(128)
    );
    resets::<C>(rt);
}

// Output that can't be written is lost, and there is nobody to tell; what follows may go out again.
fn main(rt: HostRuntime) {
    numbers::<ByValue>(&rt);
    let _ = println!(rt; "The same on a lent controller:");
    numbers::<Lent>(&rt);
}
