// A request that waits past n others under lowest-identifier order, beside the same traffic in order of requests. Mailbox 0
// asks with the highest identifier; mailboxes 1 and 2 are filled again, each while the other one is on the wire. Every mark of
// the picture is an answer of the controller. That there is such a history for every n is proved (`starvation` in the model).
#![tactic(auto)]

use model::{Controller, Step};
use std::env::Env;

mod number;

// The traffic through one controller: what it is after the last turn, whether mailbox 0 still waits, how many frames of others
// ended well while it did, which mailbox was started last, and TSR while its frame was on the wire. There is none where an answer
// of the controller is not the expected one.
#[derive(Clone, Copy)]
struct Traffic {
    controller: Controller,
    others: u32,
    sent: u32,
    tsr: u32,
    waits: bool,
}

// The mailbox that was sent before is filled again; mailbox 0 is not, and then TSR is read.
fn filled(sent: u32) -> Step {
    match sent {
        1 => Step::Write(0x190, 0x20000001),
        2 => Step::Write(0x1A0, 0x20200001),
        _ => Step::Read(0x008),
    }
}

impl Traffic {
    // To Normal, with TXFP or without; mailboxes 1 and 2 ask, then mailbox 0.
    fn opened(txfp: bool) -> Option<Self> {
        let mut controller = controller::reset();
        for step in [
            Step::Write(0x000, if txfp { 4 } else { 0 }),
            Step::Idle,
            Step::Write(0x190, 0x20000001),
            Step::Write(0x1A0, 0x20200001),
            Step::Write(0x180, 0xFFE00001),
        ] {
            let a = controller::step(controller, step);
            controller = a.controller;
            if a.code != 0 {
                return None;
            }
        }
        Some(Traffic {
            controller,
            others: 0,
            sent: 0,
            tsr: 0,
            waits: true,
        })
    }

    // A start, the filling, a look at TSR, a good end, and another look: mailbox 0 must be empty exactly when it was sent.
    fn turned(self) -> Option<Self> {
        let a = controller::step(self.controller, Step::Start);
        let b = controller::step(a.controller, filled(self.sent));
        let c = controller::step(b.controller, Step::Read(0x008));
        let d = controller::step(c.controller, Step::Outcome(0));
        let e = controller::step(d.controller, Step::Read(0x008));
        let waits = self.waits && a.word != 0;
        let done = a.code == 0 && b.code == 0 && c.code == 0 && d.code == 0 && e.code == 0;
        let good = done && waits != bits::bit(26, e.word);
        good.then_some(Traffic {
            controller: e.controller,
            others: self.others.wrapping_add(u32::from(waits)),
            sent: a.word,
            tsr: c.word,
            waits,
        })
    }

    // ---- the picture

    fn mark(&self, m: u32, tme: u32) -> &'static str {
        if self.sent == m {
            " #"
        } else if bits::bit(tme, self.tsr) {
            " ."
        } else {
            " |"
        }
    }

    // The marks; while mailbox 0 waits, how many others have been sent; then, once, that it is sent.
    fn print(&self, rt: &impl Print) {
        let (a, b, c) = (self.mark(0, 26), self.mark(1, 27), self.mark(2, 28));
        let _ = print!(rt; "         {a}{b}{c}");
        let others = self.others;
        if self.waits {
            let _ = print!(rt; "{others:>10}");
        } else if self.sent == 0 {
            let _ = print!(rt; "    mailbox 0 is sent, after {others}");
        }
    }
}

fn print_head(rt: &impl Print) {
    let _ = println!(rt;
        "Mailbox 0 asks to send \"close gate\", identifier 0x7FF. Mailboxes 1 and 2 send reports, identifiers 0x100 and"
    );
    let _ = println!(rt;
        "0x101, and each is filled again while the other one is on the wire. One turn is one frame that ends well."
    );
    let _ = println!(rt; "Marks: # on the wire, | waits, . empty");
    let _ = println!(rt);
    let _ = println!(rt;
        "            lowest identifier first (TXFP=0)     order of requests (TXFP=1)"
    );
    let _ = println!(rt;
        "      turn  mailbox 0 1 2    others              mailbox 0 1 2    others sent before mailbox 0"
    );
}

// Left and right are the two columns of the picture, and rt is where it goes.
fn print_row(rt: &impl Print, k: u32, left: &Traffic, right: &Traffic) {
    let _ = print!(rt; "{k:>10}");
    left.print(rt);
    let _ = print!(rt; "            ");
    right.print(rt);
    let _ = println!(rt);
}

fn print_left_out(rt: &impl Print, n: u32) {
    let _ = println!(rt;
        "       ...  {n} turns left out; in each the same was checked: no step was refused, and after it TSR showed"
    );
    let _ = println!(rt;
        "            mailbox 0 as not empty on the left and as empty on the right"
    );
}

// The first eight turns and the last three; all where there are few.
fn print_turn(rt: &impl Print, k: u32, last: u32, left: &Traffic, right: &Traffic) {
    if last <= 12 || k <= 8 || last.saturating_sub(k) < 3 {
        print_row(rt, k, left, right);
    } else if k == 9 {
        print_left_out(rt, last - 11);
    }
}

fn print_result(rt: &impl Print, left: &Traffic, right: &Traffic) {
    let _ = println!(rt);
    let _ = println!(rt;
        "Lowest identifier first: {} other frames have ended well since mailbox 0 asked, and it still waits.",
        left.others
    );
    let _ = println!(rt;
        "Order of requests: mailbox 0 was sent after {} others.",
        right.others
    );
}

// ---- the program

fn complain(rt: &impl Eprint) {
    let _ = eprintln!(rt; "starvation: an answer of the controller is not the expected one");
}

// Output that can't be written is lost, and there is nobody to tell; what follows may go out again.
fn show(rt: &(impl Print + Eprint), n: u32) {
    let last = n.max(3);
    print_head(rt);
    let (Some(mut left), Some(mut right)) = (Traffic::opened(false), Traffic::opened(true)) else {
        return complain(rt);
    };
    for k in 1..=last {
        let (Some(l), Some(r)) = (left.turned(), right.turned()) else {
            return complain(rt);
        };
        if !l.waits {
            return complain(rt);
        }
        left = l;
        right = r;
        print_turn(rt, k, last, &left, &right);
    }
    print_result(rt, &left, &right);
}

// The number that is the only argument.
fn argument(rt: &impl Env) -> Option<u32> {
    let mut text = [0; 4096];
    match command_line::argument(rt, &mut text) {
        Ok(Some(length)) => number::parsed(&text[..length]),
        _ => None,
    }
}

fn main(rt: HostRuntime) {
    match argument(&rt) {
        Some(n) => show(&rt, n),
        None => {
            let _ = eprintln!(rt; "usage: starvation N, with N from 0 to 4294967295");
        }
    }
}
