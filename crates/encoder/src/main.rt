// Steps as numbers on standard input, their records on standard output, both in pieces. A request is six numbers of four bytes,
// low byte first: the space, the tag and four numbers of the step, in the order of the record. The record goes to the front of a
// buffer; the answer is the code, the number of bytes written and the whole buffer, which shows that the bytes behind it stay.
#![tactic(auto)]

ghost use Rattle.std.specs.Prelude.{◌+◌, ◌≤◌, length};

use arrayvec::ArrayVec;
use model::{WideFrame, WideStep};
use std::fmt::Display;
use std::io::{Stderr, Stdin, Stdout};
use std::ops::ControlFlow;
use stream::Input;

const REQUEST_LENGTH: usize = 24;

const ANSWER_LENGTH: usize = 22;

const BUFFER_LENGTH: usize = 20;

// What the buffer holds before a record is written.
const UNTOUCHED: u8 = 0xEE;

// ---- a request

// The space, the tag and the step's numbers.
#[derive(Clone, Copy)]
struct Request {
    space: u32,
    tag: u32,
    a: u32,
    b: u32,
    c: u32,
    d: u32,
}

fn number(bytes: &[u8], i: usize) -> u32
    requires { i + 4 ≤ length bytes.now }
{
    u32::from_le_bytes([bytes[i], bytes[i + 1], bytes[i + 2], bytes[i + 3]])
}

impl Request {
    fn read(bytes: &[u8]) -> Self
        requires { 24 ≤ length bytes.now }
    {
        Self {
            space: number(bytes, 0),
            tag: number(bytes, 4),
            a: number(bytes, 8),
            b: number(bytes, 12),
            c: number(bytes, 16),
            d: number(bytes, 20),
        }
    }

    // The step that the tag names. Numbers that it doesn't need are not looked at.
    fn step(&self) -> Option<WideStep> {
        let step = match self.tag {
            1 => WideStep::Reset,
            2 => WideStep::Read(self.a),
            3 => WideStep::Write(self.a, self.b),
            4 => WideStep::Idle,
            5 => WideStep::BitTimes(self.a),
            6 => WideStep::Activity,
            7 => WideStep::Start,
            8 => WideStep::Outcome(self.a),
            9 => WideStep::Receive(WideFrame {
                identifier: self.a,
                low: self.c,
                high: self.d,
                length: self.b,
            }),
            10 => WideStep::ReceiveError(self.a, self.b),
            _ => return None,
        };
        Some(step)
    }
}

// ---- its answer

fn answer(e: WideStep, space: usize) -> [u8; ANSWER_LENGTH] {
    let mut row = [UNTOUCHED; ANSWER_LENGTH];
    let end = 2 + space.min(BUFFER_LENGTH);
    let (code, count) = match writer::write_record(e, &mut row[2..end]) {
        Ok(n) => (0, (n % 256) as u8),
        Err(why) => (u8::from(why), 0),
    };
    row[0] = code;
    row[1] = count;
    row
}

// ---- a turn of the loop

// Behind so many requests and the bytes that they take.
#[derive(Clone, Copy)]
struct Place {
    requests: u64,
    bytes: u64,
}

impl Place {
    fn next(self) -> Self {
        Self {
            requests: self.requests.wrapping_add(1),
            bytes: self.bytes.wrapping_add(REQUEST_LENGTH as u64),
        }
    }

    // Says at which request (from 1) and byte (from 0) something is wrong.
    fn complain(self, err: Stderr, what: impl Display + Drop) {
        let (request, byte) = (self.requests.wrapping_add(1), self.bytes);
        let _ = eprintln!(err; "encoder: request {request} at byte {byte}: {what}");
    }
}

// How far the answers are written, how far the requests are answered, and the answers that wait in between.
// Input, waiting bytes and the three handles lie in the session itself: each use lends one or two of them, and a struct would stand between.
#[derive(Drop)]
struct Session {
    input: Input<65536>,
    waiting: ArrayVec<u8, 65536>,
    written: Place,
    answered: Place,
    stdin: Stdin,
    stdout: Stdout,
    stderr: Stderr,
}

impl Session {
    fn begun(rt: &HostRuntime) -> Self {
        let start = Place {
            requests: 0,
            bytes: 0,
        };
        Self {
            input: Input::new(),
            waiting: ArrayVec::new(),
            written: start,
            answered: start,
            stdin: rt.stdin(),
            stdout: rt.stdout(),
            stderr: rt.stderr(),
        }
    }

    // Something is wrong with the next request, and nothing more is answered.
    fn stopped(&self, what: impl Display + Drop) -> ControlFlow<()> {
        self.answered.complain(self.stderr, what);
        ControlFlow::Break(())
    }

    // The answers that wait go out.
    fn flush(&mut self) -> ControlFlow<()> {
        if stream::send(&mut self.waiting, &mut self.stdout).is_err() {
            self.written.complain(
                self.stderr,
                "standard output can't be written, the answers from here on are lost",
            );
            return ControlFlow::Break(());
        }
        self.written = self.answered;
        ControlFlow::Continue(())
    }

    // All answers go out before more is read.
    fn read_on(&mut self) -> ControlFlow<()> {
        self.flush()?;
        if self.input.read_on(&mut self.stdin).is_err() {
            return self.stopped("standard input can't be read");
        }
        ControlFlow::Continue(())
    }

    // The answer goes behind those that wait. There is room: they all answer requests of one piece, which has more bytes.
    fn answer(&mut self, e: WideStep, space: usize) -> ControlFlow<()> {
        stream::store(&mut self.waiting, &answer(e, space));
        self.answered = self.answered.next();
        self.input.pass(REQUEST_LENGTH);
        ControlFlow::Continue(())
    }

    // More is read, or the next request is answered, or what is wrong with it is told.
    fn turn(&mut self) -> ControlFlow<()> {
        if self.input.wants(REQUEST_LENGTH) {
            return self.read_on();
        }
        let rest = self.input.unread();
        let left = rest.len();
        if left == 0 {
            return ControlFlow::Break(());
        }
        if left < REQUEST_LENGTH {
            return self.stopped(format_args!("cut short, {left} bytes of 24"));
        }
        let request = Request::read(rest);
        let (tag, space) = (request.tag, request.space);
        let Some(step) = request.step() else {
            return self.stopped(format_args!("unknown tag {tag}, the tags are 1 to 10"));
        };
        if space > BUFFER_LENGTH as u32 {
            return self.stopped(format_args!("space {space}, the buffer has 20 bytes"));
        }
        self.answer(step, space as usize)
    }
}

fn main(rt: HostRuntime) {
    let mut session = Session::begun(&rt);
    // A proved loop has to end, and nothing says that the input does: no run uses so many turns up.
    let _ = (0..u64::MAX).try_for_each(|_| session.turn());
    let _ = session.flush();
}
