// How many filters each search of the filters compares in a bench script: a line for each record that has a search. The script comes
// on standard input, in pieces, the text goes to standard output. With --lesson it must open with the record of a hardware reset.
#![tactic(auto)]

use arrayvec::ArrayVec;
use command_line::ArgumentsError;
use model::{Controller, Refusal, Step};
use std::env::Env;
use std::io::{Stderr, Stdin, Stdout};
use std::ops::ControlFlow;
use stream::{Input, Source};
use text::Line;

mod searches; // which steps search the filters, and what that compares

// No record has more bytes.
const LONGEST_RECORD: usize = 16;

// Past this the text goes out, so that there is always room for a line and the last one.
const ENOUGH_TEXT: usize = 400;

const COLUMN: usize = 11;

// ---- what is counted

// The records so far and the bytes that they take; the searches, the filters compared in all of them, the most in one.
#[derive(Clone, Copy, Default)]
struct Counts {
    records: u64,
    bytes: u64,
    searches: u64,
    compared: u64,
    most: u64,
}

impl Counts {
    fn record(&mut self, length: usize) {
        self.records = self.records.wrapping_add(1);
        self.bytes = self.bytes.wrapping_add(length as u64);
    }

    fn search(&mut self, compared: u64) {
        self.searches = self.searches.wrapping_add(1);
        self.compared = self.compared.wrapping_add(compared);
        self.most = self.most.max(compared);
    }
}

// ---- text

fn head() -> Line {
    Line::empty().put(b"     record   compared\n")
}

fn row(record: u64, compared: u64) -> Line {
    Line::empty()
        .right(record, COLUMN)
        .right(compared, COLUMN)
        .byte(b'\n')
}

fn last_line(n: Counts) -> Line {
    Line::empty()
        .said(b"% searches, ", n.searches)
        .said(b"% filters compared, ", n.compared)
        .said(b"% at most\n", n.most)
}

// ---- a turn of the loop

// The text waits to go out; a lesson's opening is read, or none is asked for.
// Input and handles lie in the session itself, as in encoder.
#[derive(Drop)]
struct Session {
    controller: Controller,
    input: Input<65536>,
    counts: Counts,
    waiting: ArrayVec<u8, 512>,
    opened: bool,
    stdin: Stdin,
    stdout: Stdout,
    stderr: Stderr,
}

impl Session {
    fn begun(rt: &HostRuntime, lesson: bool) -> Self {
        Self {
            controller: controller::reset(),
            input: Input::new(),
            counts: Counts::default(),
            waiting: ArrayVec::new(),
            opened: !lesson,
            stdin: rt.stdin(),
            stdout: rt.stdout(),
            stderr: rt.stderr(),
        }
    }

    fn flush(&mut self) -> ControlFlow<()> {
        stream::flush(
            &mut self.waiting,
            &mut self.stdout,
            &self.stderr,
            "comparisons",
        )
    }

    // All text goes out before more is read; where that fails the input is still looked at once, so that both faults are told.
    fn read_on(&mut self) -> ControlFlow<()> {
        let flow = self.flush();
        let _ = self
            .input
            .read_on_or_tell(&mut self.stdin, &self.stderr, "comparisons");
        flow
    }

    fn store(&mut self, l: Line) {
        stream::store(&mut self.waiting, l.as_bytes());
    }

    fn end(&mut self) -> ControlFlow<()> {
        self.store(last_line(self.counts));
        ControlFlow::Break(())
    }

    fn complain(&self, l: Line) {
        let _ = self.stderr.write_all(l.as_bytes());
    }

    // A lesson that begins with other bytes than the record of a reset.
    fn refuse_opening(&mut self) -> ControlFlow<()> {
        self.complain(wording::unopened_complaint(b"comparisons", self.input.unread()));
        self.end()
    }

    // A record that can't be read; where reading failed the script may just break off inside it.
    fn refuse_record(&mut self, why: Refusal) -> ControlFlow<()> {
        if why != Refusal::Short || self.input.source() != Source::Failed {
            let f = account::faults::fault_in(why, self.input.unread());
            let record = self.counts.records.wrapping_add(1);
            self.complain(wording::complaint(b"comparisons", record, self.counts.bytes, f));
        }
        self.end()
    }

    // The step of a record of so many bytes.
    fn step(&mut self, e: Step, length: usize) -> ControlFlow<()> {
        let z = self.controller;
        let a = controller::step(z, e);
        self.controller = a.controller;
        self.input.pass(length);
        self.counts.record(length);
        if let Some(w) = searches::searched_word(z.core, e, a.code) {
            let compared = u64::from(searches::compared_of(z, w));
            self.counts.search(compared);
            self.store(row(self.counts.records, compared));
            if ENOUGH_TEXT < self.waiting.len() {
                return self.flush();
            }
        }
        ControlFlow::Continue(())
    }

    // More is read, or the next record is looked at.
    fn turn(&mut self) -> ControlFlow<()> {
        if self.input.wants(LONGEST_RECORD) {
            return self.read_on();
        }
        let found = records::reading(self.input.unread(), 0);
        if !self.opened && !matches!(found, Ok(Some((Step::Reset, _)))) {
            return self.refuse_opening();
        }
        self.opened = true;
        match found {
            Ok(Some((step, length))) => self.step(step, length),
            Ok(None) => self.end(),
            Err(why) => self.refuse_record(why),
        }
    }

    fn run(&mut self) {
        self.store(head());
        // A proved loop has to end, and nothing says that the input does: no run uses so many turns up.
        let _ = (0..u64::MAX).try_for_each(|_| self.turn());
        let _ = self.flush();
    }
}

// Whether the script is a lesson.
// Each program has its own: no contract can say what a command line holds, and four lines are no plainer as a call.
fn is_lesson(rt: &impl Env) -> Result<bool, ArgumentsError> {
    let mut text = [0; 4096];
    let given = command_line::argument(rt, &mut text);
    command_line::asked_for(given, &text, b"--lesson")
}

// Other arguments than --lesson are told, and nothing is read.
fn main(rt: HostRuntime) {
    match is_lesson(&rt) {
        Ok(lesson) => Session::begun(&rt, lesson).run(),
        Err(_) => {
            let _ = eprintln!(rt; "usage: comparisons [--lesson]");
        }
    }
}
