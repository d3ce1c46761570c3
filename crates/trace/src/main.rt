// A bench script told in words: a line for each record with the step, its answer, the interrupt lines that are up and
// what it changed. The script comes on standard input, the text goes to standard output; both go in pieces. With --expects the
// input is the items of a lesson: its script, which must open with a reset, and what its steps must answer, which is checked.
#![tactic(auto)]

use account::Account;
use account::faults::Fault;
use account::reasons::Reason;
use arrayvec::ArrayVec;
use command_line::ArgumentsError;
use expected::{EXPECTATION, Expected, SCRIPT};
use model::{Answer, Controller, Refusal, Step};
use std::env::Env;
use std::io::{Stderr, Stdin, Stdout};
use std::ops::ControlFlow;
use stream::{Input, Source};
use text::Line;
use wording::Stop;

mod checks; // what is expected, and what came

// An item of a lesson, as lesson_write gives it: a tag, the length of the body in two bytes, and the body; numbers have their low
// byte first. No line of a lesson gives more than 1000 bytes. The body of what a line expects is its number in eight bytes and what
// it expects in eight.
const HEAD: usize = 3;

const LONGEST_BODY: usize = 1000;

const LONGEST_ITEM: usize = HEAD + LONGEST_BODY;

const EXPECTATION_LENGTH: usize = HEAD + 16;

// Past this the text goes out, so that there is always room for a line.
const ENOUGH_TEXT: usize = 61440;

// What the last answer is of: of nothing yet, of a step, of a record that can't be read, of another opening than a reset, of
// something behind the stop of the script.
#[derive(Clone, Copy)]
enum Last {
    Nothing,
    Step(Option<Reason>),
    Unread(Refusal),
    Opening,
    Behind,
}

// The records so far, how many of them were refused, the bytes that they take; the text that waits. What is not used yet of the items
// and, out of these, of the script, which begins with the next record; `whole`: nothing follows it. The last answer; `unsaid`: that a
// record can't be read, which is still to be told. What a line with a number expects of a record that isn't whole yet; the expectations that
// were checked and those that failed.
#[derive(Drop)]
struct Session {
    records: u64,
    refused: u64,
    bytes: u64,
    waiting: ArrayVec<u8, 65536>,
    items: Input<65536>,
    script: Input<1024>,
    whole: bool,
    lesson: bool,
    stopped: bool,
    last: Last,
    answer: Answer,
    unsaid: Option<Refusal>,
    pending: Option<(u64, Expected)>,
    checked: u64,
    failures: u64,
    stdin: Stdin,
    stdout: Stdout,
    stderr: Stderr,
}

impl Session {
    fn begun(rt: &HostRuntime, lesson: bool) -> Self {
        Self {
            records: 0,
            refused: 0,
            bytes: 0,
            waiting: ArrayVec::new(),
            items: Input::new(),
            script: Input::new(),
            whole: false,
            lesson,
            stopped: false,
            last: Last::Nothing,
            answer: Answer {
                code: 0,
                lines: 0,
                word: 0,
            },
            unsaid: None,
            pending: None,
            checked: 0,
            failures: 0,
            stdin: rt.stdin(),
            stdout: rt.stdout(),
            stderr: rt.stderr(),
        }
    }

    // ---- input and output

    fn complain(&self, l: Line) {
        let _ = self.stderr.write_all(l.as_bytes());
    }

    fn flush(&mut self) -> ControlFlow<()> {
        stream::flush(&mut self.waiting, &mut self.stdout, &self.stderr, "trace")
    }

    // A line goes behind the text that waits.
    fn store(&mut self, l: Line) {
        stream::store(&mut self.waiting, l.as_bytes());
    }

    // All text goes out before more is read.
    fn read_on(&mut self) -> ControlFlow<()> {
        self.flush()?;
        let _ = self
            .items
            .read_on_or_tell(&mut self.stdin, &self.stderr, "trace");
        ControlFlow::Continue(())
    }

    // Whether the script or its items may just break off.
    fn has_failed(&self) -> bool {
        self.items.source() == Source::Failed
    }

    // ---- the script

    // What is wrong with the record at its front.
    fn fault(&self, why: Refusal) -> Fault {
        account::faults::fault_in(why, self.script.unread())
    }

    // That a record can't be read is told once it is known that no line expects it.
    fn tell_unsaid(&mut self) {
        if let Some(why) = self.unsaid.take() {
            let n = self.records.wrapping_add(1);
            let f = self.fault(why);
            self.complain(wording::complaint(b"trace", n, self.bytes, f));
        }
    }

    // The bytes of the items from a place up to another are the script's next ones; behind its stop they say nothing.
    fn take_script(&mut self, from: usize, to: usize) {
        if self.stopped {
            self.tell_unsaid();
            self.last = Last::Behind;
        } else {
            let items = self.items.unread();
            let end = to.min(items.len());
            let mut body = &items[from.min(end)..end];
            let _ = self.script.read_on(&mut body);
        }
        self.items.pass(to);
    }

    // The last line, behind one that is begun. A lesson is read on for what it expects.
    fn stop_with(&mut self, l: Line, why: Stop) -> ControlFlow<()> {
        let last = wording::last(l, why, self.bytes, self.records, self.refused);
        self.store(last);
        self.stopped = true;
        self.check_pending()?;
        if self.lesson {
            ControlFlow::Continue(())
        } else {
            ControlFlow::Break(())
        }
    }

    // Another opening than a reset is told.
    fn refuse_opening(&mut self) -> ControlFlow<()> {
        self.complain(wording::unopened_complaint(b"trace", self.script.unread()));
        self.last = Last::Opening;
        self.answer.code = u8::from(Refusal::NotOpened);
        self.stop_with(wording::unopened_line(self.answer.lines), Stop::Refused)
    }

    // The end, or a record that can't be read; where reading failed the script may just break off inside it.
    fn stop(&mut self, refusal: Option<Refusal>) -> ControlFlow<()> {
        if self.lesson && self.records == 0 {
            return self.refuse_opening();
        }
        let failed = self.has_failed();
        match refusal {
            Some(why) if !(failed && why == Refusal::Short) => {
                self.last = Last::Unread(why);
                self.answer.code = u8::from(why);
                self.answer.word = 0;
                self.unsaid = Some(why);
                if !self.lesson {
                    self.tell_unsaid();
                }
                let n = self.records.wrapping_add(1);
                let l = wording::unread_line(n, self.bytes, self.fault(why), self.answer.lines);
                self.stop_with(l, Stop::Refused)
            }
            _ => self.stop_with(
                Line::empty(),
                if failed {
                    Stop::InputFailed
                } else {
                    Stop::Ended
                },
            ),
        }
    }

    // ---- items

    // Items of another kind; where reading failed they may just break off.
    fn refuse_items(&self) -> ControlFlow<()> {
        if !self.has_failed() {
            let _ = eprintln!(self.stderr; "trace: standard input has no items of a lesson");
        }
        ControlFlow::Break(())
    }

    // The items end: so does the script, and behind its end the lesson.
    fn end_items(&mut self) -> ControlFlow<()> {
        self.whole = true;
        if !self.stopped {
            return ControlFlow::Continue(());
        }
        self.tell_unsaid();
        let l = Line::empty()
            .said(b"% expectations checked, ", self.checked)
            .said(b"% failed\n", self.failures);
        self.store(l);
        ControlFlow::Break(())
    }

    fn take_item(&mut self, n: usize) -> ControlFlow<()> {
        let items = self.items.unread();
        match &items[..n.min(items.len())] {
            [SCRIPT, _, _, body @ ..] if body.len() <= LONGEST_BODY => {
                self.take_script(HEAD, n);
                ControlFlow::Continue(())
            }
            [
                EXPECTATION,
                16,
                0,
                a,
                b,
                c,
                d,
                e,
                f,
                g,
                h,
                i,
                j,
                k,
                l,
                m,
                n,
                o,
                p,
            ] => {
                let line = u64::from_le_bytes([*a, *b, *c, *d, *e, *f, *g, *h]);
                let x = Expected::from([*i, *j, *k, *l, *m, *n, *o, *p]);
                self.items.pass(EXPECTATION_LENGTH);
                self.expect(line, x)
            }
            _ => self.refuse_items(),
        }
    }

    // The next item, where it is there as a whole; a script without items is one of the bytes that are there.
    fn next_item(&mut self) -> ControlFlow<()> {
        let rest = self.items.unread();
        let left = rest.len();
        if !self.lesson && left != 0 {
            self.take_script(0, left.min(LONGEST_BODY));
            return ControlFlow::Continue(());
        }
        let length = item_length(rest);
        if length <= left {
            self.take_item(length)
        } else if length <= LONGEST_ITEM && self.items.source() == Source::Open {
            self.read_on()
        } else if left == 0 {
            self.end_items()
        } else {
            self.refuse_items()
        }
    }

    // ---- a turn of the loop

    // The record at the front of the script, if there are bytes.
    fn front(&self) -> Result<Option<(Step, usize)>, Refusal> {
        let found = records::reading(self.script.unread(), 0)?;
        let opens = self.lesson && self.records == 0;
        match found {
            Some((step, _)) if opens && !matches!(step, Step::Reset) => Err(Refusal::NotOpened),
            _ => Ok(found),
        }
    }

    // The step of the next record and its length, or else the next item.
    fn next(&mut self) -> ControlFlow<(), Option<(Step, usize)>> {
        if ENOUGH_TEXT < self.waiting.len() {
            self.flush()?;
            return ControlFlow::Continue(None);
        }
        match self.front() {
            _ if self.stopped => self.next_item()?,
            Ok(Some(found)) => return ControlFlow::Continue(Some(found)),
            Ok(None) | Err(Refusal::Short) if !self.whole => self.next_item()?,
            Ok(None) => self.stop(None)?,
            Err(why) => self.stop(Some(why))?,
        }
        ControlFlow::Continue(None)
    }

    // The line of a step, and what waited for its answer.
    fn tell(&mut self, e: Step, length: usize, a: Account) -> ControlFlow<()> {
        self.records = self.records.wrapping_add(1);
        self.refused = self.refused.wrapping_add(u64::from(a.answer.code != 0));
        self.bytes = self.bytes.wrapping_add(length as u64);
        self.script.pass(length);
        self.last = Last::Step(a.reason);
        self.answer = a.answer;
        self.store(wording::line(self.records, e, a));
        self.check_pending()
    }

    fn turn(&mut self, z: &mut Controller) -> ControlFlow<()> {
        if let Some((step, length)) = self.next()? {
            let a = controller::step(*z, step);
            let account = account::account_of(*z, step, a);
            *z = a.controller;
            self.tell(step, length, account)?;
        }
        ControlFlow::Continue(())
    }

    fn run(&mut self) {
        let mut z = controller::reset();
        self.store(wording::head());
        // A proved loop has to end, and nothing says that the input does: no run uses so many turns up.
        let _ = (0..u64::MAX).try_for_each(|_| self.turn(&mut z));
        let _ = self.flush();
    }
}

// How long the next item is, or its head.
fn item_length(rest: &[u8]) -> usize {
    match rest {
        [_, low, high, ..] => HEAD + usize::from(u16::from_le_bytes([*low, *high])),
        _ => HEAD,
    }
}

// ---- the program

// Whether the input is the items of a lesson.
// Each program has its own: no contract can say what a command line holds, and four lines are no plainer as a call.
fn is_lesson(rt: &impl Env) -> Result<bool, ArgumentsError> {
    let mut text = [0; 4096];
    let given = command_line::argument(rt, &mut text);
    command_line::asked_for(given, &text, b"--expects")
}

// Other arguments are told, and nothing is traced.
fn main(rt: HostRuntime) {
    match is_lesson(&rt) {
        Ok(lesson) => Session::begun(&rt, lesson).run(),
        Err(_) => {
            let _ = eprintln!(rt; "usage: trace [--expects]");
        }
    }
}
