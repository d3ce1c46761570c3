// A lesson as text on standard input, the bytes of its script on standard output, both of any length. At a fault a line on standard
// error says where it is, what was found there and what is allowed; then nothing more is read. With --check nothing is written and no
// repeat is run twice; with --expects items are written, for the program trace: bytes of the script, and what its steps must answer.
#![tactic(auto)]

use arrayvec::ArrayVec;
use command_line::ArgumentsError;
use expected::{EXPECTATION, Expected, SCRIPT};
use lines::{Fault, Meaning};
use names::scan::{value, word_at};
use say::Rule;
use std::env::Env;
use std::io::{Stderr, Stdin, Stdout};
use std::ops::ControlFlow;
use stream::{Input, Source};

mod say; // what is said on standard error

const LONGEST_LINE: usize = 1000;

const LONGEST_RECORD: usize = 16;

const DEEPEST: usize = 8;

// The bytes that the lines of an outermost repeat take, with their line ends. They stay in the space that the text is read to.
const LONGEST_REPEAT: usize = 60000;

// Past this the bytes go out, so that there is always room for those of a line.
const ENOUGH: usize = 64000;

// What is written: the script, nothing, or items. An item has a tag, the length of its body in two bytes, and the body; numbers have
// their low byte first.
#[derive(Clone, Copy, PartialEq, Eq)]
enum Mode {
    Script,
    Check,
    Items,
}

// A repeat that is open: where its lines begin, behind the first line of the outermost one; the number of its own line; the turns
// that are left, this one with them.
#[derive(Clone, Copy, Default)]
struct Repeat {
    start: usize,
    line: u64,
    left: u32,
}

// The next line is at `place` of what is unread, of which the lines of the outermost open repeat are the front. `lines` have been read
// before. A repeat of no turns is silent, with all that is in it: so many repeats were open with it. The bytes wait to go out.
#[derive(Drop)]
struct Session {
    mode: Mode,
    place: usize,
    lines: u64,
    open: ArrayVec<Repeat, DEEPEST>,
    silent: Option<usize>,
    waiting: ArrayVec<u8, 65536>,
    stdin: Stdin,
    stdout: Stdout,
    stderr: Stderr,
}

// The pairs of digits from a place of a line on, up to its comment, as bytes. By index: a pair is read at each place, also at a second
// digit, where it does not count.
fn unhexed(line: &[u8], from: usize) -> ArrayVec<u8, LONGEST_LINE> {
    let mut bytes = ArrayVec::new();
    let mut first = false;
    for i in from..line.len() {
        if line[i] == b'#' {
            break;
        }
        let pair = value(line, i, i.wrapping_add(2), true);
        first = !first && pair.is_some();
        if first {
            let _fits = bytes.try_push((pair.unwrap_or(0) % 256) as u8);
        }
    }
    bytes
}

// Up to the line end, or all; no more than the longest line and one byte.
fn line_length(rest: &[u8]) -> usize {
    let most = rest.len().min(LONGEST_LINE + 1);
    rest[..most]
        .iter()
        .position(|b| *b == b'\n')
        .unwrap_or(most)
}

impl Session {
    fn begun(rt: &HostRuntime, mode: Mode) -> Self {
        Self {
            mode,
            place: 0,
            lines: 0,
            open: ArrayVec::new(),
            silent: None,
            waiting: ArrayVec::new(),
            stdin: rt.stdin(),
            stdout: rt.stdout(),
            stderr: rt.stderr(),
        }
    }

    // ---- input and output

    fn flush(&mut self) -> ControlFlow<()> {
        stream::flush(
            &mut self.waiting,
            &mut self.stdout,
            &self.stderr,
            "lesson_write",
        )
    }

    // All bytes go out before more is read.
    fn read_on(&mut self, input: &mut Input<65536>) -> ControlFlow<()> {
        self.flush()?;
        match input.read_on_or_tell(&mut self.stdin, &self.stderr, "lesson_write") {
            Ok(_) => ControlFlow::Continue(()),
            Err(_) => ControlFlow::Break(()),
        }
    }

    // ---- what a line gives

    // Whether what a line gives is written.
    fn is_written(&self) -> bool {
        self.mode != Mode::Check && self.silent.is_none()
    }

    fn write(&mut self, bytes: &[u8]) {
        stream::store(&mut self.waiting, bytes);
    }

    // The bytes of a script that a line is.
    fn write_script(&mut self, bytes: &[u8]) -> ControlFlow<()> {
        if bytes.is_empty() {
            return ControlFlow::Continue(());
        }
        if self.mode == Mode::Items {
            let [low, high, ..] = bytes.len().to_le_bytes();
            self.write(&[SCRIPT, low, high]);
        }
        self.write(bytes);
        ControlFlow::Continue(())
    }

    // The number of its line in eight bytes, and what is expected.
    fn write_expected(&mut self, x: Expected) -> ControlFlow<()> {
        if self.mode == Mode::Items && self.is_written() {
            self.write(&[EXPECTATION, 16, 0]);
            self.write(&self.lines.to_le_bytes());
            self.write(&<[u8; 8]>::from(x));
        }
        ControlFlow::Continue(())
    }

    // ---- repeats

    fn refuse(&self, line: &[u8], place: usize, rule: Rule) -> ControlFlow<()> {
        say::fault(&self.stderr, self.lines, line, place, rule);
        ControlFlow::Break(())
    }

    // A line that doesn't go with those before it.
    fn refuse_misplaced(&self, line: &[u8], rule: Rule) -> ControlFlow<()> {
        self.refuse(line, word_at(line, 0).from, rule)
    }

    // The line of the outermost repeat that is open.
    fn outermost(&self) -> u64 {
        self.open.first().map_or(0, |r| r.line)
    }

    fn begin_repeat(&mut self, n: u32, line: &[u8]) -> ControlFlow<()> {
        let once = n == 0 || !self.is_written();
        let repeat = Repeat {
            start: self.place,
            line: self.lines,
            left: if once { 1 } else { n },
        };
        if self.open.try_push(repeat).is_err() {
            return self.refuse_misplaced(line, Rule::TooDeep);
        }
        if n == 0 && self.silent.is_none() {
            self.silent = Some(self.open.len());
        }
        ControlFlow::Continue(())
    }

    // Back to the first line of the repeat, or on.
    fn end_repeat(&mut self, line: &[u8]) -> ControlFlow<()> {
        let depth = self.open.len();
        let Some(mut repeat) = self.open.pop() else {
            return self.refuse_misplaced(line, Rule::NoRepeat);
        };
        if 1 < repeat.left {
            repeat.left -= 1;
            self.place = repeat.start;
            self.lines = repeat.line;
            let _fits = self.open.try_push(repeat);
        } else if self.silent == Some(depth) {
            self.silent = None;
        }
        ControlFlow::Continue(())
    }

    // ---- lines

    fn with_meaning(&mut self, m: Result<Option<Meaning>, Fault>, line: &[u8]) -> ControlFlow<()> {
        let meaning = match m {
            Ok(None) => return ControlFlow::Continue(()),
            Ok(Some(meaning)) => meaning,
            Err(f) => return self.refuse(line, f.place, Rule::Line(f.rule)),
        };
        match meaning {
            // What would be dropped is not made.
            Meaning::Step(_) | Meaning::Bytes(_) if !self.is_written() => ControlFlow::Continue(()),
            Meaning::Step(e) => {
                let mut record = [0; LONGEST_RECORD];
                let n = writer::write_record(e, &mut record).unwrap_or(0);
                self.write_script(&record[..n.min(LONGEST_RECORD)])
            }
            Meaning::Bytes(place) => self.write_script(&unhexed(line, place)),
            Meaning::Expect(x) => self.write_expected(x),
            Meaning::Repeat(n) => self.begin_repeat(n, line),
            Meaning::Done => self.end_repeat(line),
        }
    }

    // A line, behind which the next one begins. Outside of repeats all bytes up to there are used; how many they are.
    fn with_line(&mut self, line: &[u8]) -> ControlFlow<(), usize> {
        let next = self.place.wrapping_add(line.len()).wrapping_add(1);
        let used = if self.open.is_empty() { next } else { 0 };
        self.place = next - used;
        self.lines = self.lines.wrapping_add(1);
        self.with_meaning(lines::meaning_of(line), line)?;
        if !self.open.is_empty() && LONGEST_REPEAT < self.place {
            self.refuse_misplaced(line, Rule::TooMuch(self.outermost()))?;
        }
        ControlFlow::Continue(used)
    }

    // The text ends.
    fn end(&mut self) -> ControlFlow<()> {
        if !self.open.is_empty() {
            self.lines = self.lines.wrapping_add(1);
            return self.refuse_misplaced(b"", Rule::NotDone(self.outermost()));
        }
        ControlFlow::Break(())
    }

    // The next line is looked at; where it isn't there as a whole more is read.
    fn turn(&mut self, input: &mut Input<65536>) -> ControlFlow<()> {
        if ENOUGH < self.waiting.len() {
            return self.flush();
        }
        let unread = input.unread();
        let rest = &unread[self.place.min(unread.len())..];
        let n = line_length(rest).min(rest.len());
        let ended = input.source() != Source::Open;
        if LONGEST_LINE < n {
            self.lines = self.lines.wrapping_add(1);
            self.refuse(rest, LONGEST_LINE, Rule::TooLong)
        } else if n < rest.len() || (ended && 0 < n) {
            let used = self.with_line(&rest[..n])?;
            input.pass(used);
            ControlFlow::Continue(())
        } else if ended {
            self.end()
        } else {
            self.read_on(input)
        }
    }
}

// ---- the program

fn asked_mode(rt: &impl Env) -> Result<Mode, ArgumentsError> {
    let mut text = [0; 4096];
    let given = command_line::argument(rt, &mut text);
    if command_line::asked_for(given, &text, b"--expects") == Ok(true) {
        return Ok(Mode::Items);
    }
    let checks = command_line::asked_for(given, &text, b"--check")?;
    Ok(if checks { Mode::Check } else { Mode::Script })
}

// Other arguments are told, and nothing is read.
fn main(rt: HostRuntime) {
    let Ok(mode) = asked_mode(&rt) else {
        let _ = eprintln!(rt; "usage: lesson_write [--check | --expects]");
        return;
    };
    let mut session = Session::begun(&rt, mode);
    let mut input = Input::new();
    // A proved loop has to end, and nothing says that the input does: no run uses so many turns up.
    let _ = (0..u64::MAX).try_for_each(|_| session.turn(&mut input));
    let _ = session.flush();
}
