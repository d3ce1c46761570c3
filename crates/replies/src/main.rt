// Replies in words: a line for each with its number, code, interrupt lines and word. The replies come on standard input, the text
// goes to standard output; both go in pieces.
#![tactic(auto)]

use arrayvec::ArrayVec;
use model::{Answer, Refusal};
use std::io::{Stderr, Stdin, Stdout};
use std::ops::ControlFlow;
use stream::{Input, Source};
use text::Line;

const REPLY_LENGTH: usize = 9;

// Past this the text goes out, so that there is always room for a line.
// The space less a line, as in lesson_text: each program has a space and a limit of its own.
const ENOUGH_TEXT: usize = 65024;

const NUMBER_WIDTH: usize = 10;

const CODE_WIDTH: usize = 4;

const LINES_WIDTH: usize = 18;

// ---- a line of text

fn head() -> Line {
    Line::empty().put(b"     reply  code  lines               word\n")
}

// The interrupt lines that are up, behind a blank; a byte that no controller gives as a number.
fn lines(l: Line, up: u8) -> Line {
    match up {
        0 => l.put(b" -"),
        1..=15 => phrases::lines(l, up),
        _ => l.put(b" ").hex(u32::from(up), 2),
    }
}

fn row(n: u64, a: Answer) -> Line {
    let b = Line::empty()
        .right(n, NUMBER_WIDTH)
        .put(b"  ")
        .right(u64::from(a.code), CODE_WIDTH)
        .put(b" ");
    let behind = b.at.wrapping_add(1 + LINES_WIDTH + 2);
    lines(b, a.lines).column(behind).hex(a.word, 8).put(b"\n")
}

// Why the reply at the start of the rest can't be read.
fn with_reason(l: Line, why: Refusal, rest: &[u8]) -> Line {
    match (why, rest) {
        (Refusal::UnknownTag, [tag, ..]) => l
            .put(b"tag ")
            .hex(u32::from(*tag), 2)
            .put(b", a reply has 0x81"),
        (Refusal::WrongLength, [_, low, high, ..]) => {
            let length = u16::from_le_bytes([*low, *high]);
            l.said(b"length %, a reply has 6", u64::from(length))
        }
        (_, [_, _, _, body @ ..]) => { l.said(b"short body, % bytes of 6", body.len() as u64) }
        _ => l.said(b"short header, % bytes of 3", rest.len() as u64),
    }
}

// ---- a turn of the loop

// The replies so far and the bytes that they take; the text that waits to go out.
#[derive(Drop)]
struct Session {
    replies: u64,
    bytes: u64,
    input: Input<65536>,
    waiting: ArrayVec<u8, 65536>,
    stdin: Stdin,
    stdout: Stdout,
    stderr: Stderr,
}

impl Session {
    fn begun(rt: &HostRuntime) -> Self {
        Self {
            replies: 0,
            bytes: 0,
            input: Input::new(),
            waiting: ArrayVec::new(),
            stdin: rt.stdin(),
            stdout: rt.stdout(),
            stderr: rt.stderr(),
        }
    }

    fn flush(&mut self) -> ControlFlow<()> {
        stream::flush(&mut self.waiting, &mut self.stdout, &self.stderr, "replies")
    }

    // All text goes out before more is read.
    fn read_on(&mut self) -> ControlFlow<()> {
        self.flush()?;
        let _ = self
            .input
            .read_on_or_tell(&mut self.stdin, &self.stderr, "replies");
        ControlFlow::Continue(())
    }

    // The text of a line goes behind the text that waits.
    fn store(&mut self, l: Line) -> ControlFlow<()> {
        stream::store(&mut self.waiting, l.as_bytes());
        if ENOUGH_TEXT < self.waiting.len() {
            return self.flush();
        }
        ControlFlow::Continue(())
    }

    fn tell(&mut self, a: Answer) -> ControlFlow<()> {
        self.replies = self.replies.wrapping_add(1);
        self.bytes = self.bytes.wrapping_add(REPLY_LENGTH as u64);
        self.input.pass(REPLY_LENGTH);
        self.store(row(self.replies, a))
    }

    // The number (from 1) and the first byte (from 0) of a reply that can't be read, and why.
    fn complain(&self, why: Refusal) {
        let l = Line::empty()
            .said(b"replies: reply %", self.replies.wrapping_add(1))
            .said(b" at byte %: ", self.bytes)
            .said(b"malformed %: ", u64::from(u8::from(why)));
        let l = with_reason(l, why, self.input.unread()).put(b"\n");
        let _ = self.stderr.write_all(l.as_bytes());
    }

    // More is read, or the next reply is told. Where reading failed the replies may just break off inside one.
    fn turn(&mut self) -> ControlFlow<()> {
        if self.input.wants(REPLY_LENGTH) {
            return self.read_on();
        }
        let rest = self.input.unread();
        if rest.is_empty() {
            return ControlFlow::Break(());
        }
        match reply::reading(rest, 0) {
            Ok((answer, _)) => self.tell(answer),
            Err(why) => {
                if why != Refusal::Short || self.input.source() != Source::Failed {
                    self.complain(why);
                }
                ControlFlow::Break(())
            }
        }
    }

    fn run(&mut self) -> ControlFlow<()> {
        self.store(head())?;
        // A proved loop has to end, and nothing says that the input does: no run uses so many turns up.
        (0..u64::MAX).try_for_each(|_| self.turn())
    }
}

fn main(rt: HostRuntime) {
    let mut session = Session::begun(&rt);
    let _ = session.run();
    let _ = session.flush();
}
