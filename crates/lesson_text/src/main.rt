// The bytes of a script on standard input, its steps as the text of a lesson on standard output, both of any length: a line for each
// record. From a record on that can't be read all bytes are told as they are. Written again the lines are the script.
#![tactic(auto)]

use arrayvec::ArrayVec;
use model::Refusal;
use std::io::{Stderr, Stdin, Stdout};
use std::ops::ControlFlow;
use stream::{Input, Source};
use text::Line;

// No record has more bytes, and a line no more bytes as they are.
const LONGEST_RECORD: usize = 16;

// Past this the text goes out, so that there is always room for a line.
// The space less a line, as in replies: each program has a space and a limit of its own.
const ENOUGH_TEXT: usize = 65024;

// The text that waits to go out; whether the bytes are told as they are.
#[derive(Drop)]
struct Session {
    input: Input<65536>,
    waiting: ArrayVec<u8, 65536>,
    plain: bool,
    stdin: Stdin,
    stdout: Stdout,
    stderr: Stderr,
}

impl Session {
    fn begun(rt: &HostRuntime) -> Self {
        Self {
            input: Input::new(),
            waiting: ArrayVec::new(),
            plain: false,
            stdin: rt.stdin(),
            stdout: rt.stdout(),
            stderr: rt.stderr(),
        }
    }

    fn flush(&mut self) -> ControlFlow<()> {
        stream::flush(
            &mut self.waiting,
            &mut self.stdout,
            &self.stderr,
            "lesson_text",
        )
    }

    // All text goes out before more is read.
    fn read_on(&mut self) -> ControlFlow<()> {
        self.flush()?;
        let _ = self
            .input
            .read_on_or_tell(&mut self.stdin, &self.stderr, "lesson_text");
        ControlFlow::Continue(())
    }

    // A line goes behind the text that waits; it tells so many bytes.
    fn tell(&mut self, l: Line, length: usize) -> ControlFlow<()> {
        stream::store(&mut self.waiting, l.byte(b'\n').as_bytes());
        self.input.pass(length);
        if ENOUGH_TEXT < self.waiting.len() {
            return self.flush();
        }
        ControlFlow::Continue(())
    }

    // Bytes as they are, and behind them what is wrong with the record that they begin.
    fn tell_bytes(&mut self, why: Option<Refusal>) -> ControlFlow<()> {
        let rest = self.input.unread();
        let n = rest.len().min(LONGEST_RECORD);
        let mut l = phrases::bytes(Line::empty(), &rest[..n]);
        if let Some(why) = why {
            l = wording::fault(l.put(b" # "), account::faults::fault_in(why, rest));
        }
        self.tell(l, n)
    }

    // More is read, or the next bytes are told. Where reading failed the script may just break off inside a record.
    fn turn(&mut self) -> ControlFlow<()> {
        if self.input.wants(LONGEST_RECORD) {
            return self.read_on();
        }
        let rest = self.input.unread();
        if rest.is_empty() {
            return ControlFlow::Break(());
        }
        if self.plain {
            return self.tell_bytes(None);
        }
        match records::reading(rest, 0) {
            Ok(Some((step, length))) => self.tell(
                phrases::step(Line::empty(), step, false),
                length,
            ),
            Ok(None) => ControlFlow::Break(()),
            Err(why) => {
                self.plain = true;
                let breaks_off = why == Refusal::Short && self.input.source() == Source::Failed;
                self.tell_bytes(if breaks_off { None } else { Some(why) })
            }
        }
    }
}

fn main(rt: HostRuntime) {
    let mut session = Session::begun(&rt);
    // A proved loop has to end, and nothing says that the input does: no run uses so many turns up.
    let _ = (0..u64::MAX).try_for_each(|_| session.turn());
    let _ = session.flush();
}
