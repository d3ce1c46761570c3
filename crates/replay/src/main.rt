// Replays a bench script from standard input, of any length, and writes the replies to standard output. With --lesson it must open
// with the record of a hardware reset.
#![tactic(auto)]

use command_line::ArgumentsError;
use pieces::Position;
use std::env::Env;
use std::io::{Stderr, Stdin, Stdout};
use std::ops::ControlFlow;
use stream::{Input, Source};

mod say; // what is said on standard error

// Room for a reply to each record of three bytes and to one more.
const REPLIES: usize = 196614;

// A lesson's opening is read, or none is asked for.
#[derive(Drop)]
struct Session {
    opened: bool,
    stdin: Stdin,
    stdout: Stdout,
    stderr: Stderr,
}

impl Session {
    fn begun(rt: &HostRuntime, lesson: bool) -> Self {
        Self {
            opened: !lesson,
            stdin: rt.stdin(),
            stdout: rt.stdout(),
            stderr: rt.stderr(),
        }
    }

    // Something is wrong behind so many records and bytes. Numbers and not the position: a call in a rarely taken branch would keep
    // the controller in memory.
    fn complain(&self, records: u64, bytes: u64, what: &str) {
        let _ = say::place(&self.stderr, records, bytes);
        let _ = eprintln!(self.stderr; "{what}");
    }

    // Reads a piece behind what is left of the one before, replays it and writes the replies. As a call, or with the position in the
    // session, each record of the benchmark takes 70 to 80 instructions more, of 540: the controller is kept in memory then.
    #[inline(always)]
    fn turn(
        &mut self,
        k: Position,
        input: &mut Input<65536>,
        replies: &mut [u8],
    ) -> ControlFlow<(), Position> {
        if input.read_on(&mut self.stdin).is_err() {
            self.complain(k.records, k.bytes, "standard input can't be read");
            return ControlFlow::Break(());
        }
        let last = input.source() == Source::Ended;
        let piece = input.unread();
        let l = lesson::replay_piece(k, self.opened, piece, last, replies);
        let t = l.turn;
        self.opened = l.opened;
        let sent = t.sent.min(replies.len());
        if self.stdout.write_all(&replies[..sent]).is_err() {
            self.complain(
                k.records,
                k.bytes,
                "standard output can't be written; the replies from here on are lost",
            );
            return ControlFlow::Break(());
        }
        let next = t.position;
        if t.going {
            input.pass(t.place);
            return ControlFlow::Continue(next);
        }
        if !t.ended {
            let _ = say::fault(
                &self.stderr,
                next.records,
                next.bytes,
                t.code,
                piece,
                t.place,
            );
        }
        ControlFlow::Break(())
    }
}

// Whether the script is a lesson.
// Each program has its own: no contract can say what a command line holds, and four lines are no plainer as a call.
fn is_lesson(rt: &impl Env) -> Result<bool, ArgumentsError> {
    let mut text = [0; 4096];
    let given = command_line::argument(rt, &mut text);
    command_line::asked_for(given, &text, b"--lesson")
}

// Other arguments than --lesson are told, and nothing is replayed.
fn main(rt: HostRuntime) {
    let Ok(lesson) = is_lesson(&rt) else {
        let _ = eprintln!(rt; "usage: replay [--lesson]");
        return;
    };
    let mut session = Session::begun(&rt, lesson);
    let mut input = Input::new();
    let mut replies = [0; REPLIES];
    let mut position = Position::begun(controller::reset());
    // A proved loop has to end, and nothing says that the input does: no run uses so many turns up.
    for _ in 0..u64::MAX {
        match session.turn(position, &mut input, &mut replies) {
            ControlFlow::Continue(next) => position = next,
            ControlFlow::Break(()) => break,
        }
    }
}
