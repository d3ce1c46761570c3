// A script that is read in pieces: the replay of one piece, what of its replies is sent, and what is left of it.
#![tactic(auto)]

ghost use Rattle.std.specs.Prelude.{◌≡◌, ◌*◌, ◌≤◌, length};
ghost use Rattle.base.specs.Base as base;
ghost use Rattle.model.specs.Scripts as scripts;
ghost use Rattle.pieces.specs.Turns as turns;

use model::{Controller, Replay};

// Behind some records of a script: the controller, and how many records and bytes they are, modulo 2^64.
#[derive(Clone, Copy)]
pub struct Position {
    pub controller: Controller,
    pub records: u64,
    pub bytes: u64,
}

impl Position {
    // Before the first piece.
    pub fn begun(controller: Controller) -> Self
        ensures { result ≡ turns.begun controller }
    {
        Position {
            controller,
            records: 0,
            bytes: 0,
        }
    }

    // Behind what a replay from here has passed.
    fn behind(self, x: Replay) -> Self
        ensures { result ≡ turns.behind self x }
    {
        Position {
            controller: x.controller,
            records: self.records.wrapping_add(x.records as u64),
            bytes: self.bytes.wrapping_add(x.place as u64),
        }
    }
}

// What a piece gives: the position behind it, the place in it from which on it is left for the next piece, how many bytes of
// replies are sent, whether the replay goes on with the next piece, and the end mark and code with which it stopped.
// `going`, `ended` and `code` as the promises of specs/Turns.antt, here and of lesson, name them.
#[derive(Clone, Copy)]
pub struct Turn {
    pub position: Position,
    pub place: usize,
    pub sent: usize,
    pub going: bool,
    pub ended: bool,
    pub code: u8,
}

// Whether the replay of a piece goes on with the next: it stopped at the end of a piece that is not the last, or at a record that
// is cut short there.
// By the fields of a replay, as the definition `goes`.
fn goes_on(last: bool, ended: bool, code: u8) -> bool
    ensures { result ≡ turns.goes last ended code }
{
    !last && (ended || code == 6)
}

// How many bytes of replies are sent: where the replay goes on, the reply to the record at which it stopped is held back.
fn sent(going: bool, records: usize, written: usize) -> usize
    requires { 9 * records ≤ written }
    ensures { result ≡ base.pick going (9 * records) written }
{
    if going { 9 * records } else { written }
}

fn turned(k: Position, last: bool, x: Replay) -> Turn
    requires { 9 * x.records ≤ x.written }
    ensures { result ≡ turns.turned k last x }
{
    let going = goes_on(last, x.ended, x.code);
    Turn {
        position: k.behind(x),
        place: x.place,
        sent: sent(going, x.records, x.written),
        going,
        ended: x.ended,
        code: x.code,
    }
}

// Replays a piece, which is what was left of the one before it and then what was read, into the reply space. At the last piece
// the input has ended.
pub fn replay_piece(k: Position, piece: &[u8], last: bool, replies: &mut [u8]) -> Turn
    ensures { turns.Taken k piece.now last replies.old result replies.new }
{
    turned(k, last, bench::replay(k.controller, piece, replies))
}
