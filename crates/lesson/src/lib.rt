// Lessons: scripts that must open with the record of a hardware reset. One record, a whole lesson, and a lesson in pieces.
#![tactic(auto)]

ghost use Rattle.std.specs.Prelude.{◌≡◌, length};
ghost use Rattle.model.specs.Lesson as lessons;
ghost use Rattle.model.specs.Script as scripts;
ghost use Rattle.script.specs.OneWay as way;
ghost use Rattle.lesson.specs.Turns as turns;

use model::{Answer, Controller, Replay, Replayed};
use pieces::{Position, Turn};
use script::{CoreReplayed, Recorded};
use writer::OPENING;

// Whether the first three bytes are the opening.
pub fn opens(lesson: &[u8]) -> bool
    ensures { result ≡ lessons.opens lesson.now }
{
    lesson.starts_with(&OPENING)
}

// Another opening: 11 with its reply, or 9 where there is no space for that. The controller and the place stay.
// State, place and reply space one by one, as `record` and `core_replayed` promise of them.
fn refused(z: Controller, place: usize, reply: &mut [u8]) -> Replayed
    ensures value { result ≡ lessons.refused_opening z place (length reply.old) }
    ensures reply_after { reply.new ≡ scripts.overwritten (scripts.reply_of result) reply.old }
{
    let lines = reads::lines_of(z.core);
    Replayed {
        controller: z,
        place,
        ended: false,
        code: script::refuse_opening(reply, lines),
        lines,
        word: 0,
    }
}

// ---- one record

fn with_banks(z: Controller, a: CoreReplayed) -> Replayed
    ensures { result ≡ way.whole z a }
{
    let Recorded {
        place,
        ended,
        answer,
    } = a.recorded;
    let Answer { code, lines, word } = answer;
    Replayed {
        controller: Controller {
            core: a.core,
            banks: writes::banks_after(z.banks, a.banks),
        },
        place,
        ended,
        code,
        lines,
        word,
    }
}

// The record at a place of a lesson, with its reply.
pub fn record(z: Controller, lesson: &[u8], place: usize, reply: &mut [u8]) -> Replayed
    ensures value { result ≡ lessons.lesson_at z lesson.now place (length reply.old) }
    ensures reply_after { reply.new ≡ scripts.overwritten (scripts.reply_of result) reply.old }
{
    if opens(lesson) {
        let a = script::core_replayed(z, lesson, place, reply);
        return with_banks(z, a);
    }
    refused(z, place, reply)
}

// Where record after record ends: as in a script, and at a refused opening; by the fields of a replay, as the definition.
pub fn stops(ended: bool, code: u8) -> bool
    ensures { result ≡ lessons.lesson_stops ended code }
{
    script::stops(ended, code) || code == 11
}

// ---- a whole lesson

fn ends_with(a: Replayed) -> Replay
    ensures { result ≡ (lessons.ends_with a).result }
{
    Replay {
        controller: a.controller,
        place: a.place,
        records: 0,
        written: script::reply_length(a.ended, a.code),
        ended: a.ended,
        code: a.code,
        lines: a.lines,
        word: a.word,
    }
}

// A lesson whose opening is refused has one answer; any other is replayed as a script.
pub fn replay(start: Controller, lesson: &[u8], replies: &mut [u8]) -> Replay
    ensures value { result ≡ (lessons.lesson_replay start lesson.now (length replies.old)).result }
    ensures replies_after { replies.new ≡ scripts.overwritten (lessons.lesson_replay start lesson.now (length replies.old)).replies replies.old }
{
    if !opens(lesson) {
        return ends_with(refused(start, 0, replies));
    }
    bench::replay(start, lesson, replies)
}

// ---- a lesson in pieces

// What a piece gives, and whether a good opening has been read by then.
#[derive(Clone, Copy)]
pub struct LessonTurn {
    pub turn: Turn,
    pub opened: bool,
}

// The code as pieces::Turn has it.
fn refused_turn(k: Position, code: u8) -> Turn
    ensures { result ≡ turns.refused_turn k code }
{
    Turn {
        position: k,
        place: 0,
        sent: script::reply_length(false, code),
        going: false,
        ended: false,
        code,
    }
}

// Replays a piece of a lesson. Up to the opening nothing is left behind, so that the piece holds it from its first byte on; under
// three bytes that are not the last say nothing yet. The opening is looked at again behind the replay: a value that is kept
// over it costs some instructions in every record.
pub fn replay_piece(
    k: Position,
    opened: bool,
    piece: &[u8],
    last: bool,
    replies: &mut [u8],
) -> LessonTurn
    ensures { turns.Taken k opened piece.now last replies.old result replies.new }
{
    // Not `||`: each of its ways to the replay would be a proof of its own, and the piece be replayed at two places of the code.
    if (opened | opens(piece)) | (!last & (piece.len() < 3)) {
        return LessonTurn {
            turn: pieces::replay_piece(k, piece, last, replies),
            opened: opened | opens(piece),
        };
    }
    let a = refused(k.controller, 0, replies);
    LessonTurn {
        turn: refused_turn(k, a.code),
        opened: false,
    }
}
