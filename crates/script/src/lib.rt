// Bench scripts: one record with its reply, and where a replay stops.
#![tactic(auto)]

ghost use Rattle.std.specs.Prelude.{◌≡◌, [], ◌≤◌, false, ◌||◌, eqb, ltb, length};
ghost use Rattle.base.specs.Base as base;
ghost use Rattle.model.specs.Script as scripts;
ghost use Rattle.script.specs.OneWay as way;

use model::{Answer, Controller, Core, Reading, Refusal, Step};
use writes::BankWrite;

// ---- one record

// The record at a place of the script, with so much space for its reply: without it, nothing but the end can be answered.
fn readable(script: &[u8], place: usize, space: usize) -> Reading
    ensures { result ≡ way.answerable (scripts.reading script.now place) space }
{
    if space < 9 && place < script.len() {
        return Err(Refusal::NoSpace);
    }
    records::reading(script, place)
}

// The step that is done. Where there is none, it is one that every state refuses: no bit times at all.
// So the state has one way through the code: a second one cost over 600 instructions in every record (docs/DECISIONS.md, C9).
fn step_of(x: Reading) -> Step
    ensures { result ≡ way.step_of x }
{
    match x {
        Ok(Some((e, _))) => e,
        Ok(None) | Err(_) => Step::BitTimes(0),
    }
}

// The number of the answer (model::Answer): 0 at the end, of a refusal its own.
fn code_of(x: Reading, code: u8) -> u8
    ensures { result ≡ way.code_of x code }
{
    match x {
        Ok(Some(_)) => code,
        Ok(None) => 0,
        Err(refusal) => u8::from(refusal),
    }
}

// The place afterwards, from `place` in a script of n bytes.
fn place_of(x: Reading, n: usize, place: usize) -> usize
    ensures { result ≡ way.place_of x n place }
{
    match x {
        Ok(Some((_, q))) => q,
        Ok(None) => n,
        Err(_) => place,
    }
}

fn is_end(x: Reading) -> bool
    ensures { result ≡ way.is_end x }
{
    matches!(x, Ok(None))
}

// 81 06 00, code, lines, word.
fn write_reply(reply: &mut [u8], answer: Answer)
    requires { 9 ≤ length reply.old }
    ensures { reply.new ≡ scripts.overwritten (scripts.reply answer.code answer.lines answer.word) reply.old }
{
    let Answer { code, lines, word } = answer;
    let [w0, w1, w2, w3] = word.to_le_bytes();
    reply[..9].copy_from_slice(&[0x81, 0x06, 0x00, code, lines, w0, w1, w2, w3]);
}

// The reply to a lesson's opening that is refused, where there is space for it, and the code that is answered: 9 without.
// A number, for that is what is promised of it, and the caller puts it into a Replayed.
pub fn refuse_opening(reply: &mut [u8], lines: u8) -> u8
    ensures value { result ≡ base.pick (ltb (length reply.old) 9) 9 11 }
    ensures reply_after { reply.new ≡ scripts.overwritten (base.pick (ltb (length reply.old) 9) [] (scripts.reply 11 lines 0)) reply.old }
{
    if reply.len() < 9 {
        return u8::from(Refusal::NoSpace);
    }
    let code = u8::from(Refusal::NotOpened);
    let answer = Answer {
        code,
        lines,
        word: 0,
    };
    write_reply(reply, answer);
    code
}

// The end and code 9 have no reply.
fn write_answer(reply: &mut [u8], ended: bool, answer: Answer)
    requires { (ended || eqb answer.code 9) ≡ false → 9 ≤ length reply.old }
    ensures { reply.new ≡ scripts.overwritten (base.pick (ended || eqb answer.code 9) [] (scripts.reply answer.code answer.lines answer.word)) reply.old }
{
    if ended || answer.code == 9 {
        return;
    }
    write_reply(reply, answer);
}

// What one record gives beside the state: the place behind it, whether the script was at its end, the answer.
// `ended` and the code as in model::Replayed, which this is with the state beside it.
#[derive(Clone, Copy)]
pub struct Recorded {
    pub place: usize,
    pub ended: bool,
    pub answer: Answer,
}

// What one record gives, the words of the banks by what its step does to them.
#[derive(Clone, Copy)]
pub struct CoreReplayed {
    pub core: Core,
    pub banks: BankWrite,
    pub recorded: Recorded,
}

// One record: it is read, its step is done, and its reply is written to the first nine bytes of the reply space. The
// state has one way through: a second call that takes it would copy it in every record.
pub fn core_replayed(z: Controller, script: &[u8], place: usize, reply: &mut [u8]) -> CoreReplayed
    ensures value { result ≡ way.core_replayed z script.now place (length reply.old) }
    ensures reply_after { reply.new ≡ scripts.overwritten (scripts.reply_of (way.whole z result)) reply.old }
{
    let x = readable(script, place, reply.len());
    let s = controller::core_step(z.core, z.banks, step_of(x));
    let answer = Answer {
        code: code_of(x, s.answer.code),
        ..s.answer
    };
    let ended = is_end(x);
    write_answer(reply, ended, answer);
    CoreReplayed {
        core: s.core,
        banks: s.banks,
        recorded: Recorded {
            place: place_of(x, script.len(), place),
            ended,
            answer,
        },
    }
}

// ---- record after record

// A replay stops at the end and where a record can't be read or answered. By the end mark and the number of the code, as the fields of a
// replay, of which the definition `stops` speaks.
pub fn stops(ended: bool, code: u8) -> bool
    ensures { result ≡ scripts.stops ended code }
{
    ended || matches!(code, 6..=9)
}

// How many bytes a record's reply has: none at the end and for code 9.
// By the fields of a replay, as `stops`.
pub fn reply_length(ended: bool, code: u8) -> usize
    ensures { result ≡ base.pick (ended || eqb code 9) 0 9 }
{
    if ended || code == 9 { 0 } else { 9 }
}
