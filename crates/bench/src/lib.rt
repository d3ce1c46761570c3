// The bench layer: one controller is lent and changed in place. Each function calls the by-value function and stores the next core
// whole, so that no proof here goes by the fields of the core.
#![tactic(auto)]

ghost use Rattle.std.specs.Prelude.{◌≡◌, ◌+◌, ◌<◌, ◌^◌, length};
ghost use Rattle.model.specs.Script as scripts;
ghost use Rattle.model.specs.declared.Step.TheVariants as steps;
ghost use Rattle.script.specs.OneWay as way;
ghost use Rattle.bench.specs.Lent as lent;

use model::{Answer, Controller, Core, Frame, Replay, Step};
use script::{CoreReplayed, Recorded};
use writes::BankWrite;

// The next controller, stored whole; the words of the banks only where they change.
fn store(c: &mut Controller, core: Core, write: BankWrite)
    ensures { c.new ≡ lent.next_controller c.old core write }
{
    c.core = core;
    if !write.is_nothing() {
        c.banks = writes::banks_after(c.banks, write);
    }
}

// ---- one step

pub fn step(c: &mut Controller, e: Step) -> Answer
    ensures { lent.Taken c.old e result c.new }
{
    let s = controller::core_step(c.core, c.banks, e);
    store(c, s.core, s.banks);
    s.answer
}

// ---- each register access and bus event: the interface names a call for each; for any step it is `step`

pub fn hardware_reset(c: &mut Controller) -> Answer
    ensures { lent.Taken c.old steps.Reset result c.new }
{
    step(c, Step::Reset)
}

pub fn read(c: &mut Controller, offset: u16) -> Answer
    ensures { lent.Taken c.old (steps.Read offset) result c.new }
{
    step(c, Step::Read(offset))
}

pub fn write(c: &mut Controller, offset: u16, word: u32) -> Answer
    ensures { lent.Taken c.old (steps.Write offset word) result c.new }
{
    step(c, Step::Write(offset, word))
}

// 11 recessive bits.
pub fn idle(c: &mut Controller) -> Answer
    ensures { lent.Taken c.old steps.Idle result c.new }
{
    step(c, Step::Idle)
}

pub fn bit_times(c: &mut Controller, n: u16) -> Answer
    ensures { lent.Taken c.old (steps.BitTimes n) result c.new }
{
    step(c, Step::BitTimes(n))
}

pub fn activity(c: &mut Controller) -> Answer
    ensures { lent.Taken c.old steps.Activity result c.new }
{
    step(c, Step::Activity)
}

pub fn start(c: &mut Controller) -> Answer
    ensures { lent.Taken c.old steps.Start result c.new }
{
    step(c, Step::Start)
}

// The end of the frame on the wire: 0 good, 1 to 6 an error code, 7 arbitration lost, 8 no acknowledgment while error passive.
pub fn outcome(c: &mut Controller, res: u8) -> Answer
    ensures { lent.Taken c.old (steps.Outcome res) result c.new }
{
    step(c, Step::Outcome(res))
}

pub fn frame_received(c: &mut Controller, x: Frame) -> Answer
    ensures { lent.Taken c.old (steps.Receive x) result c.new }
{
    step(c, Step::Receive(x))
}

pub fn receive_error(c: &mut Controller, code: u8, by: u8) -> Answer
    ensures { lent.Taken c.old (steps.ReceiveError code by) result c.new }
{
    step(c, Step::ReceiveError(code, by))
}

// ---- one record of a script

// One record by value, its reply from place `written` of the reply space on. A place past the space counts as its end.
// A script and a place in it one by one, as `reading` of records promises of them.
fn replayed_at(
    z: Controller,
    script: &[u8],
    place: usize,
    replies: &mut [u8],
    written: usize,
) -> CoreReplayed
    ensures { (result ≡ lent.core_record_in z script.now place replies.old written) × (replies.new ≡ lent.placed written (scripts.reply_of (way.whole z result)) replies.old) }
{
    let from = written.min(replies.len());
    script::core_replayed(z, script, place, &mut replies[from..])
}

// One record: it is read, its step is done on the lent controller, and its reply is written.
pub fn replay_record(
    c: &mut Controller,
    script: &[u8],
    place: usize,
    replies: &mut [u8],
    written: usize,
) -> Recorded
    ensures { lent.RecordTaken (lent.record_in c.old script.now place replies.old written) written replies.old result c.new replies.new }
{
    let s = replayed_at(*c, script, place, replies, written);
    store(c, s.core, s.banks);
    s.recorded
}

// ---- a whole script

// How far a replay has come, beside the controller: what the last record gave, how many gave a step, and how many bytes of
// replies are written.
#[derive(Clone, Copy)]
pub struct Progress {
    pub last: Recorded,
    pub records: usize,
    pub written: usize,
}

impl Progress {
    fn begun() -> Self
        ensures { result ≡ lent.begun }
    {
        Progress {
            last: Recorded {
                place: 0,
                ended: false,
                answer: Answer {
                    code: 0,
                    lines: 0,
                    word: 0,
                },
            },
            records: 0,
            written: 0,
        }
    }

    fn is_over(self) -> bool
        ensures { result ≡ lent.is_over self }
    {
        script::stops(self.last.ended, self.last.answer.code)
    }

    // One record more.
    fn and(self, last: Recorded) -> Self
        requires { (self.records + 1 < 2 ^ 64) × (self.written + lent.reply_bytes last.ended last.answer.code < 2 ^ 64) }
        ensures { result ≡ lent.progressed self last }
    {
        let Recorded { ended, answer, .. } = last;
        Progress {
            last,
            records: self.records + usize::from(!script::stops(ended, answer.code)),
            written: self.written + script::reply_length(ended, answer.code),
        }
    }

    fn finished(self, controller: Controller) -> Replay
        ensures { result ≡ lent.finished controller self }
    {
        let Recorded {
            place,
            ended,
            answer,
        } = self.last;
        let Answer { code, lines, word } = answer;
        Replay {
            controller,
            place,
            records: self.records,
            written: self.written,
            ended,
            code,
            lines,
            word,
        }
    }
}

// The bench loop: the controller is lent to each record in turn, until the replay stops.
pub fn replay(start: Controller, script: &[u8], replies: &mut [u8]) -> Replay
    ensures { (result ≡ (scripts.replay start script.now (length replies.old)).result) × (replies.new ≡ scripts.overwritten (scripts.replay start script.now (length replies.old)).replies replies.old) }
{
    let mut c = start;
    let mut p = Progress::begun();
    while !p.is_over() {
        let r = replay_record(&mut c, script, p.last.place, replies, p.written);
        p = p.and(r);
    }
    p.finished(c)
}
