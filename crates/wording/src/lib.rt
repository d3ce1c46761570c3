// The lines of a trace: a step, its answer, the interrupt lines that are up and what it changed, in words.
#![tactic(auto)]

ghost use Rattle.text.specs.Lines as lines;

use account::Account;
use account::faults::{Fault, Kind};
use account::reasons::Reason;
use model::Step;
use text::Line;

mod changes; // what a step changed

const NUMBER_WIDTH: usize = 7;

const ANSWER_COLUMN: usize = 61;

const LINES_COLUMN: usize = 103;

// Each function that gives a whole line says by a clause that it ends in a newline: the clause names the line before it, and an
// invariant could only say that there is one.

// The heads of the columns, and the state before the first record.
pub fn head() -> Line
    ensures { lines.EndsLine result }
{
    let a = Line::empty().put(
        b" record  step                                                answer                                    lines               changed\n      0  power on                                            -                                         -                   mode Sleep, error active, mailboxes and FIFOs empty",
    );
    a.byte(b'\n')
}

// ---- the answer

#[tactic(auto, using(text::proofs::Extending::extends_trans))]
fn with_reason(l: Line, reason: Reason) -> Line
    ensures { lines.Extends l result }
{
    let text: &[u8] = match reason {
        Reason::Misaligned => b"offset isn't a multiple of 4",
        Reason::NoRegister => b"no register has this offset",
        Reason::ReceiveMailbox => b"a receive mailbox is read only",
        Reason::BtrLocked => b"BTR needs Initialization mode",
        Reason::MailboxNotEmpty(m) => return mailbox(l, m as u64).put(b" isn't empty"),
        Reason::Fm1rLocked => b"FM1R needs FINIT=1",
        Reason::Fs1rLocked => b"FS1R needs FINIT=1",
        Reason::Ffa1rLocked => b"FFA1R needs FINIT=1",
        Reason::BankActive(b) => return l
            .put(b"bank ")
            .decimal(u64::from(b.0))
            .put(b" is active, FINIT=0"),
        Reason::NoBitTimes => b"bit times are 1 to 65535",
        Reason::UnknownResult => b"the result is over 8",
        Reason::IdentifierBit => b"bit 0 of the identifier word",
        Reason::ExtendedBits => b"standard with extended bits",
        Reason::LengthCode => b"length code over 15",
        Reason::ErrorCode => b"error code isn't 1 to 6",
        Reason::ErrorStep => b"REC goes up by 1 or 8",
        Reason::OwnFrame => b"own frame on the wire",
        Reason::NotAsleep => b"not in Sleep mode",
        Reason::NotNormal => b"not in Normal mode",
        Reason::BusOff => b"bus-off",
        Reason::NonePending => b"no request is pending",
        Reason::Silent => b"silent mode (SILM=1)",
        Reason::NoOwnFrame => b"no frame on the wire",
        Reason::Acknowledged => b"loopback needs no acknowledgment",
        Reason::Loopback => b"loopback mode (LBKM=1)",
        Reason::FilterInitialization => b"filters not in use (FINIT=1)",
        Reason::ErrorActive => b"not error passive (EPVF=0)",
    };
    l.put(text)
}

#[tactic(auto, using(text::proofs::Extending::extends_trans))]
fn mailbox(l: Line, m: u64) -> Line
    ensures { lines.Extends l result }
{
    l.put(b"mailbox ").decimal(m)
}

// By the number, as `refused`.
#[tactic(auto, using(text::proofs::Extending::extends_trans))]
fn refused_by(l: Line, code: u8) -> Line
    ensures { lines.Extends l result }
{
    l.put(b"refused ").decimal(u64::from(code)).put(b": ")
}

// The code, which is the number in the step's answer (model::Stepped), and the reason.
#[tactic(auto, using(text::proofs::Extending::extends_trans))]
pub fn refused(l: Line, code: u8, reason: Option<Reason>) -> Line
    ensures { lines.Extends l result }
{
    let a = refused_by(l, code);
    match reason {
        Some(r) => with_reason(a, r),
        None => a,
    }
}

// The interrupt lines that are up, each with a blank in front, or else what is said of none.
pub fn lines_up(l: Line, up: u8, none: &[u8]) -> Line
    ensures { lines.Extends l result }
{
    if up == 0 {
        return l.put(none);
    }
    phrases::lines(l, up)
}

fn lines(l: Line, up: u8) -> Line {
    lines_up(l.column(LINES_COLUMN - 1), up, b" -")
}

// How an own frame ended, by the number of the step, which may be any byte (model::Step).
fn outcome(number: u8) -> &'static [u8] {
    match number {
        0 => b"-",
        1 => b"stuff error",
        2 => b"form error",
        3 => b"no acknowledgment",
        4 => b"recessive bit error",
        5 => b"dominant bit error",
        6 => b"CRC error",
        7 => b"arbitration lost",
        8 => b"no acknowledgment, error passive",
        _ => b"",
    }
}

// The word of a read, the mailbox of a start, what went wrong with an own frame, or nothing to say.
fn done(l: Line, e: Step, word: u32) -> Line {
    match e {
        Step::Read(o) => phrases::fields(l.hex(word, 8), u32::from(o), word),
        Step::Start => mailbox(l, u64::from(word)),
        Step::Outcome(result) => l.put(outcome(result)),
        _ => l.byte(b'-'),
    }
}

// ---- lines

// A step with its number.
pub fn line(n: u64, e: Step, a: Account) -> Line
    ensures { lines.EndsLine result }
{
    let b = Line::empty().right(n, NUMBER_WIDTH).put(b"  ");
    let c = phrases::step(b, e, true).column(ANSWER_COLUMN);
    if a.answer.code != 0 {
        return lines(refused(c, a.answer.code, a.reason), a.answer.lines).byte(b'\n');
    }
    let d = lines(done(c, e, a.answer.word), a.answer.lines);
    changes::told(d, a.taken, account::changes(a.old, a.new)).byte(b'\n')
}

// A tag that no record has, or whose record has another length.
#[tactic(auto, using(text::proofs::Extending::extends_trans))]
fn with_tag(l: Line, tag: u8) -> Line
    ensures { lines.Extends l result }
{
    l.put(b"tag ").hex(u32::from(tag), 2)
}

// What is wrong with a record that can't be read.
#[tactic(auto, using(text::proofs::Extending::extends_trans))]
pub fn fault(l: Line, f: Fault) -> Line
    ensures { lines.Extends l result }
{
    let a = refused_by(l, f.refusal().into());
    match f.kind {
        Kind::ShortHeader { bytes } => a.put(b"short header, ").decimal(bytes).put(b" bytes of 3"),
        Kind::ShortBody { bytes } => {
            let b = a.put(b"short body, ").decimal(bytes);
            b.put(b" bytes of ").decimal(f.wanted)
        }
        Kind::WrongLength { length } => {
            let b = a.put(b"length ").decimal(length).put(b", ");
            with_tag(b, f.tag).put(b" takes ").decimal(f.wanted)
        }
        Kind::UnknownTag { .. } => with_tag(a.put(b"unknown "), f.tag),
    }
}

// A record that can't be read, at a byte of the script, with the interrupt lines that are up.
pub fn unread_line(n: u64, place: u64, f: Fault, up: u8) -> Line
    ensures { lines.EndsLine result }
{
    let a = Line::empty().right(n, NUMBER_WIDTH);
    let b = a.put(b"  can't be read, at byte ").decimal(place);
    lines(fault(b.column(ANSWER_COLUMN), f), up).byte(b'\n')
}

// The same for standard error, by the program that says it.
pub fn complaint(program: &[u8], n: u64, place: u64, f: Fault) -> Line
    ensures { lines.EndsLine result }
{
    let a = Line::empty().put(program).put(b": record ").decimal(n);
    let b = a.put(b" at byte ").decimal(place).put(b": ");
    fault(b, f).byte(b'\n')
}

// ---- a lesson that doesn't open with a reset

pub fn unopened(l: Line) -> Line
    ensures { lines.Extends l result }
{
    l.put(b"refused 11: a lesson opens with a reset")
}

// The same as a line, with the interrupt lines that are up.
pub fn unopened_line(up: u8) -> Line
    ensures { lines.EndsLine result }
{
    let a = Line::empty().put(b"      1  no reset, at byte 0                                 ");
    lines(unopened(a), up).byte(b'\n')
}

// The same for standard error, by the program that says it, with the bytes that stand there, of which there are at most three.
pub fn unopened_complaint(program: &[u8], row: &[u8]) -> Line
    ensures { lines.EndsLine result }
{
    let what: &[u8] = match row {
        [] => b"it is empty",
        [_] | [_, _] => b"it ends after",
        _ => b"it begins with",
    };
    let a = Line::empty().put(program);
    let b = a.put(b": the lesson doesn't open with 01 00 00, the record of a reset: ");
    let mut line = b.put(what);
    for byte in &row[..row.len().min(3)] {
        line = line.byte(b' ').digits(u32::from(*byte), 2);
    }
    line.byte(b'\n')
}

// ---- the end

// Why a trace stops: a record or an opening that is refused, the end of the script, standard input.
#[derive(Clone, Copy, Debug, PartialEq, Eq)]
pub enum Stop {
    Refused,
    Ended,
    InputFailed,
}

// The last line: why and where the trace stopped, how many records there were and how many of them were refused.
#[tactic(auto, using(text::proofs::Extending::extends_trans))]
pub fn last(l: Line, why: Stop, place: u64, records: u64, refused: u64) -> Line
    ensures ends_line { lines.EndsLine result }
    ensures extends { lines.Extends l result }
{
    let text: &[u8] = match why {
        Stop::Refused => b"stopped at byte ",
        Stop::Ended => b"end of the script at byte ",
        Stop::InputFailed => b"standard input can't be read on, stopped at byte ",
    };
    let a = l.put(text).decimal(place).put(b": ");
    let b = a.decimal(records).put(b" records, ");
    b.decimal(refused).put(b" refused").byte(b'\n')
}
