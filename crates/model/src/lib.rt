// The state of a bxCAN controller, the steps that it takes and what they answer.
// The rules are the definitions of specs/; nothing here runs.
#![tactic(auto)]

ghost use Rattle.std.specs.Prelude.{◌≡◌};
ghost use Rattle.model.specs.Refusals as refusals;

// ---- transmission

// One of the three transmit mailboxes.
#[derive(Clone, Copy, Debug, PartialEq, Eq)]
pub enum Mailbox {
    M0,
    M1,
    M2,
}

// The mailboxes that are not empty, the oldest request first.
// No heap: a list of at most three, case by case, as specs/Queue.antt and Reachable.antt speak of it (docs/DECISIONS.md, C1).
#[derive(Clone, Copy)]
pub enum RequestOrder {
    Empty,
    One(Mailbox),
    Two(Mailbox, Mailbox),
    Three(Mailbox, Mailbox, Mailbox),
}

// One thing for each mailbox: a bit, the identifier word that arbitration looks at, all that a mailbox holds.
// What is made of each of the three is written one by one: over a closure it would be a line, and need its promise and edits besides.
#[derive(Clone, Copy)]
pub struct ByMailbox<T> {
    pub m0: T,
    pub m1: T,
    pub m2: T,
}

// The requests: their order, the mailbox that is transmitting, the remembered aborts (ABRQ).
#[derive(Clone, Copy)]
pub struct Queue {
    pub order: RequestOrder,
    pub transmitting: Option<Mailbox>,
    pub aborts: ByMailbox<bool>,
}

// A mailbox's words, TXRQ left out of `ti`, and its flags in TSR.
#[derive(Clone, Copy)]
pub struct MailboxState {
    pub ti: u32,
    pub tdt: u32,
    pub tdl: u32,
    pub tdh: u32,
    pub rqcp: bool,
    pub txok: bool,
    pub alst: bool,
    pub terr: bool,
}

#[derive(Clone, Copy)]
pub struct Transmit {
    pub mailboxes: ByMailbox<MailboxState>,
    pub queue: Queue,
}

// ---- reception

// One of the two receive FIFOs.
#[derive(Clone, Copy, Debug, PartialEq, Eq)]
pub enum Fifo {
    F0,
    F1,
}

// A frame as it is stored: RI, RDT, RDL, RDH.
#[derive(Clone, Copy)]
pub struct StoredFrame {
    pub ri: u32,
    pub rdt: u32,
    pub rdl: u32,
    pub rdh: u32,
}

// A FIFO: `count` frames, the oldest first; places past the count hold zeros.
// No heap: three frames and a count. `FifoRange` (specs/Reachable.antt) names first, second and third.
#[derive(Clone, Copy)]
pub struct FifoState {
    pub first: StoredFrame,
    pub second: StoredFrame,
    pub third: StoredFrame,
    pub count: u16,
    pub full: bool,
    pub fovr: bool,
}

// A frame on the bus: identifier word as in RI, data bytes 0 to 3 and 4 to 7, length code.
#[derive(Clone, Copy)]
pub struct Frame {
    pub identifier: u32,
    pub low: u32,
    pub high: u32,
    pub length: u8,
}

// ---- filters

// The number of a filter bank.
#[derive(Clone, Copy)]
pub struct Bank(pub u32);

// The number of a filter in its FIFO.
#[derive(Clone, Copy)]
pub struct FilterNumber(pub u8);

// What the scale and mode bits make of a bank.
#[derive(Clone, Copy)]
pub enum FilterClass {
    List32,
    Mask32,
    List16,
    Mask16,
}

// The words FM1R, FS1R, FFA1R, FA1R, a bit for each bank, and FINIT.
#[derive(Clone, Copy)]
pub struct Filters {
    pub mode: u32,
    pub scale: u32,
    pub assignment: u32,
    pub activation: u32,
    pub finit: bool,
}

// ---- the controller

#[derive(Clone, Copy, Debug, PartialEq, Eq)]
pub enum Mode {
    Sleep,
    Initialization,
    Normal,
}

// MCR, IER, BTR, the timer, the mode, the count of idles towards recovery from bus-off, whether Initialization
// was entered since bus-off, and the flags of MSR.
#[derive(Clone, Copy)]
pub struct Control {
    pub mcr: u32,
    pub ier: u32,
    pub btr: u32,
    pub timer: u16,
    pub mode: Mode,
    pub recovery: u8,
    pub reinitialized: bool,
    pub erri: bool,
    pub wkui: bool,
    pub slaki: bool,
}

// Transmit and receive error counters, last error code.
#[derive(Clone, Copy)]
pub struct Errors {
    pub tec: u16,
    pub rec: u8,
    pub lec: u8,
}

// All but the banks' words, which no event changes.
#[derive(Clone, Copy)]
pub struct Core {
    pub control: Control,
    pub errors: Errors,
    pub transmit: Transmit,
    pub fifo0: FifoState,
    pub fifo1: FifoState,
    pub filters: Filters,
}

// `banks` holds R1 and R2 of each of the 14 banks in turn.
// One array, as the definitions of specs/Banks.antt take it (`first_word`, `second_word`).
#[derive(Clone, Copy)]
pub struct Controller {
    pub core: Core,
    pub banks: [u32; 28],
}

// ---- refusals

// Why a step, a record, a block or a lesson is refused; the numbers are those of a reply and of a call from C.
#[derive(Clone, Copy, Debug, PartialEq, Eq)]
pub enum Refusal {
    NotMapped = 1,
    NotWritable = 2,
    ReadOnly = 3,
    NotNow = 4,
    OutOfRange = 5,
    Short = 6,
    UnknownTag = 7,
    WrongLength = 8,
    NoSpace = 9,
    BadBlock = 10,
    NotOpened = 11,
}

impl From<Refusal> for u8 {
    ghost from_gives = { λ r n. n ≡ refusals.code r };

    fn from(r: Refusal) -> u8 {
        r as u8
    }
}

// ---- steps and answers

// A register, as an offset names it.
// `Absent` is a case and no None: the promises of specs/Codes.antt take any register and ask `IsPresent` of it.
#[derive(Clone, Copy)]
pub enum Register {
    Mcr,
    Msr,
    Tsr,
    Rfr(Fifo),
    Ier,
    Esr,
    Btr,
    Ti(Mailbox),
    Tdt(Mailbox),
    Tdl(Mailbox),
    Tdh(Mailbox),
    Ri(Fifo),
    Rdt(Fifo),
    Rdl(Fifo),
    Rdh(Fifo),
    Fmr,
    Fm1r,
    Fs1r,
    Ffa1r,
    Fa1r,
    R1(Bank),
    R2(Bank),
    Absent,
}

// A hardware reset, a register access or a bus event. `Outcome` is what document 01 calls an own end.
// Numbers, as C and a record give them: a step takes any, and refuses by 5 what is out of range (docs/DECISIONS.md, C8).
#[derive(Clone, Copy)]
pub enum Step {
    Reset,
    Read(u16),
    Write(u16, u32),
    Idle,
    BitTimes(u16),
    Activity,
    Start,
    Outcome(u8),
    Receive(Frame),
    ReceiveError(u8, u8),
}

// What a step gives: the next controller, the code (0 is done), the interrupt lines, the word.
// Field by field, the code as a number: the promises of specs/Codes.antt and Interrupts.antt name code, lines and word of a step.
#[derive(Clone, Copy)]
pub struct Stepped {
    pub controller: Controller,
    pub code: u8,
    pub lines: u8,
    pub word: u32,
}

// What is said of a step.
// The code is a number, for a reply that is read back may say any (specs/Replies.antt).
#[derive(Clone, Copy)]
pub struct Answer {
    pub code: u8,
    pub lines: u8,
    pub word: u32,
}

// ---- scripts

// What stands at a place of a script: nothing at its end, or a step and the place behind its record.
pub type Reading = Result<Option<(Step, usize)>, Refusal>;

// What stands at a place of some replies: what one says, and the place behind it.
pub type ReplyReading = Result<(Answer, usize), Refusal>;

// A frame and a step in numbers of 32 bits, which may be too large for a record: what is written to a script.
// Types of their own: one over the widths would name its three number types at each use, and specs/Writer.antt speaks of these.
#[derive(Clone, Copy)]
pub struct WideFrame {
    pub identifier: u32,
    pub low: u32,
    pub high: u32,
    pub length: u32,
}

#[derive(Clone, Copy)]
pub enum WideStep {
    Reset,
    Read(u32),
    Write(u32, u32),
    Idle,
    BitTimes(u32),
    Activity,
    Start,
    Outcome(u32),
    Receive(WideFrame),
    ReceiveError(u32, u32),
}

// What one record gives: the next controller, whether the script was at its end, the answer, the next place.
// `ended` and `code` as the promises of specs/Scripts.antt (`RecordCodes`) name them, of a refused record too.
#[derive(Clone, Copy)]
pub struct Replayed {
    pub controller: Controller,
    pub place: usize,
    pub ended: bool,
    pub code: u8,
    pub lines: u8,
    pub word: u32,
}

// What a whole script gives: the last controller, the place where the replay stopped, how many records gave a step,
// how many bytes of replies were written, and the last answer.
// As in Replayed: a promise of specs/Lesson.antt (`stopped`) names `ended` and `code` of a replay.
#[derive(Clone, Copy)]
pub struct Replay {
    pub controller: Controller,
    pub place: usize,
    pub records: usize,
    pub written: usize,
    pub ended: bool,
    pub code: u8,
    pub lines: u8,
    pub word: u32,
}
