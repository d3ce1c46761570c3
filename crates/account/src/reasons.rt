// Why a step is refused. The code is the controller's; this is the reason behind it, and says nothing of a step that is
// accepted.
ghost use Rattle.std.specs.Prelude.{◌≡◌};
ghost use Rattle.account.specs.Reasons as reasons;

use model::{Bank, Core, Frame, Mailbox, Mode, Register, Step};

#[derive(Clone, Copy)]
pub enum Reason {
    Misaligned,
    NoRegister,
    ReceiveMailbox,
    BtrLocked,
    MailboxNotEmpty(Mailbox),
    Fm1rLocked,
    Fs1rLocked,
    Ffa1rLocked,
    BankActive(Bank),
    NoBitTimes,
    UnknownResult,
    IdentifierBit,
    ExtendedBits,
    LengthCode,
    ErrorCode,
    ErrorStep,
    OwnFrame,
    NotAsleep,
    NotNormal,
    BusOff,
    NonePending,
    Silent,
    NoOwnFrame,
    Acknowledged,
    Loopback,
    FilterInitialization,
    ErrorActive,
}

#[tactic(auto, unfolding(crate::specs::Reasons::of_offset))]
fn of_offset(o: u16) -> Reason
    ensures { result ≡ reasons.of_offset o }
{
    if o % 4 == 0 {
        Reason::NoRegister
    } else {
        Reason::Misaligned
    }
}

// What keeps each register from being written.
#[tactic(auto, unfolding(crate::specs::Reasons::of_write))]
fn of_write(register: Register, o: u16) -> Option<Reason>
    ensures { result ≡ reasons.of_write register o }
{
    match register {
        Register::Btr => Some(Reason::BtrLocked),
        Register::Ti(m) | Register::Tdt(m) | Register::Tdl(m) | Register::Tdh(m) => {
            Some(Reason::MailboxNotEmpty(m))
        }
        Register::Ri(_) | Register::Rdt(_) | Register::Rdl(_) | Register::Rdh(_) => {
            Some(Reason::ReceiveMailbox)
        }
        Register::Fm1r => Some(Reason::Fm1rLocked),
        Register::Fs1r => Some(Reason::Fs1rLocked),
        Register::Ffa1r => Some(Reason::Ffa1rLocked),
        Register::R1(b) | Register::R2(b) => Some(Reason::BankActive(b)),
        Register::Absent => Some(of_offset(o)),
        _ => None,
    }
}

// What can keep an event off the bus: not in Normal mode, bus-off, an own frame on the wire, no request, loopback.
#[derive(Clone, Copy)]
pub struct Bus {
    pub normal: bool,
    pub off: bool,
    pub own: bool,
    pub empty: bool,
    pub loopback: bool,
}

impl Bus {
    pub fn of_core(c: Core) -> Self
        ensures { result ≡ reasons.bus_of c }
    {
        let q = c.transmit.queue;
        Self {
            normal: c.control.mode == Mode::Normal,
            off: control::boff(c.errors),
            own: q.transmitting.is_some(),
            empty: queue::is_empty(q.order),
            loopback: control::lbkm(c.control),
        }
    }

    // What keeps every frame off the bus; `rest` is the reason where that is not it.
    #[tactic(auto, unfolding(crate::specs::Reasons::of_bus))]
    fn against_any(self, rest: Reason) -> Reason
        ensures { result ≡ reasons.of_bus self rest }
    {
        if !self.normal {
            Reason::NotNormal
        } else if self.off {
            Reason::BusOff
        } else if self.own {
            Reason::OwnFrame
        } else {
            rest
        }
    }

    // The next two are what `against_any` leaves of a start and of a reception; one function of both would have their flag and their
    // two reasons as parameters.
    #[tactic(auto, unfolding(crate::specs::Reasons::of_start))]
    fn against_start(self) -> Reason
        ensures { result ≡ reasons.of_start self }
    {
        self.against_any(if self.empty {
            Reason::NonePending
        } else {
            Reason::Silent
        })
    }

    #[tactic(auto, unfolding(crate::specs::Reasons::of_reception))]
    fn against_reception(self) -> Reason
        ensures { result ≡ reasons.of_reception self }
    {
        self.against_any(if self.loopback {
            Reason::Loopback
        } else {
            Reason::FilterInitialization
        })
    }

    #[tactic(auto, unfolding(crate::specs::Reasons::of_outcome))]
    fn against_outcome(self, r: u8) -> Reason
        ensures { result ≡ reasons.of_outcome self r }
    {
        if 8 < r {
            Reason::UnknownResult
        } else if !self.own {
            Reason::NoOwnFrame
        } else if self.loopback {
            Reason::Acknowledged
        } else {
            Reason::ErrorActive
        }
    }

    #[tactic(auto, unfolding(crate::specs::Reasons::of_frame))]
    fn against_frame(self, x: Frame) -> Reason
        ensures { result ≡ reasons.of_frame self x }
    {
        if !receive::malformed(x) {
            self.against_reception()
        } else if bits::bit(0, x.identifier) {
            Reason::IdentifierBit
        } else if 15 < x.length {
            Reason::LengthCode
        } else {
            Reason::ExtendedBits
        }
    }

    #[tactic(auto, unfolding(crate::specs::Reasons::of_error))]
    fn against_error(self, code: u8, by: u8) -> Reason
        ensures { result ≡ reasons.of_error self code by }
    {
        match (code, by) {
            (1..=6, 1 | 8) => self.against_reception(),
            (_, 1 | 8) => Reason::ErrorCode,
            _ => Reason::ErrorStep,
        }
    }

    // Why a step is refused, if it is; `register` is the one that it reads or writes.
    #[tactic(auto, unfolding(crate::specs::Reasons::of_step))]
    pub fn against_step(self, e: Step, register: Register) -> Option<Reason>
        ensures { result ≡ reasons.of_step self e register }
    {
        match e {
            Step::Reset => None,
            Step::Read(o) => Some(of_offset(o)),
            Step::Write(o, _) => of_write(register, o),
            Step::Idle => Some(Reason::OwnFrame),
            Step::BitTimes(_) => Some(Reason::NoBitTimes),
            Step::Activity => Some(Reason::NotAsleep),
            Step::Start => Some(self.against_start()),
            Step::Outcome(r) => Some(self.against_outcome(r)),
            Step::Receive(x) => Some(self.against_frame(x)),
            Step::ReceiveError(code, by) => Some(self.against_error(code, by)),
        }
    }
}
