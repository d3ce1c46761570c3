// What there is to say of a step: its register, why it is refused, which filter took its frame, and the state before and
// after it. The words are another crate's.
#![tactic(auto)]

ghost use Rattle.std.specs.Prelude.{◌≡◌};
ghost use Rattle.model.specs.Registers as registers;
ghost use Rattle.account.specs.Accesses as accesses;
ghost use Rattle.account.specs.Accounts as accounts;
ghost use Rattle.account.specs.Views as views;

use model::{
    Answer, Controller, Core, Fifo, FilterNumber, Filters, Mailbox, Mode, Queue, Register, Step,
    Stepped,
};
use reasons::{Bus, Reason};

pub mod faults; // what is wrong with a record that can't be read
pub mod reasons; // why a step is refused

// ---- the state

#[derive(Clone, Copy, Debug, PartialEq, Eq)]
pub enum Occupancy {
    Empty,
    Pending,
    OnWire,
}

// One of the things that are looked at, with what it shows: RF0R or RF1R, TEC, REC, the error flags of ESR, the count of idles
// towards recovery from bus-off, the mode, the flags of MSR, the timer.
#[derive(Clone, Copy, Debug, PartialEq, Eq)]
pub enum Aspect {
    Mailbox(Mailbox, Occupancy),
    Fifo(Fifo, u32),
    Tec(u16),
    Rec(u8),
    Errors(u32),
    Recovery(u8),
    Mode(Mode),
    Flags(u32),
    Timer(u16),
}

#[tactic(auto, unfolding(crate::specs::Views::occupancy_of))]
fn occupancy_of(q: Queue, m: Mailbox) -> Occupancy
    ensures { result ≡ views.occupancy_of q m }
{
    if q.transmitting == Some(m) {
        Occupancy::OnWire
    } else if queue::holds(q.order, m) {
        Occupancy::Pending
    } else {
        Occupancy::Empty
    }
}

fn mailbox(q: Queue, m: Mailbox) -> Aspect
    ensures { result ≡ views.mailbox q m }
{
    Aspect::Mailbox(m, occupancy_of(q, m))
}

// All that is looked at: a list, so that what changed is found in one way; the mailboxes stand in it one by one, as they do in the model.
#[tactic(auto, unfolding(crate::specs::Views::view_of, model::specs::Registers::read_word))]
pub fn view_of(c: Core) -> [Aspect; 12]
    ensures { result ≡ views.view_of c }
{
    let q = c.transmit.queue;
    let msr = control::msr_word(c.control, q.transmitting.is_none());
    [
        mailbox(q, Mailbox::M0),
        mailbox(q, Mailbox::M1),
        mailbox(q, Mailbox::M2),
        Aspect::Fifo(Fifo::F0, receive::rfr_word(c.fifo0)),
        Aspect::Fifo(Fifo::F1, receive::rfr_word(c.fifo1)),
        Aspect::Tec(c.errors.tec),
        Aspect::Rec(c.errors.rec),
        Aspect::Errors(control::esr_word(c.errors) % 8),
        Aspect::Recovery(c.control.recovery),
        Aspect::Mode(c.control.mode),
        Aspect::Flags(msr / 4 % 8),
        Aspect::Timer(c.control.timer),
    ]
}

fn change(old: Aspect, new: Aspect) -> Option<Aspect>
    ensures { views.Change old new result }
{
    (old != new).then_some(new)
}

// What is seen after a step where it is another than before. By index: of std's array::from_fn the check does not prove which item is
// whose.
pub fn changes(old: [Aspect; 12], new: [Aspect; 12]) -> [Option<Aspect>; 12]
    ensures { views.Changes old new result }
{
    let mut changed = [None; 12];
    for (i, seen) in changed.iter_mut().enumerate() {
        *seen = change(old[i], new[i]);
    }
    changed
}

// ---- the account

// `taken`: of a frame, which filter of which FIFO took it, if any did.
#[derive(Clone, Copy)]
pub struct Account {
    pub register: Register,
    pub answer: Answer,
    pub reason: Option<Reason>,
    pub taken: Option<Option<(Fifo, FilterNumber)>>,
    pub old: [Aspect; 12],
    pub new: [Aspect; 12],
}

// The register of a step; one that is no access has none.
#[tactic(auto, unfolding(model::specs::Registers::register_at, model::specs::Registers::control_register))]
fn register_of(e: Step) -> Register
    ensures { result ≡ registers.register_at (accesses.offset_of e) }
{
    match e {
        Step::Read(o) | Step::Write(o, _) => registers::register_at(o),
        _ => Register::Absent,
    }
}

#[tactic(auto, unfolding(crate::specs::Views::taken_by))]
fn taken_by(g: Filters, banks: &[u32; 28], e: Step) -> Option<Option<(Fifo, FilterNumber)>>
    ensures { result ≡ views.taken_by g banks.now e }
{
    match e {
        Step::Receive(x) => Some(filter::acceptance(g, banks, x.identifier)),
        _ => None,
    }
}

// Of the step e from z, which gave a.
#[tactic(auto, unfolding(crate::specs::Accounts::account_of))]
pub fn account_of(z: Controller, e: Step, a: Stepped) -> Account
    ensures { result ≡ accounts.account_of z e a }
{
    let register = register_of(e);
    Account {
        register,
        answer: Answer {
            code: a.code,
            lines: a.lines,
            word: a.word,
        },
        reason: Bus::of_core(z.core).against_step(e, register),
        taken: taken_by(z.core.filters, &z.banks, e),
        old: view_of(z.core),
        new: view_of(a.controller.core),
    }
}
