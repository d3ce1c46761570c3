// What a start and an outcome do to the mailboxes.
ghost use Rattle.std.specs.Prelude.{◌≡◌};
ghost use Rattle.model.specs.Mailboxes as mailboxes;

use model::{Mailbox, MailboxState, Queue, Transmit};
use queue::{at, off_wire, put, sending};

// The frame goes on the wire, TIME takes the timer.
#[tactic(auto, unfolding(model::specs::Mailboxes::started))]
pub fn started(t: Transmit, m: Mailbox, time: u16) -> Transmit
    ensures { result ≡ mailboxes.started t m time }
{
    let x = at(t.mailboxes, m);
    let y = MailboxState {
        tdt: x.tdt % 65536 + time as u32 * 65536,
        ..x
    };
    Transmit {
        mailboxes: put(t.mailboxes, m, y),
        queue: sending(t.queue, m),
    }
}

// The request is over if it went well (0), with NART=1, or with a remembered abort.
#[tactic(auto, unfolding(model::specs::Mailboxes::over))]
pub fn over(q: Queue, m: Mailbox, outcome: u8, nart: bool) -> bool
    ensures { result ≡ mailboxes.over q m outcome nart }
{
    outcome == 0 || nart || at(q.aborts, m)
}

// 0 is good, 7 is arbitration lost, the rest are errors, 8 too.
#[tactic(auto, unfolding(model::specs::Mailboxes::outcome_flags))]
fn outcome_flags(x: MailboxState, outcome: u8, done: bool) -> MailboxState
    ensures { result ≡ mailboxes.outcome_flags x outcome done }
{
    MailboxState {
        rqcp: x.rqcp || done,
        txok: outcome == 0,
        alst: outcome == 7,
        terr: !matches!(outcome, 0 | 7),
        ..x
    }
}

#[tactic(auto, unfolding(model::specs::Mailboxes::ended))]
pub fn ended(t: Transmit, m: Mailbox, outcome: u8, nart: bool) -> Transmit
    ensures { result ≡ mailboxes.ended t m outcome nart }
{
    let done = over(t.queue, m, outcome, nart);
    let x = outcome_flags(at(t.mailboxes, m), outcome, done);
    Transmit {
        mailboxes: put(t.mailboxes, m, x),
        queue: off_wire(t.queue, m, done),
    }
}
