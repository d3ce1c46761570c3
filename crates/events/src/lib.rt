// What each bus event does to the controller, before the mode rule: the clauses of the definition `applied` in the model.
#![tactic(auto)]

ghost use Rattle.std.specs.Prelude.{◌≡◌, [], ◌/◌};
ghost use Rattle.model.specs.Reception as reception;
ghost use Rattle.model.specs.Registers as map;
ghost use Rattle.model.specs.Search as search;
ghost use Rattle.model.specs.Step as stepping;
ghost use Rattle.model.specs.declared.Step.TheVariants as steps;

use model::{Core, Fifo, FilterNumber, Filters, Frame, Mailbox, MailboxState, StoredFrame};

// ---- idle, bit times, activity, receive errors

#[tactic(auto, unfolding(model::specs::Step::applied))]
pub fn idle(c: Core) -> Core
    ensures { result ≡ stepping.applied c [] steps.Idle }
{
    Core {
        control: control::idled(c.control, c.errors),
        errors: control::idle_errors(c.control, c.errors),
        ..c
    }
}

#[tactic(auto, unfolding(model::specs::Step::applied))]
pub fn bit_times(c: Core, n: u16) -> Core
    ensures { result ≡ stepping.applied c [] (steps.BitTimes n) }
{
    Core {
        control: control::ticked(c.control, n),
        ..c
    }
}

#[tactic(auto, unfolding(model::specs::Step::applied))]
pub fn activity(c: Core) -> Core
    ensures { result ≡ stepping.applied c [] steps.Activity }
{
    Core {
        control: control::woken(c.control),
        ..c
    }
}

#[tactic(auto, unfolding(model::specs::Step::applied))]
pub fn receive_error(c: Core, code: u8, by: u8) -> Core
    ensures { result ≡ stepping.applied c [] (steps.ReceiveError code by) }
{
    let errors = control::receive_error_counters(c.errors, code, by);
    Core {
        control: control::errors_changed(c.control, c.errors, errors, true),
        errors,
        ..c
    }
}

// ---- a start

// The first in priority goes on the wire.
#[tactic(auto, unfolding(model::specs::Step::applied, model::specs::Step::started_by))]
pub fn start(c: Core) -> Core
    ensures { result ≡ stepping.applied c [] steps.Start }
{
    let t = c.transmit;
    let i = priority::identifiers(t.mailboxes);
    match priority::first(control::txfp(c.control), i, t.queue.order) {
        None => c,
        Some(m) => Core {
            transmit: mailboxes::wire::started(t, m, c.control.timer),
            ..c
        },
    }
}

// ---- a frame received

// Where the filters say that a frame with this identifier goes.
fn accepted(g: Filters, banks: &[u32; 28], identifier: u32) -> Option<(Fifo, FilterNumber)>
    ensures { result ≡ search.acceptance map.bank_count g banks.now identifier }
{
    filter::accepted_by(filter::winner(
        g.mode,
        g.scale,
        g.assignment,
        g.activation,
        banks,
        identifier,
    ))
}

#[tactic(auto, unfolding(model::specs::Step::applied, model::specs::Step::stored_by))]
pub fn frame_received(c: Core, banks: &[u32; 28], x: Frame) -> Core
    ensures { result ≡ stepping.applied c banks.now (steps.Receive x) }
{
    let a = accepted(c.filters, banks, x.identifier);
    let y = receive::stored_frame(x, receive::fmi_of(a), c.control.timer);
    let locked = control::rflm(c.control);
    Core {
        errors: control::received_errors(c.errors),
        fifo0: receive::received(Fifo::F0, a, y, locked, c.fifo0),
        fifo1: receive::received(Fifo::F1, a, y, locked, c.fifo1),
        ..c
    }
}

// ---- the end of the frame on the wire

// Loopback: where the good frame of a mailbox goes.
#[tactic(auto, unfolding(model::specs::Step::looped_back))]
fn looped_back(c: Core, banks: &[u32; 28], m: Mailbox, r: u8) -> Option<(Fifo, FilterNumber)>
    ensures { result ≡ stepping.looped_back c banks.now m r }
{
    if r == 0 && control::lbkm(c.control) && !c.filters.finit {
        let x = receive::sent_frame(queue::at(c.transmit.mailboxes, m));
        return accepted(c.filters, banks, x.identifier);
    }
    None
}

// The frame of a mailbox as it is stored, with the mailbox's TIME.
fn looped_frame(x: MailboxState, a: Option<(Fifo, FilterNumber)>) -> StoredFrame
    ensures { result ≡ reception.stored_frame (reception.sent_frame x) (reception.fmi_of a) (x.tdt / 65536) }
{
    let time = (x.tdt / 65536) as u16;
    receive::stored_frame(receive::sent_frame(x), receive::fmi_of(a), time)
}

#[tactic(auto, unfolding(model::specs::Step::applied, model::specs::Step::ended_by, model::specs::Step::stored_by))]
pub fn outcome(c: Core, banks: &[u32; 28], res: u8) -> Core
    ensures { result ≡ stepping.applied c banks.now (steps.Outcome res) }
{
    let Some(m) = c.transmit.queue.transmitting else {
        return c;
    };
    let k = c.control;
    let a = looped_back(c, banks, m, res);
    let y = looped_frame(queue::at(c.transmit.mailboxes, m), a);
    let locked = control::rflm(k);
    let errors = control::outcome_errors(c.errors, res);
    Core {
        control: control::errors_changed(k, c.errors, errors, !matches!(res, 0 | 7)),
        errors,
        transmit: mailboxes::wire::ended(c.transmit, m, res, control::nart(k)),
        fifo0: receive::received(Fifo::F0, a, y, locked, c.fifo0),
        fifo1: receive::received(Fifo::F1, a, y, locked, c.fifo1),
        ..c
    }
}
