// The three transmit mailboxes: their words and flags, the register writes that change them, TI as it is read.
// Flags are joined by & and |, which take no branch.
#![tactic(auto)]

ghost use Rattle.std.specs.Prelude.{◌≡◌, ◌<◌};
ghost use Rattle.model.specs.Queue as queue;
ghost use Rattle.model.specs.Mailboxes as mailboxes;

use bits::bit;
use model::{ByMailbox, Mailbox, MailboxState, Queue, Transmit};
use queue::{aborted_all, holds, no_requests, requested_if};
pub use queue::{at, put};

pub mod wire; // wire.rt: a start and an outcome

pub fn empty_mailbox() -> MailboxState
    ensures { result ≡ mailboxes.empty_mailbox }
{
    MailboxState {
        ti: 0,
        tdt: 0,
        tdl: 0,
        tdh: 0,
        rqcp: false,
        txok: false,
        alst: false,
        terr: false,
    }
}

// ---- register writes

// TXRQ is not kept; where it is set, the flags clear.
#[tactic(auto, unfolding(model::specs::Mailboxes::ti_written))]
pub fn ti_written(x: MailboxState, w: u32) -> MailboxState
    ensures { result ≡ mailboxes.ti_written x w }
{
    let keep = !bit(0, w);
    MailboxState {
        ti: w / 2 * 2,
        rqcp: x.rqcp & keep,
        txok: x.txok & keep,
        alst: x.alst & keep,
        terr: x.terr & keep,
        ..x
    }
}

// The writable bits are 0xFFFF010F.
pub fn tdt_masked(w: u32) -> u32
    ensures { result ≡ mailboxes.tdt_masked w }
{
    (w >> 16) % 65536 * 65536 + (w >> 8) % 2 * 256 + w % 16
}

// This and the next two write another field each, and a field is no parameter; writes calls them by register.
#[tactic(auto, unfolding(model::specs::Mailboxes::tdt_written))]
pub fn tdt_written(x: MailboxState, w: u32) -> MailboxState
    ensures { result ≡ mailboxes.tdt_written x w }
{
    MailboxState {
        tdt: tdt_masked(w),
        ..x
    }
}

#[tactic(auto, unfolding(model::specs::Mailboxes::tdl_written))]
pub fn tdl_written(x: MailboxState, w: u32) -> MailboxState
    ensures { result ≡ mailboxes.tdl_written x w }
{
    MailboxState { tdl: w, ..x }
}

#[tactic(auto, unfolding(model::specs::Mailboxes::tdh_written))]
pub fn tdh_written(x: MailboxState, w: u32) -> MailboxState
    ensures { result ≡ mailboxes.tdh_written x w }
{
    MailboxState { tdh: w, ..x }
}

pub fn with_mailbox(t: Transmit, m: Mailbox, x: MailboxState) -> Transmit
    ensures { result ≡ mailboxes.with_mailbox t m x }
{
    Transmit {
        mailboxes: put(t.mailboxes, m, x),
        ..t
    }
}

// With TXRQ the request is accepted, last in request order.
#[tactic(auto, unfolding(model::specs::Mailboxes::requested_by))]
pub fn requested_by(t: Transmit, m: Mailbox, w: u32) -> Transmit
    ensures { result ≡ mailboxes.requested_by t m w }
{
    let x = ti_written(at(t.mailboxes, m), w);
    Transmit {
        mailboxes: put(t.mailboxes, m, x),
        queue: requested_if(bit(0, w), t.queue, m),
    }
}

// 1 in RQCP clears it with TXOK, ALST and TERR; 1 in one of those three clears it. A mailbox's byte begins at bit k.
#[tactic(auto, unfolding(model::specs::Mailboxes::cleared))]
fn cleared(x: MailboxState, k: u32, w: u32) -> MailboxState
    requires { k < 24 }
    ensures { result ≡ mailboxes.cleared x k w }
{
    let keep = !bit(k, w);
    let txok = x.txok & keep & !bit(k + 1, w);
    let alst = x.alst & keep & !bit(k + 2, w);
    let terr = x.terr & keep & !bit(k + 3, w);
    MailboxState {
        rqcp: x.rqcp & keep,
        txok,
        alst,
        terr,
        ..x
    }
}

// A pending request is aborted.
#[tactic(auto, unfolding(model::specs::Mailboxes::completed))]
fn completed(x: MailboxState, b: bool) -> MailboxState
    ensures { result ≡ mailboxes.completed x b }
{
    MailboxState {
        rqcp: x.rqcp | b,
        txok: x.txok & !b,
        ..x
    }
}

#[tactic(auto, using(model::proofs::Compared::equal_is_from))]
fn aborts_pending(q: Queue, m: Mailbox, b: bool) -> bool
    ensures { result ≡ mailboxes.aborts_pending q m b }
{
    b & holds(q.order, m) & (q.transmitting != Some(m))
}

// One by one: each bit has a place of its own.
fn abrq(w: u32) -> ByMailbox<bool>
    ensures { result ≡ mailboxes.abrq w }
{
    ByMailbox {
        m0: bit(7, w),
        m1: bit(15, w),
        m2: bit(23, w),
    }
}

// The clears, then the abort.
fn flags_written(x: MailboxState, k: u32, w: u32, b: bool) -> MailboxState
    requires { k < 24 }
    ensures { result ≡ mailboxes.completed (mailboxes.cleared x k w) b }
{
    completed(cleared(x, k, w), b)
}

// One by one: each has its byte of the word (see model::ByMailbox).
#[tactic(auto, unfolding(model::specs::Mailboxes::tsr_written))]
pub fn tsr_written(t: Transmit, w: u32) -> Transmit
    ensures { result ≡ mailboxes.tsr_written t w }
{
    let b = t.mailboxes;
    let q = t.queue;
    let f = abrq(w);
    let m0 = flags_written(b.m0, 0, w, aborts_pending(q, Mailbox::M0, f.m0));
    let m1 = flags_written(b.m1, 8, w, aborts_pending(q, Mailbox::M1, f.m1));
    let m2 = flags_written(b.m2, 16, w, aborts_pending(q, Mailbox::M2, f.m2));
    Transmit {
        mailboxes: ByMailbox { m0, m1, m2 },
        queue: aborted_all(q, f),
    }
}

// MCR with bit 15: requests and any frame on the wire are dropped.
pub fn dropped(t: Transmit) -> Transmit
    ensures { result ≡ mailboxes.dropped t }
{
    Transmit {
        queue: no_requests(),
        ..t
    }
}

// ---- TI as it is read

// TXRQ, bit 0, reads 1 while the mailbox is not empty.
#[tactic(auto, unfolding(model::specs::Mailboxes::ti_word))]
pub fn ti_word(t: Transmit, m: Mailbox) -> u32
    ensures { result ≡ mailboxes.ti_word t m }
{
    at(t.mailboxes, m).ti / 2 * 2 + u32::from(holds(t.queue.order, m))
}
