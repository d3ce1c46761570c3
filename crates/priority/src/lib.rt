// Which request is first and which is last: by request order, or by the bits on the wire.
#![tactic(auto)]

ghost use Rattle.std.specs.Prelude.{◌≡◌};
ghost use Rattle.model.specs.Mailboxes as mailboxes;

use bits::bit;
use model::{ByMailbox, Mailbox, MailboxState, RequestOrder, Transmit};
use queue::{at, besides, newest, number, oldest};

pub mod tsr; // tsr.rt: TSR as it is read

// A number that orders identifier words as the bits on the wire do: the top 11, then standard data, standard remote,
// extended, then the low 18, then data before remote.
#[tactic(auto, unfolding(model::specs::Mailboxes::wire_key))]
fn wire_key(ti: u32) -> u32
    ensures { result ≡ mailboxes.wire_key ti }
{
    let base = (ti >> 21) % 2048 * 2097152;
    let rtr = (ti >> 1) % 2;
    if bit(2, ti) {
        base + 1048576 + (ti >> 3) % 262144 * 2 + rtr
    } else {
        base + rtr * 524288
    }
}

// One by one, see model::ByMailbox.
pub fn identifiers(b: ByMailbox<MailboxState>) -> ByMailbox<u32>
    ensures { result ≡ mailboxes.identifiers b }
{
    ByMailbox {
        m0: b.m0.ti,
        m1: b.m1.ti,
        m2: b.m2.ti,
    }
}

// Equal bits: the lower mailbox. A wire key has 32 bits, so this has 34.
#[tactic(auto, unfolding(model::specs::Mailboxes::key))]
fn key(i: ByMailbox<u32>, m: Mailbox) -> u64
    ensures { result ≡ mailboxes.key i m }
{
    u64::from(wire_key(at(i, m))) * 4 + u64::from(number(m))
}

#[tactic(auto, unfolding(model::specs::Mailboxes::before))]
fn before(i: ByMailbox<u32>, a: Mailbox, b: Mailbox) -> bool
    ensures { result ≡ mailboxes.before i a b }
{
    key(i, a) < key(i, b)
}

#[tactic(auto, unfolding(model::specs::Mailboxes::sooner))]
fn sooner(i: ByMailbox<u32>, a: Mailbox, b: Mailbox) -> Mailbox
    ensures { result ≡ mailboxes.sooner i a b }
{
    if before(i, a, b) { a } else { b }
}

#[tactic(auto, unfolding(model::specs::Mailboxes::later))]
fn later(i: ByMailbox<u32>, a: Mailbox, b: Mailbox) -> Mailbox
    ensures { result ≡ mailboxes.later i a b }
{
    if before(i, a, b) { b } else { a }
}

// First and last are two functions each: over a closure that keeps one of two they would be no shorter.
#[tactic(auto, unfolding(model::specs::Mailboxes::first_in_wire_order))]
fn first_in_wire_order(i: ByMailbox<u32>, o: RequestOrder) -> Option<Mailbox>
    ensures { result ≡ mailboxes.first_in_wire_order i o }
{
    match o {
        RequestOrder::Empty => None,
        RequestOrder::One(a) => Some(a),
        RequestOrder::Two(a, b) => Some(sooner(i, a, b)),
        RequestOrder::Three(a, b, c) => Some(sooner(i, sooner(i, a, b), c)),
    }
}

#[tactic(auto, unfolding(model::specs::Mailboxes::last_in_wire_order))]
fn last_in_wire_order(i: ByMailbox<u32>, o: RequestOrder) -> Option<Mailbox>
    ensures { result ≡ mailboxes.last_in_wire_order i o }
{
    match o {
        RequestOrder::Empty => None,
        RequestOrder::One(a) => Some(a),
        RequestOrder::Two(a, b) => Some(later(i, a, b)),
        RequestOrder::Three(a, b, c) => Some(later(i, later(i, a, b), c)),
    }
}

// First in priority: request order if TXFP=1, else the bits on the wire.
#[tactic(auto, unfolding(model::specs::Mailboxes::first))]
pub fn first(txfp: bool, i: ByMailbox<u32>, o: RequestOrder) -> Option<Mailbox>
    ensures { result ≡ mailboxes.first txfp i o }
{
    if txfp {
        oldest(o)
    } else {
        first_in_wire_order(i, o)
    }
}

#[tactic(auto, unfolding(model::specs::Mailboxes::last))]
pub fn last(txfp: bool, i: ByMailbox<u32>, o: RequestOrder) -> Option<Mailbox>
    ensures { result ≡ mailboxes.last txfp i o }
{
    if txfp {
        newest(o)
    } else {
        last_in_wire_order(i, o)
    }
}

// The one on the wire stands first, so it is not the last where another waits.
pub fn last_of(txfp: bool, t: Transmit) -> Option<Mailbox>
    ensures { result ≡ mailboxes.last_of txfp t }
{
    let waiting = besides(t.queue.transmitting, t.queue.order);
    last(txfp, identifiers(t.mailboxes), waiting)
}
