// The requests of the three mailboxes: their order, the mailbox that is transmitting, the remembered aborts.
// Functions, since the types are those of model, which has none; a trait for them alone would be no plainer.
#![tactic(auto)]

ghost use Rattle.std.specs.Prelude.{◌≡◌};
ghost use Rattle.base.specs.Base as base;
ghost use Rattle.model.specs.Queue as queue;

use model::{ByMailbox, Mailbox, Queue, RequestOrder};

// ---- mailboxes and what is kept for each

// 32 bits, for sums and words; the block's byte is a cast of its own (block_save).
pub fn number(m: Mailbox) -> u32
    ensures { result ≡ queue.number m }
{
    m as u32
}

pub fn at<T: Copy>(b: ByMailbox<T>, m: Mailbox) -> T
    ensures { result ≡ queue.at b m }
{
    match m {
        Mailbox::M0 => b.m0,
        Mailbox::M1 => b.m1,
        Mailbox::M2 => b.m2,
    }
}

pub fn put<T: Copy>(b: ByMailbox<T>, m: Mailbox, x: T) -> ByMailbox<T>
    ensures { result ≡ queue.put b m x }
{
    match m {
        Mailbox::M0 => ByMailbox { m0: x, ..b },
        Mailbox::M1 => ByMailbox { m1: x, ..b },
        Mailbox::M2 => ByMailbox { m2: x, ..b },
    }
}

// ---- the order of requests

// The mailbox has a request: it is not empty.
pub fn holds(o: RequestOrder, m: Mailbox) -> bool
    ensures { result ≡ queue.holds o m }
{
    match o {
        RequestOrder::Empty => false,
        RequestOrder::One(a) => a == m,
        RequestOrder::Two(a, b) => a == m || b == m,
        RequestOrder::Three(a, b, c) => a == m || b == m || c == m,
    }
}

// A new request is the last one.
fn joined(o: RequestOrder, m: Mailbox) -> RequestOrder
    ensures { result ≡ queue.joined o m }
{
    match o {
        RequestOrder::Empty => RequestOrder::One(m),
        RequestOrder::One(a) => RequestOrder::Two(a, m),
        RequestOrder::Two(a, b) => RequestOrder::Three(a, b, m),
        RequestOrder::Three(a, b, c) => RequestOrder::Three(a, b, c),
    }
}

fn without(o: RequestOrder, m: Mailbox) -> RequestOrder
    ensures { result ≡ queue.without o m }
{
    match o {
        RequestOrder::One(a) if a == m => RequestOrder::Empty,
        RequestOrder::Two(a, b) if a == m => RequestOrder::One(b),
        RequestOrder::Two(a, b) if b == m => RequestOrder::One(a),
        RequestOrder::Three(a, b, c) if a == m => RequestOrder::Two(b, c),
        RequestOrder::Three(a, b, c) if b == m => RequestOrder::Two(a, c),
        RequestOrder::Three(a, b, c) if c == m => RequestOrder::Two(a, b),
        _ => o,
    }
}

// Oldest and newest are a match each: every case has another place of the order.
pub fn oldest(o: RequestOrder) -> Option<Mailbox>
    ensures { result ≡ queue.oldest o }
{
    match o {
        RequestOrder::Empty => None,
        RequestOrder::One(a) | RequestOrder::Two(a, _) | RequestOrder::Three(a, _, _) => Some(a),
    }
}

pub fn newest(o: RequestOrder) -> Option<Mailbox>
    ensures { result ≡ queue.newest o }
{
    match o {
        RequestOrder::Empty => None,
        RequestOrder::One(a) | RequestOrder::Two(_, a) | RequestOrder::Three(_, _, a) => Some(a),
    }
}

pub fn is_empty(o: RequestOrder) -> bool
    ensures { result ≡ queue.is_empty o }
{
    matches!(o, RequestOrder::Empty)
}

// Two or more mailboxes are not empty.
pub fn two_or_more(o: RequestOrder) -> bool
    ensures { result ≡ queue.two_or_more o }
{
    matches!(o, RequestOrder::Two(..) | RequestOrder::Three(..))
}

// ---- the mailbox that is transmitting

// The number of a mailbox; 0 where there is none.
// 0 for none, as CODE and the word of a start have it; the block has 3.
pub fn sender_number(s: Option<Mailbox>) -> u32
    ensures { result ≡ queue.sender_number s }
{
    s.map_or(0, number)
}

// The order without the mailbox that is transmitting.
pub fn besides(s: Option<Mailbox>, o: RequestOrder) -> RequestOrder
    ensures { result ≡ queue.besides s o }
{
    match s {
        None => o,
        Some(m) => without(o, m),
    }
}

// ---- what happens to requests

// One by one, see model::ByMailbox.
pub fn no_requests() -> Queue
    ensures { result ≡ queue.no_requests }
{
    Queue {
        order: RequestOrder::Empty,
        transmitting: None,
        aborts: ByMailbox {
            m0: false,
            m1: false,
            m2: false,
        },
    }
}

fn requested(q: Queue, m: Mailbox) -> Queue
    ensures { result ≡ queue.requested q m }
{
    Queue {
        order: joined(q.order, m),
        ..q
    }
}

// A TI write asks for transmission only with TXRQ.
pub fn requested_if(b: bool, q: Queue, m: Mailbox) -> Queue
    ensures { result ≡ base.pick b (queue.requested q m) q }
{
    if b { requested(q, m) } else { q }
}

// The mailbox becomes empty, which clears ABRQ.
fn emptied(q: Queue, m: Mailbox) -> Queue
    ensures { result ≡ queue.emptied q m }
{
    Queue {
        order: without(q.order, m),
        aborts: put(q.aborts, m, false),
        ..q
    }
}

fn remembered(q: Queue, m: Mailbox) -> Queue
    ensures { result ≡ queue.remembered q m }
{
    Queue {
        aborts: put(q.aborts, m, true),
        ..q
    }
}

// ABRQ: a pending mailbox empties, one on the wire remembers it, an empty one ignores it.
#[tactic(auto, using(model::proofs::Compared::equal_is_from), unfolding(model::specs::Queue::aborted))]
fn aborted(b: bool, q: Queue, m: Mailbox) -> Queue
    ensures { result ≡ queue.aborted b q m }
{
    if !(b && holds(q.order, m)) {
        q
    } else if q.transmitting == Some(m) {
        remembered(q, m)
    } else {
        emptied(q, m)
    }
}

// One behind the other: each abort is of the queue that the one before left.
#[tactic(auto, unfolding(model::specs::Queue::aborted_all))]
pub fn aborted_all(q: Queue, f: ByMailbox<bool>) -> Queue
    ensures { result ≡ queue.aborted_all q f }
{
    let after_m0 = aborted(f.m0, q, Mailbox::M0);
    let after_m1 = aborted(f.m1, after_m0, Mailbox::M1);
    aborted(f.m2, after_m1, Mailbox::M2)
}

pub fn sending(q: Queue, m: Mailbox) -> Queue
    ensures { result ≡ queue.sending q m }
{
    Queue {
        transmitting: Some(m),
        ..q
    }
}

fn freed(q: Queue) -> Queue
    ensures { result ≡ queue.freed q }
{
    Queue {
        transmitting: None,
        ..q
    }
}

// A request that is not over is pending in its old place.
#[tactic(auto, unfolding(model::specs::Queue::off_wire))]
pub fn off_wire(q: Queue, m: Mailbox, over: bool) -> Queue
    ensures { result ≡ queue.off_wire q m over }
{
    let f = freed(q);
    if over { emptied(f, m) } else { f }
}
