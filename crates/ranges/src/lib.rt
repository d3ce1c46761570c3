// Whether a controller lies within the listed ranges.
#![tactic(auto)]

ghost use Rattle.std.specs.Prelude.{◌≡◌, ◌≤◌};
ghost use Rattle.model.specs.Reachable as reachable;
ghost use Rattle.model.specs.Queue as queues;
ghost use Rattle.ranges.specs.Ranges as ranges;

use bits::bit;
use model::{
    Control, Core, Errors, FifoState, Filters, Frame, Mailbox, MailboxState, Mode, Queue,
    RequestOrder, StoredFrame, Transmit,
};

// ---- requests

fn distinct(o: RequestOrder) -> bool
    ensures { result ≡ reachable.distinct o }
{
    match o {
        RequestOrder::Empty | RequestOrder::One(_) => true,
        RequestOrder::Two(a, b) => a != b,
        RequestOrder::Three(a, b, c) => a != b && a != c && b != c,
    }
}

fn carried(s: Option<Mailbox>, o: RequestOrder) -> bool
    ensures { result ≡ reachable.carried s o }
{
    s.is_none_or(|m| queue::holds(o, m))
}

fn is_from(s: Option<Mailbox>, m: Mailbox) -> bool
    ensures { result ≡ queues.is_from s m }
{
    s == Some(m)
}

// One by one, see model::ByMailbox.
#[tactic(auto, unfolding(crate::specs::Ranges::queue_ok))]
fn queue_ok(q: Queue) -> bool
    ensures { result ≡ ranges.queue_ok q }
{
    distinct(q.order)
        && carried(q.transmitting, q.order)
        && (!q.aborts.m0 || is_from(q.transmitting, Mailbox::M0))
        && (!q.aborts.m1 || is_from(q.transmitting, Mailbox::M1))
        && (!q.aborts.m2 || is_from(q.transmitting, Mailbox::M2))
}

// ---- mailboxes

fn at_most_one(a: bool, b: bool, c: bool) -> bool
    ensures { result ≡ ranges.at_most_one a b c }
{
    !(a && b) && !(a && c) && !(b && c)
}

// pending: the mailbox has a request.
#[tactic(auto, unfolding(crate::specs::Ranges::mailbox_ok))]
fn mailbox_ok(x: MailboxState, pending: bool) -> bool
    ensures { result ≡ ranges.mailbox_ok x pending }
{
    x.ti / 2 * 2 == x.ti
        && mailboxes::tdt_masked(x.tdt) == x.tdt
        && (!x.txok || x.rqcp)
        && at_most_one(x.txok, x.alst, x.terr)
        && (!pending || !x.rqcp)
}

// One by one, see model::ByMailbox.
#[tactic(auto, unfolding(crate::specs::Ranges::transmit_ok))]
fn transmit_ok(t: Transmit) -> bool
    ensures { result ≡ ranges.transmit_ok t }
{
    queue_ok(t.queue)
        && mailbox_ok(t.mailboxes.m0, queue::holds(t.queue.order, Mailbox::M0))
        && mailbox_ok(t.mailboxes.m1, queue::holds(t.queue.order, Mailbox::M1))
        && mailbox_ok(t.mailboxes.m2, queue::holds(t.queue.order, Mailbox::M2))
}

// ---- frames

fn frame_of(x: StoredFrame) -> Frame
    ensures { result ≡ reachable.frame_of x }
{
    Frame {
        identifier: x.ri,
        low: x.rdl,
        high: x.rdh,
        length: (x.rdt % 16) as u8,
    }
}

// Eight data bytes as one number: those behind the first n are 0.
#[tactic(auto, unfolding(crate::specs::Ranges::none_behind))]
fn none_behind(w: u64, n: u8) -> bool
    requires { n ≤ 8 }
    ensures { result ≡ ranges.none_behind w n }
{
    n == 8 || w >> (8 * n) == 0
}

#[tactic(auto, unfolding(crate::specs::Ranges::frame_ok))]
fn frame_ok(x: StoredFrame) -> bool
    ensures { result ≡ ranges.frame_ok x }
{
    !bit(0, x.ri)
        && (x.rdt >> 4) % 16 == 0
        && (x.rdt >> 8) % 256 <= 55
        && none_behind(
            u64::from(x.rdl) + u64::from(x.rdh) * 0x100000000,
            receive::data_bytes(frame_of(x)),
        )
        && (bit(2, x.ri) || (x.ri >> 3) % 262144 == 0)
}

#[tactic(auto, unfolding(crate::specs::Ranges::is_no_frame))]
fn is_no_frame(x: StoredFrame) -> bool
    ensures { result ≡ ranges.is_no_frame x }
{
    matches!(
        x,
        StoredFrame {
            ri: 0,
            rdt: 0,
            rdl: 0,
            rdh: 0
        }
    )
}

#[tactic(auto, unfolding(crate::specs::Ranges::place_ok))]
fn place_ok(held: bool, x: StoredFrame) -> bool
    ensures { result ≡ ranges.place_ok held x }
{
    if held { frame_ok(x) } else { is_no_frame(x) }
}

#[tactic(auto, unfolding(crate::specs::Ranges::fifo_ok))]
fn fifo_ok(q: FifoState) -> bool
    ensures { result ≡ ranges.fifo_ok q }
{
    q.count <= 3
        && place_ok(0 < q.count, q.first)
        && place_ok(1 < q.count, q.second)
        && place_ok(2 < q.count, q.third)
}

// ---- filters

// A bit for each bank and no other.
// The remainder is that of `written` in writes: a name for it would be longer than it.
fn bank_bits_ok(w: u32) -> bool
    ensures { result ≡ ranges.bank_bits_ok w }
{
    w % 16384 == w
}

#[tactic(auto, unfolding(crate::specs::Ranges::filters_ok))]
fn filters_ok(g: Filters) -> bool
    ensures { result ≡ ranges.filters_ok g }
{
    bank_bits_ok(g.mode)
        && bank_bits_ok(g.scale)
        && bank_bits_ok(g.assignment)
        && bank_bits_ok(g.activation)
}

// ---- control and errors

// A word that is written again stays as it is.
#[tactic(auto, unfolding(crate::specs::Ranges::control_ok, model::specs::Control::mcr_written, model::specs::Control::ier_written, model::specs::Control::btr_written))]
fn control_ok(k: Control) -> bool
    ensures { result ≡ ranges.control_ok k }
{
    control::mcr_written(k, k.mcr).mcr == k.mcr
        && control::ier_written(k, k.ier).ier == k.ier
        && control::btr_written(k, k.btr).btr == k.btr
        && (control::ttcm(k) || k.timer == 0)
        && k.recovery < 128
        && (!k.slaki || matches!(k.mode, Mode::Sleep))
}

#[tactic(auto, unfolding(crate::specs::Ranges::errors_ok))]
fn errors_ok(e: Errors) -> bool
    ensures { result ≡ ranges.errors_ok e }
{
    e.tec <= 263 && e.lec <= 7
}

#[tactic(auto, unfolding(crate::specs::Ranges::recovery_ok))]
fn recovery_ok(k: Control, off: bool) -> bool
    ensures { result ≡ ranges.recovery_ok k off }
{
    let initializing = matches!(k.mode, Mode::Initialization);
    (off || k.recovery == 0)
        && (off || !k.reinitialized)
        && (!initializing || k.recovery == 0)
        && (!initializing || !off || k.reinitialized)
}

// free: no own frame is on the wire.
#[tactic(auto, unfolding(crate::specs::Ranges::wire_ok))]
fn wire_ok(k: Control, free: bool, off: bool) -> bool
    ensures { result ≡ ranges.wire_ok k free off }
{
    (free || matches!(k.mode, Mode::Normal))
        && (free || !off)
        && (free || !(control::silm(k) && !control::lbkm(k)))
}

#[tactic(auto, using(crate::proofs::Modes::equal_bits), unfolding(crate::specs::Ranges::followed_ok))]
fn followed_ok(k: Control, free: bool) -> bool
    ensures { result ≡ ranges.followed_ok k free }
{
    !free || control::mode_next(k.mode, control::inrq(k), control::sleep(k)) == k.mode
}

// ---- the controller

#[tactic(auto, unfolding(crate::specs::Ranges::in_range))]
pub fn in_range(c: Core) -> bool
    ensures { result ≡ ranges.in_range c }
{
    let off = control::boff(c.errors);
    let free = c.transmit.queue.transmitting.is_none();
    control_ok(c.control)
        && errors_ok(c.errors)
        && recovery_ok(c.control, off)
        && wire_ok(c.control, free, off)
        && followed_ok(c.control, free)
        && transmit_ok(c.transmit)
        && fifo_ok(c.fifo0)
        && fifo_ok(c.fifo1)
        && filters_ok(c.filters)
}
