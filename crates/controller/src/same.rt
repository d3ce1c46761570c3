// The same core, field by field. Copied whole, small neighbouring fields are one integer to the compiler, which every step then packs and takes
// apart.
ghost use Rattle.std.specs.Prelude.{◌≡◌};

use model::{ByMailbox, Core, FifoState, Filters, MailboxState, Queue, StoredFrame, Transmit};

fn frame(x: StoredFrame) -> StoredFrame
    ensures { result ≡ x }
{
    StoredFrame {
        ri: x.ri,
        rdt: x.rdt,
        rdl: x.rdl,
        rdh: x.rdh,
    }
}

fn fifo(q: FifoState) -> FifoState
    ensures { result ≡ q }
{
    FifoState {
        first: frame(q.first),
        second: frame(q.second),
        third: frame(q.third),
        count: q.count,
        full: q.full,
        fovr: q.fovr,
    }
}

fn mailbox(x: MailboxState) -> MailboxState
    ensures { result ≡ x }
{
    MailboxState {
        ti: x.ti,
        tdt: x.tdt,
        tdl: x.tdl,
        tdh: x.tdh,
        rqcp: x.rqcp,
        txok: x.txok,
        alst: x.alst,
        terr: x.terr,
    }
}

fn bits(f: ByMailbox<bool>) -> ByMailbox<bool>
    ensures { result ≡ f }
{
    ByMailbox {
        m0: f.m0,
        m1: f.m1,
        m2: f.m2,
    }
}

fn queue(q: Queue) -> Queue
    ensures { result ≡ q }
{
    let o = q.order;
    let s = q.transmitting;
    Queue {
        order: o,
        transmitting: s,
        aborts: bits(q.aborts),
    }
}

fn transmit(t: Transmit) -> Transmit
    ensures { result ≡ t }
{
    let b = t.mailboxes;
    Transmit {
        mailboxes: ByMailbox {
            m0: mailbox(b.m0),
            m1: mailbox(b.m1),
            m2: mailbox(b.m2),
        },
        queue: queue(t.queue),
    }
}

fn filters(g: Filters) -> Filters
    ensures { result ≡ g }
{
    Filters {
        mode: g.mode,
        scale: g.scale,
        assignment: g.assignment,
        activation: g.activation,
        finit: g.finit,
    }
}

pub(crate) fn core(c: Core) -> Core
    ensures { result ≡ c }
{
    Core {
        control: control::same_control(c.control),
        errors: control::same_errors(c.errors),
        transmit: transmit(c.transmit),
        fifo0: fifo(c.fifo0),
        fifo1: fifo(c.fifo1),
        filters: filters(c.filters),
    }
}
