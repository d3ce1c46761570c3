// TSR as it is read. It is put together of parts that look at the order of requests and at the last
// in priority, so that the last is worked out once.
ghost use Rattle.std.specs.Prelude.{◌≡◌, ◌<◌, ◌^◌, ◌%◌};
ghost use Rattle.model.specs.Mailboxes as mailboxes;
ghost use Rattle.priority.specs.Status as status;

use super::last_of;
use model::{ByMailbox, Mailbox, MailboxState, RequestOrder, Transmit};
use queue::{holds, sender_number, two_or_more};

// One by one: each has a weight of its own.
#[tactic(auto, unfolding(crate::specs::Status::as_number))]
fn as_number(f: ByMailbox<bool>) -> u32
    ensures { (result ≡ status.as_number f) × (result < 8) }
{
    u32::from(f.m0) + u32::from(f.m1) * 2 + u32::from(f.m2) * 4
}

// TME: the mailbox is empty.
// One by one, here and below: see model::ByMailbox. What is asked of a mailbox is another thing in each.
#[tactic(auto, unfolding(crate::specs::Status::tme_bits))]
fn tme_bits(o: RequestOrder) -> ByMailbox<bool>
    ensures { result ≡ status.tme_bits o }
{
    ByMailbox {
        m0: !holds(o, Mailbox::M0),
        m1: !holds(o, Mailbox::M1),
        m2: !holds(o, Mailbox::M2),
    }
}

// LOW: with two or more not empty, the lowest in priority.
// One by one, as `tme_bits`.
#[tactic(auto, using(model::proofs::Compared::equal_is_from), unfolding(crate::specs::Status::low_bits))]
fn low_bits(o: RequestOrder, last: Option<Mailbox>) -> ByMailbox<bool>
    ensures { result ≡ status.low_bits o last }
{
    let several = two_or_more(o);
    ByMailbox {
        m0: several && last == Some(Mailbox::M0),
        m1: several && last == Some(Mailbox::M1),
        m2: several && last == Some(Mailbox::M2),
    }
}

// CODE: the lowest empty mailbox, else the lowest in priority.
#[tactic(auto, unfolding(crate::specs::Status::code_of))]
fn code_of(tme: ByMailbox<bool>, last: Option<Mailbox>) -> u32
    ensures { (result ≡ status.code_of tme last) × (result < 4) }
{
    match tme {
        ByMailbox { m0: true, .. } => 0,
        ByMailbox { m1: true, .. } => 1,
        ByMailbox { m2: true, .. } => 2,
        _ => sender_number(last),
    }
}

#[tactic(auto, using(base::proofs::Flags::from_bool_one, base::proofs::Flags::one_small), unfolding(model::specs::Mailboxes::tsr_byte))]
fn tsr_byte(x: MailboxState, abort: bool) -> u32
    ensures { (result ≡ mailboxes.tsr_byte x abort) × (result < 256) }
{
    u32::from(x.rqcp)
        + u32::from(x.txok) * 2
        + u32::from(x.alst) * 4
        + u32::from(x.terr) * 8
        + u32::from(abort) * 128
}

// One by one: each has a byte of its own.
#[tactic(auto, unfolding(crate::specs::Status::flag_bytes))]
fn flag_bytes(b: ByMailbox<MailboxState>, f: ByMailbox<bool>) -> u32
    ensures { (result ≡ status.flag_bytes b f) × (result < 2 ^ 24) }
{
    tsr_byte(b.m0, f.m0) + tsr_byte(b.m1, f.m1) * 256 + tsr_byte(b.m2, f.m2) * 65536
}

#[tactic(auto, using(crate::proofs::StatusParts::tsr_parts))]
pub fn tsr(txfp: bool, t: Transmit) -> u32
    ensures { result ≡ mailboxes.tsr txfp t }
{
    let q = t.queue;
    let last = last_of(txfp, t);
    let tme = tme_bits(q.order);
    flag_bytes(t.mailboxes, q.aborts)
        + code_of(tme, last) * 0x1000000
        + as_number(tme) * 0x4000000
        + as_number(low_bits(q.order, last)) * 0x20000000
}
