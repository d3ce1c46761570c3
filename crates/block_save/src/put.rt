// Each part of the state to its field of the block.
ghost use Rattle.std.specs.Prelude.{◌≡◌, [], ◌∷◌, ◌+◌, ◌≤◌};
ghost use Rattle.std.proofs.lemmas.List.Edits.{sets};
ghost use Rattle.model.specs.Queue as queues;
ghost use Rattle.block.specs.Block as blocks;

use crate::numbers::{put, put_flags, put_words};
use block::Block;
use model::{
    Control, Errors, FifoState, Filters, Mailbox, MailboxState, Queue, RequestOrder, StoredFrame,
};

#[tactic(auto, unfolding(block::specs::Block::control_bytes, block::specs::Block::word_bytes))]
pub(crate) fn put_control(b: &mut Block, k: Control)
    ensures { b.new ≡ sets b.old 0 (blocks.control_bytes k) }
{
    put(b, 0, [0x40, 20, 0]);
    put_words(b, 3, [k.mcr, k.ier, k.btr]);
    put(b, 15, k.timer.to_le_bytes());
    put(b, 17, [control::mode_bits(k.mode), k.recovery]);
    put_flags(b, 19, [k.reinitialized, k.erri, k.wkui, k.slaki]);
}

#[tactic(auto, unfolding(block::specs::Block::errors_bytes))]
pub(crate) fn put_errors(b: &mut Block, e: Errors)
    ensures { b.new ≡ sets b.old 23 (blocks.errors_bytes e) }
{
    put(b, 23, [0x41, 4, 0]);
    put(b, 26, e.tec.to_le_bytes());
    put(b, 28, [e.rec, e.lec]);
}

pub(crate) fn put_mailbox(b: &mut Block, i: usize, tag: u8, x: MailboxState)
    requires { i + 23 ≤ blocks.block_length }
    ensures { b.new ≡ sets b.old i (blocks.mailbox_bytes tag x) }
{
    put(b, i, [tag, 20, 0]);
    put_words(b, i + 3, [x.ti, x.tdt, x.tdl, x.tdh]);
    put_flags(b, i + 19, [x.rqcp, x.txok, x.alst, x.terr]);
}

// ---- requests

// A byte of the block; `number` of queue gives 32 bits for sums, and each is one cast.
fn number(m: Mailbox) -> u8
    ensures { result ≡ queues.number m }
{
    m as u8
}

// 3 for none: the block's byte (docs/BLOCK.md), and not 0 as in CODE.
fn sender_byte(s: Option<Mailbox>) -> u8
    ensures { result ≡ blocks.sender_byte s }
{
    s.map_or(3, number)
}

// The mailboxes of the order, and 3 where there is none.
fn order_bytes(o: RequestOrder) -> [u8; 3]
    ensures { result ≡ blocks.order_bytes o }
{
    match o {
        RequestOrder::Empty => [3, 3, 3],
        RequestOrder::One(a) => [number(a), 3, 3],
        RequestOrder::Two(a, b) => [number(a), number(b), 3],
        RequestOrder::Three(a, b, c) => [number(a), number(b), number(c)],
    }
}

// The three flags as one array of the block: see model::ByMailbox.
#[tactic(auto, unfolding(block::specs::Block::queue_bytes))]
pub(crate) fn put_queue(b: &mut Block, q: Queue)
    ensures { b.new ≡ sets b.old 99 (blocks.queue_bytes q) }
{
    put(b, 99, [0x45, 7, 0]);
    put(b, 102, order_bytes(q.order));
    put(b, 105, [sender_byte(q.transmitting)]);
    put_flags(b, 106, [q.aborts.m0, q.aborts.m1, q.aborts.m2]);
}

// ---- reception

#[tactic(auto, unfolding(block::specs::Block::word_bytes))]
fn put_frame(b: &mut Block, i: usize, x: StoredFrame)
    requires { i + 16 ≤ blocks.block_length }
    ensures { b.new ≡ sets b.old i (blocks.frame_bytes x) }
{
    put_words(b, i, [x.ri, x.rdt, x.rdl, x.rdh]);
}

pub(crate) fn put_fifo(b: &mut Block, i: usize, tag: u8, q: FifoState)
    requires { i + 55 ≤ blocks.block_length }
    ensures { b.new ≡ sets b.old i (blocks.fifo_bytes tag q) }
{
    put(b, i, [tag, 52, 0]);
    put_frame(b, i + 3, q.first);
    put_frame(b, i + 19, q.second);
    put_frame(b, i + 35, q.third);
    put(b, i + 51, q.count.to_le_bytes());
    put_flags(b, i + 53, [q.full, q.fovr]);
}

// ---- filters

#[tactic(auto, unfolding(block::specs::Block::filters_bytes, block::specs::Block::word_bytes))]
pub(crate) fn put_filters(b: &mut Block, g: Filters)
    ensures { b.new ≡ sets b.old 219 (blocks.filters_bytes g) }
{
    put(b, 219, [0x48, 17, 0]);
    put_words(b, 222, [g.mode, g.scale, g.assignment, g.activation]);
    put_flags(b, 238, [g.finit]);
}

pub(crate) fn put_banks(b: &mut Block, v: [u32; 28])
    ensures { b.new ≡ sets b.old 239 (blocks.banks_bytes v) }
{
    put(b, 239, [0x49, 112, 0]);
    put_words(b, 242, v);
}
