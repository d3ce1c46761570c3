// Each part of the state from its field of the block.
ghost use Rattle.std.specs.Prelude.{◌≡◌, ◌+◌, ◌≤◌, drop};
ghost use Rattle.model.specs.Queue as queues;
ghost use Rattle.block.specs.Block as blocks;

use crate::numbers::{flag_at, number16, number32};
use block::Block;
use model::{
    ByMailbox, Control, Errors, FifoState, Filters, Mailbox, MailboxState, Mode, Queue,
    RequestOrder, StoredFrame,
};

// A function and no TryFrom: form.rt has looked at the byte, and the definition gives a mode for every byte.
#[tactic(auto, unfolding(block::specs::Block::mode_at))]
fn mode_at(n: u8) -> Mode
    ensures { result ≡ blocks.mode_at n }
{
    match n {
        0 => Mode::Normal,
        1 => Mode::Initialization,
        _ => Mode::Sleep,
    }
}

#[tactic(auto, unfolding(block::specs::Block::control_at))]
pub(crate) fn control_at(b: &Block) -> Control
    ensures { result ≡ blocks.control_at b.now }
{
    Control {
        mcr: number32(b, 3),
        ier: number32(b, 7),
        btr: number32(b, 11),
        timer: number16(b, 15),
        mode: mode_at(b[17]),
        recovery: b[18],
        reinitialized: flag_at(b, 19),
        erri: flag_at(b, 20),
        wkui: flag_at(b, 21),
        slaki: flag_at(b, 22),
    }
}

#[tactic(auto, unfolding(block::specs::Block::errors_at))]
pub(crate) fn errors_at(b: &Block) -> Errors
    ensures { result ≡ blocks.errors_at b.now }
{
    Errors {
        tec: number16(b, 26),
        rec: b[28],
        lec: b[29],
    }
}

#[tactic(auto, unfolding(block::specs::Block::mailbox_at))]
pub(crate) fn mailbox_at(b: &Block, i: usize) -> MailboxState
    requires { i + 23 ≤ blocks.block_length }
    ensures { result ≡ blocks.mailbox_at b.now i }
{
    MailboxState {
        ti: number32(b, i + 3),
        tdt: number32(b, i + 7),
        tdl: number32(b, i + 11),
        tdh: number32(b, i + 15),
        rqcp: flag_at(b, i + 19),
        txok: flag_at(b, i + 20),
        alst: flag_at(b, i + 21),
        terr: flag_at(b, i + 22),
    }
}

// ---- requests

// Of every byte, as the definition: form.rt has looked at it, here and below.
fn numbered(n: u8) -> Mailbox
    ensures { result ≡ queues.numbered n }
{
    match n {
        0 => Mailbox::M0,
        1 => Mailbox::M1,
        _ => Mailbox::M2,
    }
}

// 3 is the block's byte for none (docs/BLOCK.md).
#[tactic(auto, unfolding(block::specs::Block::sender_at))]
fn sender_at(n: u8) -> Option<Mailbox>
    ensures { result ≡ blocks.sender_at n }
{
    match n {
        3 => None,
        _ => Some(numbered(n)),
    }
}

#[tactic(auto, unfolding(block::specs::Block::order_at))]
fn order_at(a: u8, b: u8, c: u8) -> RequestOrder
    ensures { result ≡ blocks.order_at a b c }
{
    match (a, b, c) {
        (3, _, _) => RequestOrder::Empty,
        (_, 3, _) => RequestOrder::One(numbered(a)),
        (_, _, 3) => RequestOrder::Two(numbered(a), numbered(b)),
        _ => RequestOrder::Three(numbered(a), numbered(b), numbered(c)),
    }
}

// The three flags one by one: see model::ByMailbox.
#[tactic(auto, unfolding(block::specs::Block::queue_at))]
pub(crate) fn queue_at(b: &Block) -> Queue
    ensures { result ≡ blocks.queue_at b.now }
{
    Queue {
        order: order_at(b[102], b[103], b[104]),
        transmitting: sender_at(b[105]),
        aborts: ByMailbox {
            m0: flag_at(b, 106),
            m1: flag_at(b, 107),
            m2: flag_at(b, 108),
        },
    }
}

// ---- reception

#[tactic(auto, unfolding(block::specs::Block::frame_at))]
fn frame_at(b: &Block, i: usize) -> StoredFrame
    requires { i + 16 ≤ blocks.block_length }
    ensures { result ≡ blocks.frame_at b.now i }
{
    StoredFrame {
        ri: number32(b, i),
        rdt: number32(b, i + 4),
        rdl: number32(b, i + 8),
        rdh: number32(b, i + 12),
    }
}

#[tactic(auto, unfolding(block::specs::Block::fifo_at))]
pub(crate) fn fifo_at(b: &Block, i: usize) -> FifoState
    requires { i + 55 ≤ blocks.block_length }
    ensures { result ≡ blocks.fifo_at b.now i }
{
    FifoState {
        first: frame_at(b, i + 3),
        second: frame_at(b, i + 19),
        third: frame_at(b, i + 35),
        count: number16(b, i + 51),
        full: flag_at(b, i + 53),
        fovr: flag_at(b, i + 54),
    }
}

// ---- filters

#[tactic(auto, unfolding(block::specs::Block::filters_at))]
pub(crate) fn filters_at(b: &Block) -> Filters
    ensures { result ≡ blocks.filters_at b.now }
{
    Filters {
        mode: number32(b, 222),
        scale: number32(b, 226),
        assignment: number32(b, 230),
        activation: number32(b, 234),
        finit: flag_at(b, 238),
    }
}

pub(crate) fn banks_at(b: &Block) -> [u32; 28]
    ensures { result ≡ blocks.words_of 28 (drop 242 b.now) }
{
    let mut v = [0; 28];
    for (j, w) in v.iter_mut().enumerate() {
        *w = number32(b, 242 + 4 * j);
    }
    v
}
