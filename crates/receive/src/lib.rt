// Frames and the two FIFOs of three.
// Each function is the definition of the same name in model's specs/Reception.antt.
#![tactic(auto)]

ghost use Rattle.std.specs.Prelude.{◌≡◌, ◌≤◌, ◌*◌, ◌-◌, ◌^◌};
ghost use Rattle.model.specs.Mailboxes as mailboxes;
ghost use Rattle.model.specs.Reception as reception;

use bits::bit;
use model::{Fifo, FifoState, FilterNumber, Frame, MailboxState, StoredFrame};

// ---- frames

#[tactic(auto, unfolding(model::specs::Reception::malformed))]
pub fn malformed(x: Frame) -> bool
    ensures { result ≡ reception.malformed x }
{
    let extended = x.identifier / 8 % 0x40000;
    bit(0, x.identifier) | (!bit(2, x.identifier) & (extended != 0)) | (15 < x.length)
}

#[tactic(auto, unfolding(model::specs::Reception::data_bytes))]
pub fn data_bytes(x: Frame) -> u8
    ensures { result ≡ reception.data_bytes x }
{
    if bit(1, x.identifier) {
        0
    } else {
        x.length.min(8)
    }
}

// The 64 bits of eight bytes with the first n of them as 1: no branch on a length that changes from frame to frame.
fn bytes_mask(n: u8) -> u64
    requires { n ≤ 8 }
    ensures { result ≡ 2 ^ (8 * n) - 1 }
{
    if n == 8 {
        return u64::MAX;
    }
    let width = 8 * (n as u64);
    (1 << width) - 1
}

pub fn stored_frame(x: Frame, fmi: FilterNumber, time: u16) -> StoredFrame
    ensures { result ≡ reception.stored_frame x fmi time }
{
    let mask = bytes_mask(data_bytes(x));
    let low = mask % 0x100000000;
    let high = mask >> 32;
    StoredFrame {
        ri: x.identifier,
        rdt: x.length as u32 + fmi.0 as u32 * 256 + time as u32 * 65536,
        rdl: x.low & (low as u32),
        rdh: x.high & (high as u32),
    }
}

#[tactic(auto, unfolding(model::specs::Mailboxes::sent_identifier))]
pub fn sent_identifier(ti: u32) -> u32
    ensures { result ≡ mailboxes.sent_identifier ti }
{
    if bit(2, ti) {
        ti
    } else {
        ti / 0x200000 * 0x200000 + ti / 2 % 2 * 2
    }
}

#[tactic(auto, unfolding(model::specs::Reception::sent_frame))]
pub fn sent_frame(x: MailboxState) -> Frame
    ensures { result ≡ reception.sent_frame x }
{
    Frame {
        identifier: sent_identifier(x.ti),
        low: x.tdl,
        high: x.tdh,
        length: (x.tdt % 16) as u8,
    }
}

// ---- the FIFO

pub fn no_frame() -> StoredFrame
    ensures { result ≡ reception.no_frame }
{
    StoredFrame {
        ri: 0,
        rdt: 0,
        rdl: 0,
        rdh: 0,
    }
}

pub fn empty_fifo() -> FifoState
    ensures { result ≡ reception.empty_fifo }
{
    let none = no_frame();
    FifoState {
        first: none,
        second: none,
        third: none,
        count: 0,
        full: false,
        fovr: false,
    }
}

// Field by field: copied whole, a frame stays a block in memory.
fn same_frame(x: StoredFrame) -> StoredFrame
    ensures { result ≡ x }
{
    StoredFrame {
        ri: x.ri,
        rdt: x.rdt,
        rdl: x.rdl,
        rdh: x.rdh,
    }
}

#[tactic(auto, unfolding(model::specs::Reception::pushed))]
pub fn pushed(q: FifoState, x: StoredFrame, rflm: bool) -> FifoState
    ensures { result ≡ reception.pushed q x rflm }
{
    let mut p = q;
    match q.count {
        0 => {
            p.first = same_frame(x);
            p.count = 1;
        }
        1 => {
            p.second = same_frame(x);
            p.count = 2;
        }
        2 => {
            p.third = same_frame(x);
            p.count = 3;
            p.full = true;
        }
        _ => {
            p.fovr = true;
            if !rflm {
                p.third = same_frame(x);
            }
        }
    }
    p
}

pub fn goes_into(f: Fifo, a: Option<(Fifo, FilterNumber)>) -> bool
    ensures { result ≡ reception.goes_into f a }
{
    matches!(a, Some((g, _)) if g == f)
}

pub fn fmi_of(a: Option<(Fifo, FilterNumber)>) -> FilterNumber
    ensures { result ≡ reception.fmi_of a }
{
    a.map_or(FilterNumber(0), |(_, x)| x)
}

#[tactic(auto, unfolding(model::specs::Reception::received))]
pub fn received(
    f: Fifo,
    a: Option<(Fifo, FilterNumber)>,
    x: StoredFrame,
    rflm: bool,
    q: FifoState,
) -> FifoState
    ensures { result ≡ reception.received f a x rflm q }
{
    if goes_into(f, a) {
        pushed(q, x, rflm)
    } else {
        q
    }
}

// FULL stays: only a write clears it.
#[tactic(auto, unfolding(model::specs::Reception::released))]
pub fn released(q: FifoState) -> FifoState
    ensures { result ≡ reception.released q }
{
    if q.count == 0 {
        return q;
    }
    FifoState {
        first: same_frame(q.second),
        second: same_frame(q.third),
        third: no_frame(),
        count: q.count - 1,
        ..q
    }
}

#[tactic(auto, unfolding(model::specs::Reception::cleared))]
pub fn cleared(q: FifoState, w: u32) -> FifoState
    ensures { result ≡ reception.cleared q w }
{
    FifoState {
        full: q.full & !bit(3, w),
        fovr: q.fovr & !bit(4, w),
        ..q
    }
}

#[tactic(auto, unfolding(model::specs::Reception::rfr_written))]
pub fn rfr_written(q: FifoState, w: u32) -> FifoState
    ensures { result ≡ reception.rfr_written q w }
{
    let p = cleared(q, w);
    if bit(5, w) { released(p) } else { p }
}

#[tactic(auto, using(base::proofs::Flags::from_bool_one, base::proofs::Flags::one_small), unfolding(model::specs::Reception::rfr_word))]
pub fn rfr_word(q: FifoState) -> u32
    ensures { result ≡ reception.rfr_word q }
{
    u32::from(q.count) + u32::from(q.full) * 8 + u32::from(q.fovr) * 16
}

#[tactic(auto, unfolding(model::specs::Reception::output))]
pub fn output(q: FifoState) -> StoredFrame
    ensures { result ≡ reception.output q }
{
    if q.count == 0 {
        no_frame()
    } else {
        same_frame(q.first)
    }
}
