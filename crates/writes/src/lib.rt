// What an accepted write to a register does: to the core, and to the words of the filter banks.
#![tactic(auto)]

ghost use Rattle.std.specs.Prelude.{◌≡◌, ◌<◌};
ghost use Rattle.model.specs.Registers as map;
ghost use Rattle.writes.specs.Places as places;

use model::{Bank, Core, Fifo, Register};

// The 14 bits of the banks by a remainder, four times: a name for it would be longer than it.
#[tactic(auto, unfolding(model::specs::Registers::written, model::specs::Registers::core_reset))]
pub fn written(x: Register, c: Core, w: u32) -> Core
    ensures { result ≡ map.written x c w }
{
    let mut d = c;
    match x {
        Register::Mcr if bits::bit(15, w) => {
            d.control = control::master_reset(c.control);
            d.transmit = mailboxes::dropped(c.transmit);
            d.fifo0 = receive::empty_fifo();
            d.fifo1 = receive::empty_fifo();
        }
        Register::Mcr => d.control = control::mcr_written(c.control, w),
        Register::Msr => d.control = control::msr_written(c.control, w),
        Register::Tsr => d.transmit = mailboxes::tsr_written(c.transmit, w),
        Register::Rfr(Fifo::F0) => d.fifo0 = receive::rfr_written(c.fifo0, w),
        Register::Rfr(Fifo::F1) => d.fifo1 = receive::rfr_written(c.fifo1, w),
        Register::Ier => d.control = control::ier_written(c.control, w),
        Register::Esr => d.errors = control::esr_written(c.errors, w),
        Register::Btr => d.control = control::btr_written(c.control, w),
        Register::Ti(m) => d.transmit = mailboxes::requested_by(c.transmit, m, w),
        Register::Tdt(m) => {
            let x = mailboxes::tdt_written(queue::at(c.transmit.mailboxes, m), w);
            d.transmit = mailboxes::with_mailbox(c.transmit, m, x);
        }
        Register::Tdl(m) => {
            let x = mailboxes::tdl_written(queue::at(c.transmit.mailboxes, m), w);
            d.transmit = mailboxes::with_mailbox(c.transmit, m, x);
        }
        Register::Tdh(m) => {
            let x = mailboxes::tdh_written(queue::at(c.transmit.mailboxes, m), w);
            d.transmit = mailboxes::with_mailbox(c.transmit, m, x);
        }
        Register::Fmr => d.filters.finit = bits::bit(0, w),
        Register::Fm1r => d.filters.mode = w % 16384,
        Register::Fs1r => d.filters.scale = w % 16384,
        Register::Ffa1r => d.filters.assignment = w % 16384,
        Register::Fa1r => d.filters.activation = w % 16384,
        Register::Ri(_) | Register::Rdt(_) | Register::Rdl(_) | Register::Rdh(_) => {}
        Register::R1(_) | Register::R2(_) | Register::Absent => {}
    }
    d
}

// ---- the words of the banks

// What a step does to the words of the banks: nothing, one word stored at its place, or all of them cleared. Three things that it may
// do, and none a value that is missing: in an Option each match would only be longer.
#[derive(Clone, Copy)]
pub enum BankWrite {
    Nothing,
    Word(u32, u32),
    Clear,
}

impl BankWrite {
    pub fn is_nothing(self) -> bool
        ensures { result ≡ places.is_nothing self }
    {
        matches!(self, BankWrite::Nothing)
    }
}

// The word of a bank that a write stores, R1 (i = 0) or R2 (i = 1): this board has 14 banks.
#[tactic(auto, unfolding(crate::specs::Places::bank_word))]
fn bank_word(b: Bank, i: u32, w: u32) -> BankWrite
    requires { i < 2 }
    ensures { result ≡ places.bank_word b i w }
{
    if b.0 < 14 {
        BankWrite::Word(2 * b.0 + i, w)
    } else {
        BankWrite::Nothing
    }
}

#[tactic(auto, unfolding(crate::specs::Places::bank_write))]
pub fn bank_write(x: Register, w: u32) -> BankWrite
    ensures { result ≡ places.bank_write x w }
{
    match x {
        Register::R1(b) => bank_word(b, 0, w),
        Register::R2(b) => bank_word(b, 1, w),
        _ => BankWrite::Nothing,
    }
}

#[tactic(auto, using(std::proofs::lemmas::List::set_past), unfolding(crate::specs::Places::changed, model::specs::Registers::reset))]
pub fn banks_after(banks: [u32; 28], write: BankWrite) -> [u32; 28]
    ensures { result ≡ places.changed banks write }
{
    let mut v = banks;
    match write {
        BankWrite::Nothing => v,
        BankWrite::Word(place, w) => {
            if place < 28 {
                v[place as usize] = w;
            }
            v
        }
        BankWrite::Clear => [0; 28],
    }
}
