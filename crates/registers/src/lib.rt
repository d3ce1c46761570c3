// The register map: which register an offset names.
#![tactic(auto)]

ghost use Rattle.std.specs.Prelude.{◌≡◌};
ghost use Rattle.model.specs.Registers as registers;

use model::{Bank, Fifo, Mailbox, Register};

#[tactic(auto, unfolding(model::specs::Registers::bank_register))]
fn bank_register(b: Bank, k: u16) -> Register
    ensures { result ≡ registers.bank_register b k }
{
    match k {
        0 => Register::R1(b),
        4 => Register::R2(b),
        _ => Register::Absent,
    }
}

// One match over all offsets but those of the banks: what follows by register is then one jump.
#[tactic(auto, unfolding(model::specs::Registers::register_at, model::specs::Registers::control_register, model::specs::Registers::block_register, model::specs::Registers::mailbox_register, model::specs::Registers::output_register, model::specs::Registers::filter_register))]
pub fn register_at(o: u16) -> Register
    ensures { result ≡ registers.register_at o }
{
    match o {
        0x000 => Register::Mcr,
        0x004 => Register::Msr,
        0x008 => Register::Tsr,
        0x00C => Register::Rfr(Fifo::F0),
        0x010 => Register::Rfr(Fifo::F1),
        0x014 => Register::Ier,
        0x018 => Register::Esr,
        0x01C => Register::Btr,
        0x180 => Register::Ti(Mailbox::M0),
        0x184 => Register::Tdt(Mailbox::M0),
        0x188 => Register::Tdl(Mailbox::M0),
        0x18C => Register::Tdh(Mailbox::M0),
        0x190 => Register::Ti(Mailbox::M1),
        0x194 => Register::Tdt(Mailbox::M1),
        0x198 => Register::Tdl(Mailbox::M1),
        0x19C => Register::Tdh(Mailbox::M1),
        0x1A0 => Register::Ti(Mailbox::M2),
        0x1A4 => Register::Tdt(Mailbox::M2),
        0x1A8 => Register::Tdl(Mailbox::M2),
        0x1AC => Register::Tdh(Mailbox::M2),
        0x1B0 => Register::Ri(Fifo::F0),
        0x1B4 => Register::Rdt(Fifo::F0),
        0x1B8 => Register::Rdl(Fifo::F0),
        0x1BC => Register::Rdh(Fifo::F0),
        0x1C0 => Register::Ri(Fifo::F1),
        0x1C4 => Register::Rdt(Fifo::F1),
        0x1C8 => Register::Rdl(Fifo::F1),
        0x1CC => Register::Rdh(Fifo::F1),
        0x200 => Register::Fmr,
        0x204 => Register::Fm1r,
        0x20C => Register::Fs1r,
        0x214 => Register::Ffa1r,
        0x21C => Register::Fa1r,
        0x240..0x2B0 => bank_register(Bank(((o - 0x240) / 8) as u32), o % 8),
        _ => Register::Absent,
    }
}
