// What a step shows of a controller: the word of a register or of a start, and the interrupt lines.
#![tactic(auto)]

ghost use Rattle.std.specs.Prelude.{◌≡◌, [], ◌+◌, ◌*◌, not, eqb};
ghost use Rattle.base.specs.Base as base;
ghost use Rattle.model.specs.Step as stepping;
ghost use Rattle.model.specs.declared.Step.TheVariants as steps;
ghost use Rattle.reads.specs.Shown as reading;

use model::{Core, FifoState, Mailbox, Refusal, Transmit};

// ---- a read

// At an offset of the banks' words or of no register.
#[tactic(auto, unfolding(crate::specs::Shown::bank_read))]
fn bank_read(o: u16, banks: [u32; 28]) -> Result<u32, Refusal>
    ensures { result ≡ reading.bank_read o banks }
{
    if !(0x240..0x2B0).contains(&o) || o % 4 != 0 {
        return Err(Refusal::NotMapped);
    }
    Ok(banks[((o - 0x240) / 4) as usize])
}

// The word of a read, by the offset and not by the register, so that it is one jump.
#[tactic(auto, unfolding(crate::specs::Shown::read_at, model::specs::Registers::register_at, model::specs::Registers::control_register, model::specs::Registers::block_register, model::specs::Registers::mailbox_register, model::specs::Registers::output_register, model::specs::Registers::filter_register, model::specs::Registers::read_word))]
pub fn read_at(o: u16, c: Core, banks: [u32; 28]) -> Result<u32, Refusal>
    ensures { result ≡ reading.read_at o c banks }
{
    let word = match o {
        0x000 => c.control.mcr,
        0x004 => control::msr_word(c.control, c.transmit.queue.transmitting.is_none()),
        0x008 => priority::tsr::tsr(control::txfp(c.control), c.transmit),
        0x00C => receive::rfr_word(c.fifo0),
        0x010 => receive::rfr_word(c.fifo1),
        0x014 => c.control.ier,
        0x018 => control::esr_word(c.errors),
        0x01C => c.control.btr,
        0x180 => mailboxes::ti_word(c.transmit, Mailbox::M0),
        0x184 => c.transmit.mailboxes.m0.tdt,
        0x188 => c.transmit.mailboxes.m0.tdl,
        0x18C => c.transmit.mailboxes.m0.tdh,
        0x190 => mailboxes::ti_word(c.transmit, Mailbox::M1),
        0x194 => c.transmit.mailboxes.m1.tdt,
        0x198 => c.transmit.mailboxes.m1.tdl,
        0x19C => c.transmit.mailboxes.m1.tdh,
        0x1A0 => mailboxes::ti_word(c.transmit, Mailbox::M2),
        0x1A4 => c.transmit.mailboxes.m2.tdt,
        0x1A8 => c.transmit.mailboxes.m2.tdl,
        0x1AC => c.transmit.mailboxes.m2.tdh,
        0x1B0 => receive::output(c.fifo0).ri,
        0x1B4 => receive::output(c.fifo0).rdt,
        0x1B8 => receive::output(c.fifo0).rdl,
        0x1BC => receive::output(c.fifo0).rdh,
        0x1C0 => receive::output(c.fifo1).ri,
        0x1C4 => receive::output(c.fifo1).rdt,
        0x1C8 => receive::output(c.fifo1).rdl,
        0x1CC => receive::output(c.fifo1).rdh,
        0x200 => 0x2A1C0E00 + u32::from(c.filters.finit),
        0x204 => c.filters.mode,
        0x20C => c.filters.scale,
        0x214 => c.filters.assignment,
        0x21C => c.filters.activation,
        _ => return bank_read(o, banks),
    };
    Ok(word)
}

// ---- a start

// The number of the mailbox that goes on the wire.
#[tactic(auto, unfolding(model::specs::Step::word_of))]
pub fn start_word(c: Core) -> u32
    ensures { result ≡ stepping.word_of c [] steps.Start }
{
    let t = c.transmit;
    let i = priority::identifiers(t.mailboxes);
    queue::sender_number(priority::first(control::txfp(c.control), i, t.queue.order))
}

// ---- the interrupt lines

// Not `||`: no branch, in every step.
// One by one, see model::ByMailbox.
#[tactic(auto, unfolding(model::specs::Step::any_rqcp))]
fn any_rqcp(t: Transmit) -> bool
    ensures { result ≡ stepping.any_rqcp t }
{
    t.mailboxes.m0.rqcp | t.mailboxes.m1.rqcp | t.mailboxes.m2.rqcp
}

// Three flags side by side.
fn flags(a: bool, b: bool, c: bool) -> u32
    ensures { result ≡ base.one a + base.one b * 2 + base.one c * 4 }
{
    u32::from(a) + u32::from(b) * 2 + u32::from(c) * 4
}

// A FIFO's flags, as their enable bits stand in IER.
fn fifo_flags(f: FifoState) -> u32
    ensures { result ≡ base.one (not (eqb f.count 0)) + base.one f.full * 2 + base.one f.fovr * 4 }
{
    flags(f.count != 0, f.full, f.fovr)
}

// The four interrupt lines: the sources of a line side by side, as their enable bits stand in IER. Where no interrupt is enabled,
// no line is up.
pub fn lines_of(c: Core) -> u8
    ensures { result ≡ stepping.lines_of c }
{
    let Core {
        control,
        transmit,
        fifo0,
        fifo1,
        ..
    } = c;
    let ier = control.ier;
    if ier == 0 {
        return 0;
    }
    let status = flags(control.erri, control.wkui, control.slaki);
    let sum = (ier & u32::from(any_rqcp(transmit)))
        + u32::from((ier >> 1) & fifo_flags(fifo0) != 0) * 2
        + u32::from((ier >> 4) & fifo_flags(fifo1) != 0) * 4
        + u32::from((ier >> 15) & status != 0) * 8;
    sum as u8
}
