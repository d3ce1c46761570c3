// Why a step is refused, worked out from the state before it.
#![tactic(auto)]

ghost use Rattle.std.specs.Prelude.{◌≡◌};
ghost use Rattle.base.specs.Base as base;
ghost use Rattle.model.specs.Refusals as numbers;
ghost use Rattle.model.specs.Registers as map;
ghost use Rattle.model.specs.Step as stepping;
ghost use Rattle.model.specs.declared.Step.TheVariants as steps;

use model::{Core, Frame, Mailbox, Mode, Refusal, Register};

pub fn has_request(c: Core, m: Mailbox) -> bool
    ensures { result ≡ map.has_request c m }
{
    queue::holds(c.transmit.queue.order, m)
}

pub fn is_free(c: Core) -> bool
    ensures { result ≡ map.is_free c }
{
    c.transmit.queue.transmitting.is_none()
}

#[tactic(auto, unfolding(model::specs::Step::may_start))]
pub fn may_start(c: Core) -> bool
    ensures { result ≡ stepping.may_start c }
{
    c.control.mode == Mode::Normal
        && !control::boff(c.errors)
        && is_free(c)
        && !queue::is_empty(c.transmit.queue.order)
        && !(control::silm(c.control) && !control::lbkm(c.control))
}

#[tactic(auto, unfolding(model::specs::Step::may_end))]
pub fn may_end(c: Core, r: u8) -> bool
    ensures { result ≡ stepping.may_end c r }
{
    !is_free(c)
        && !(matches!(r, 3 | 8) && control::lbkm(c.control))
        && !(r == 8 && !control::epvf(c.errors))
}

#[tactic(auto, unfolding(model::specs::Step::may_receive))]
pub fn may_receive(c: Core) -> bool
    ensures { result ≡ stepping.may_receive c }
{
    c.control.mode == Mode::Normal
        && !control::boff(c.errors)
        && is_free(c)
        && !control::lbkm(c.control)
        && !c.filters.finit
}

#[tactic(auto, unfolding(model::specs::Step::receive_error_in_range))]
pub fn receive_error_in_range(k: u8, n: u8) -> bool
    ensures { result ≡ stepping.receive_error_in_range k n }
{
    matches!(k, 1..=6) && matches!(n, 1 | 8)
}

#[tactic(auto, unfolding(model::specs::Registers::write_refusal))]
pub fn write_refusal(g: Register, c: Core) -> Result<(), Refusal>
    ensures { numbers.code_of result ≡ map.write_refusal g c }
{
    match g {
        Register::Btr if c.control.mode != Mode::Initialization => Err(Refusal::NotWritable),
        Register::Ti(m) | Register::Tdt(m) | Register::Tdl(m) | Register::Tdh(m)
            if has_request(c, m) => { Err(Refusal::NotWritable) }
        Register::Ri(_) | Register::Rdt(_) | Register::Rdl(_) | Register::Rdh(_) => {
            Err(Refusal::ReadOnly)
        }
        Register::Fm1r | Register::Fs1r | Register::Ffa1r if !c.filters.finit => {
            Err(Refusal::NotWritable)
        }
        Register::R1(b) | Register::R2(b)
            if !c.filters.finit && bits::bit(b.0, c.filters.activation) => {
            Err(Refusal::NotWritable)
        }
        Register::Absent => Err(Refusal::NotMapped),
        _ => Ok(()),
    }
}

// ---- events

// An event that can't come now is refused.
fn allowed(ok: bool) -> Result<(), Refusal>
    ensures { numbers.code_of result ≡ base.pick ok 0 4 }
{
    if ok { Ok(()) } else { Err(Refusal::NotNow) }
}

#[tactic(auto, unfolding(model::specs::Step::refusal))]
pub fn outcome_refusal(c: Core, res: u8) -> Result<(), Refusal>
    ensures { numbers.code_of result ≡ stepping.refusal c (steps.Outcome res) }
{
    if 8 < res {
        return Err(Refusal::OutOfRange);
    }
    allowed(may_end(c, res))
}

#[tactic(auto, unfolding(model::specs::Step::refusal))]
pub fn frame_refusal(c: Core, x: Frame) -> Result<(), Refusal>
    ensures { numbers.code_of result ≡ stepping.refusal c (steps.Receive x) }
{
    if receive::malformed(x) {
        return Err(Refusal::OutOfRange);
    }
    allowed(may_receive(c))
}

#[tactic(auto, unfolding(model::specs::Step::refusal))]
pub fn receive_error_refusal(c: Core, code: u8, by: u8) -> Result<(), Refusal>
    ensures { numbers.code_of result ≡ stepping.refusal c (steps.ReceiveError code by) }
{
    if !receive_error_in_range(code, by) {
        return Err(Refusal::OutOfRange);
    }
    allowed(may_receive(c))
}
