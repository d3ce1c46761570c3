// Each register access and bus event as a call of its own: a controller goes in, a controller comes back. The calls differ in their step
// alone, as the interface wants it; the one function for any step is controller::step.
#![tactic(auto)]

ghost use Rattle.std.specs.Prelude.{◌≡◌};
ghost use Rattle.model.specs.Step as stepping;
ghost use Rattle.model.specs.declared.Step.TheVariants as steps;

use model::{Controller, Frame, Step, Stepped};

pub fn hardware_reset(z: Controller) -> Stepped
    ensures { result ≡ stepping.step z steps.Reset }
{
    controller::step(z, Step::Reset)
}

pub fn read(z: Controller, offset: u16) -> Stepped
    ensures { result ≡ stepping.step z (steps.Read offset) }
{
    controller::step(z, Step::Read(offset))
}

pub fn write(z: Controller, offset: u16, word: u32) -> Stepped
    ensures { result ≡ stepping.step z (steps.Write offset word) }
{
    controller::step(z, Step::Write(offset, word))
}

// 11 recessive bits.
pub fn idle(z: Controller) -> Stepped
    ensures { result ≡ stepping.step z steps.Idle }
{
    controller::step(z, Step::Idle)
}

pub fn bit_times(z: Controller, n: u16) -> Stepped
    ensures { result ≡ stepping.step z (steps.BitTimes n) }
{
    controller::step(z, Step::BitTimes(n))
}

pub fn activity(z: Controller) -> Stepped
    ensures { result ≡ stepping.step z steps.Activity }
{
    controller::step(z, Step::Activity)
}

pub fn start(z: Controller) -> Stepped
    ensures { result ≡ stepping.step z steps.Start }
{
    controller::step(z, Step::Start)
}

// The end of the frame on the wire: 0 good, 1 to 6 an error code, 7 arbitration lost, 8 no acknowledgment while error passive.
pub fn outcome(z: Controller, res: u8) -> Stepped
    ensures { result ≡ stepping.step z (steps.Outcome res) }
{
    controller::step(z, Step::Outcome(res))
}

pub fn frame_received(z: Controller, x: Frame) -> Stepped
    ensures { result ≡ stepping.step z (steps.Receive x) }
{
    controller::step(z, Step::Receive(x))
}

pub fn receive_error(z: Controller, code: u8, by: u8) -> Stepped
    ensures { result ≡ stepping.step z (steps.ReceiveError code by) }
{
    controller::step(z, Step::ReceiveError(code, by))
}
