// Each register access and bus event on a controller that is lent and changed in place: a controller goes in, the call of crates/bench is
// lent a copy of it, and what became of the copy comes back.
#![tactic(auto)]

ghost use Rattle.std.specs.Prelude.{◌≡◌};
ghost use Rattle.std.specs.Fn.{FnOnceReturnsAtMut};
ghost use Rattle.model.specs.Replies as replies;
ghost use Rattle.model.specs.Step as stepping;
ghost use Rattle.model.specs.declared.Step.TheVariants as steps;

use model::{Answer, Controller, Frame, Stepped};

// A call that is lent a copy of the controller: what became of the copy, and the answer.
fn on_lent<F: FnOnce(&mut Controller) -> Answer>(mut z: Controller, call: F) -> Stepped
    requires { F.IsAlwaysCallable call }
    ensures { FnOnceReturnsAtMut F.FnOnce call z (replies.answer_of result) result.controller }
{
    let Answer { code, lines, word } = call(&mut z);
    Stepped {
        controller: z,
        code,
        lines,
        word,
    }
}

// A call for each, as in access and bench (README.md and docs/READING.md name them so); what they share is `on_lent`.
pub fn hardware_reset(z: Controller) -> Stepped
    ensures { result ≡ stepping.step z steps.Reset }
{
    on_lent(z, bench::hardware_reset)
}

pub fn read(z: Controller, offset: u16) -> Stepped
    ensures { result ≡ stepping.step z (steps.Read offset) }
{
    on_lent(z, |c| bench::read(c, offset))
}

pub fn write(z: Controller, offset: u16, word: u32) -> Stepped
    ensures { result ≡ stepping.step z (steps.Write offset word) }
{
    on_lent(z, |c| bench::write(c, offset, word))
}

// 11 recessive bits.
pub fn idle(z: Controller) -> Stepped
    ensures { result ≡ stepping.step z steps.Idle }
{
    on_lent(z, bench::idle)
}

pub fn bit_times(z: Controller, n: u16) -> Stepped
    ensures { result ≡ stepping.step z (steps.BitTimes n) }
{
    on_lent(z, |c| bench::bit_times(c, n))
}

pub fn activity(z: Controller) -> Stepped
    ensures { result ≡ stepping.step z steps.Activity }
{
    on_lent(z, bench::activity)
}

pub fn start(z: Controller) -> Stepped
    ensures { result ≡ stepping.step z steps.Start }
{
    on_lent(z, bench::start)
}

// The end of the frame on the wire: 0 good, 1 to 6 an error code, 7 arbitration lost, 8 no acknowledgment while error passive.
pub fn outcome(z: Controller, res: u8) -> Stepped
    ensures { result ≡ stepping.step z (steps.Outcome res) }
{
    on_lent(z, |c| bench::outcome(c, res))
}

pub fn frame_received(z: Controller, x: Frame) -> Stepped
    ensures { result ≡ stepping.step z (steps.Receive x) }
{
    on_lent(z, |c| bench::frame_received(c, x))
}

pub fn receive_error(z: Controller, code: u8, by: u8) -> Stepped
    ensures { result ≡ stepping.step z (steps.ReceiveError code by) }
{
    on_lent(z, |c| bench::receive_error(c, code, by))
}
