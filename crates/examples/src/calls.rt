// Each register access and event, by value or on a controller that is lent.
ghost use Rattle.std.specs.Prelude.{◌≡◌};
ghost use Rattle.model.specs.Step as stepping;
ghost use Rattle.model.specs.declared.Step.TheVariants as steps;

use model::{Controller, Frame, Stepped};

// A method for each call, since the program runs the calls themselves: by `step` alone ten of each kind would go unseen.
pub(crate) trait Calls {
    fn hardware_reset(z: Controller) -> Stepped
        ensures { result ≡ stepping.step z steps.Reset };

    fn read(z: Controller, offset: u16) -> Stepped
        ensures { result ≡ stepping.step z (steps.Read offset) };

    fn write(z: Controller, offset: u16, word: u32) -> Stepped
        ensures { result ≡ stepping.step z (steps.Write offset word) };

    fn idle(z: Controller) -> Stepped
        ensures { result ≡ stepping.step z steps.Idle };

    fn bit_times(z: Controller, n: u16) -> Stepped
        ensures { result ≡ stepping.step z (steps.BitTimes n) };

    fn activity(z: Controller) -> Stepped
        ensures { result ≡ stepping.step z steps.Activity };

    fn start(z: Controller) -> Stepped
        ensures { result ≡ stepping.step z steps.Start };

    fn outcome(z: Controller, res: u8) -> Stepped
        ensures { result ≡ stepping.step z (steps.Outcome res) };

    fn frame_received(z: Controller, x: Frame) -> Stepped
        ensures { result ≡ stepping.step z (steps.Receive x) };

    fn receive_error(z: Controller, code: u8, by: u8) -> Stepped
        ensures { result ≡ stepping.step z (steps.ReceiveError code by) };
}

pub(crate) struct ByValue;

pub(crate) struct Lent;

impl Calls for ByValue {
    fn hardware_reset(z: Controller) -> Stepped {
        access::hardware_reset(z)
    }

    fn read(z: Controller, offset: u16) -> Stepped {
        access::read(z, offset)
    }

    fn write(z: Controller, offset: u16, word: u32) -> Stepped {
        access::write(z, offset, word)
    }

    fn idle(z: Controller) -> Stepped {
        access::idle(z)
    }

    fn bit_times(z: Controller, n: u16) -> Stepped {
        access::bit_times(z, n)
    }

    fn activity(z: Controller) -> Stepped {
        access::activity(z)
    }

    fn start(z: Controller) -> Stepped {
        access::start(z)
    }

    fn outcome(z: Controller, res: u8) -> Stepped {
        access::outcome(z, res)
    }

    fn frame_received(z: Controller, x: Frame) -> Stepped {
        access::frame_received(z, x)
    }

    fn receive_error(z: Controller, code: u8, by: u8) -> Stepped {
        access::receive_error(z, code, by)
    }
}

impl Calls for Lent {
    fn hardware_reset(z: Controller) -> Stepped {
        lent::hardware_reset(z)
    }

    fn read(z: Controller, offset: u16) -> Stepped {
        lent::read(z, offset)
    }

    fn write(z: Controller, offset: u16, word: u32) -> Stepped {
        lent::write(z, offset, word)
    }

    fn idle(z: Controller) -> Stepped {
        lent::idle(z)
    }

    fn bit_times(z: Controller, n: u16) -> Stepped {
        lent::bit_times(z, n)
    }

    fn activity(z: Controller) -> Stepped {
        lent::activity(z)
    }

    fn start(z: Controller) -> Stepped {
        lent::start(z)
    }

    fn outcome(z: Controller, res: u8) -> Stepped {
        lent::outcome(z, res)
    }

    fn frame_received(z: Controller, x: Frame) -> Stepped {
        lent::frame_received(z, x)
    }

    fn receive_error(z: Controller, code: u8, by: u8) -> Stepped {
        lent::receive_error(z, code, by)
    }
}
