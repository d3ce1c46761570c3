// One step of the controller, by value: a controller goes in, a controller comes back.
#![tactic(auto)]

ghost use Rattle.std.specs.Prelude.{◌≡◌};
ghost use Rattle.model.specs.Registers as map;
ghost use Rattle.model.specs.Step as stepping;
ghost use Rattle.controller.specs.After as after;

use model::{
    Answer, ByMailbox, Control, Controller, Core, Errors, Filters, Mode, Refusal, Step, Stepped,
    Transmit,
};
use writes::BankWrite;

mod same; // same.rt: the core field by field

// ---- hardware reset

// One by one, see model::ByMailbox.
#[tactic(auto, unfolding(model::specs::Registers::reset))]
fn core_reset() -> Core
    ensures { result ≡ (map.reset).core }
{
    let x = mailboxes::empty_mailbox();
    let q = receive::empty_fifo();
    Core {
        control: control::control_reset(),
        errors: Errors {
            tec: 0,
            rec: 0,
            lec: 0,
        },
        transmit: Transmit {
            mailboxes: ByMailbox {
                m0: x,
                m1: x,
                m2: x,
            },
            queue: queue::no_requests(),
        },
        fifo0: q,
        fifo1: q,
        filters: Filters {
            mode: 0,
            scale: 0,
            assignment: 0,
            activation: 0,
            finit: true,
        },
    }
}

#[tactic(auto, unfolding(model::specs::Registers::reset))]
pub fn reset() -> Controller
    ensures { result ≡ map.reset }
{
    Controller {
        core: core_reset(),
        banks: [0; 28],
    }
}

// ---- what a step does, before the mode rule

// What a step does: the core, the word or the refusal, and what becomes of the words of the banks.
// It has no lines yet, so it is no CoreStepped: one struct over the kind of answer would name the kind at each use.
#[derive(Clone, Copy)]
pub struct Effect {
    pub core: Core,
    pub answer: Result<u32, Refusal>,
    pub banks: BankWrite,
}

impl Effect {
    // Of a step that has no word and writes no bank.
    fn on_core(core: Core) -> Self
        ensures { result ≡ after.on_core core }
    {
        Effect {
            core,
            answer: Ok(0),
            banks: BankWrite::Nothing,
        }
    }

    fn refused(core: Core, refusal: Refusal) -> Self
        ensures { result ≡ after.not_done core refusal }
    {
        Effect {
            core,
            answer: Err(refusal),
            banks: BankWrite::Nothing,
        }
    }
}

// One function, by the kind of step first: each step is then one way through the code. The core comes back beside the refusal, and not in
// a Result with `?`: that took 661 instructions for a register access where this took 423.
#[tactic(auto, using(model::proofs::RefusalNumbers::refused), unfolding(crate::specs::After::effect, crate::specs::After::effect_at, crate::specs::After::write_after, model::specs::Step::refusal, model::specs::Step::applied, model::specs::Step::word_of))]
fn effect_of(c: Core, banks: [u32; 28], e: Step) -> Effect
    ensures { after.numbered result ≡ after.effect c banks e }
{
    match e {
        Step::Reset => Effect {
            banks: BankWrite::Clear,
            ..Effect::on_core(core_reset())
        },
        Step::Read(o) => Effect {
            answer: reads::read_at(o, c, banks),
            ..Effect::on_core(c)
        },
        Step::Write(o, w) => {
            let x = registers::register_at(o);
            match refusals::write_refusal(x, c) {
                Ok(()) => Effect {
                    banks: writes::bank_write(x, w),
                    ..Effect::on_core(writes::written(x, c, w))
                },
                Err(refusal) => Effect::refused(c, refusal),
            }
        }
        Step::Idle => {
            if refusals::is_free(c) {
                Effect::on_core(events::idle(c))
            } else {
                Effect::refused(c, Refusal::NotNow)
            }
        }
        Step::BitTimes(0) => Effect::refused(c, Refusal::OutOfRange),
        Step::BitTimes(n) => Effect::on_core(events::bit_times(c, n)),
        Step::Activity => {
            if c.control.mode == Mode::Sleep {
                Effect::on_core(events::activity(c))
            } else {
                Effect::refused(c, Refusal::NotNow)
            }
        }
        Step::Start => {
            if refusals::may_start(c) {
                Effect {
                    answer: Ok(reads::start_word(c)),
                    ..Effect::on_core(events::start(c))
                }
            } else {
                Effect::refused(c, Refusal::NotNow)
            }
        }
        Step::Outcome(r) => match refusals::outcome_refusal(c, r) {
            Ok(()) => Effect::on_core(events::outcome(c, &banks, r)),
            Err(refusal) => Effect::refused(c, refusal),
        },
        Step::Receive(x) => match refusals::frame_refusal(c, x) {
            Ok(()) => Effect::on_core(events::frame_received(c, &banks, x)),
            Err(refusal) => Effect::refused(c, refusal),
        },
        Step::ReceiveError(k, n) => match refusals::receive_error_refusal(c, k, n) {
            Ok(()) => Effect::on_core(events::receive_error(c, k, n)),
            Err(refusal) => Effect::refused(c, refusal),
        },
    }
}

// ---- the step

// The mode rule, where the step was accepted.
fn settled_if(ok: bool, c: Core) -> Control
    ensures { result ≡ after.settled_if ok c }
{
    // Not `&&`: one way through the code, in every step.
    control::settled(
        c.control,
        ok & refusals::is_free(c),
        control::boff(c.errors),
    )
}

// What a step gives, the words of the banks by what it does to them.
// As Effect, with the lines: two types, see there.
#[derive(Clone, Copy)]
pub struct CoreStepped {
    pub core: Core,
    pub answer: Answer,
    pub banks: BankWrite,
}

pub fn core_step(c: Core, banks: [u32; 28], e: Step) -> CoreStepped
    ensures { result ≡ after.core_step c banks e }
{
    let a = effect_of(c, banks, e);
    let mut core = a.core;
    core.control = settled_if(a.answer.is_ok(), core);
    let lines = reads::lines_of(core);
    let (code, word) = match a.answer {
        Ok(word) => (0, word),
        Err(refusal) => (u8::from(refusal), 0),
    };
    CoreStepped {
        core,
        answer: Answer { code, lines, word },
        banks: a.banks,
    }
}

// One register access, bus event or hardware reset: the next controller, the code, the lines, the word. The core goes in field by field,
// and the words of the banks are stored only where the step changes them: handed on whole, both were copied more often in every step.
pub fn step(z: Controller, e: Step) -> Stepped
    ensures { result ≡ stepping.step z e }
{
    let s = core_step(same::core(z.core), z.banks, e);
    let mut controller = Controller { core: s.core, ..z };
    if !s.banks.is_nothing() {
        controller.banks = writes::banks_after(z.banks, s.banks);
    }
    let Answer { code, lines, word } = s.answer;
    Stepped {
        controller,
        code,
        lines,
        word,
    }
}
