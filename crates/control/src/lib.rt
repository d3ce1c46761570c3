// Modes, error counters, the timer, and the registers MCR, MSR, IER, BTR, ESR.
// Each function is the definition of the same name in model's specs/Control.antt. Flags are joined by & and |, which take no branch.
// A value is chosen by `pick`, with no branch, and the proof has the choice as one value (bits).
#![tactic(auto)]

ghost use Rattle.std.specs.Prelude.{◌≡◌, ◌&&◌, ◌||◌, nat_le, nat_lt};
ghost use Rattle.model.specs.Control as control;

use bits::{bit, pick};
use model::{Control, Errors, Mode};

// ---- bits by name

pub fn inrq(k: Control) -> bool
    ensures { result ≡ control.inrq k }
{
    bit(0, k.mcr)
}

pub fn sleep(k: Control) -> bool
    ensures { result ≡ control.sleep k }
{
    bit(1, k.mcr)
}

pub fn txfp(k: Control) -> bool
    ensures { result ≡ control.txfp k }
{
    bit(2, k.mcr)
}

pub fn rflm(k: Control) -> bool
    ensures { result ≡ control.rflm k }
{
    bit(3, k.mcr)
}

pub fn nart(k: Control) -> bool
    ensures { result ≡ control.nart k }
{
    bit(4, k.mcr)
}

pub fn awum(k: Control) -> bool
    ensures { result ≡ control.awum k }
{
    bit(5, k.mcr)
}

pub fn abom(k: Control) -> bool
    ensures { result ≡ control.abom k }
{
    bit(6, k.mcr)
}

pub fn ttcm(k: Control) -> bool
    ensures { result ≡ control.ttcm k }
{
    bit(7, k.mcr)
}

pub fn lbkm(k: Control) -> bool
    ensures { result ≡ control.lbkm k }
{
    bit(30, k.btr)
}

pub fn silm(k: Control) -> bool
    ensures { result ≡ control.silm k }
{
    bit(31, k.btr)
}

// INAK and SLAK.
// A function and no From: INAK and SLAK are bits of MSR and of the block, and docs/READING.md names it.
pub fn mode_bits(m: Mode) -> u8
    ensures { result ≡ control.mode_bits m }
{
    match m {
        Mode::Normal => 0,
        Mode::Initialization => 1,
        Mode::Sleep => 2,
    }
}

// ---- error state

// By the counters: handed on from function to function, the struct of four bytes becomes one integer, and every step packs it.
fn is_warning(tec: u16, rec: u8) -> bool
    ensures { result ≡ nat_le 96 tec || nat_le 96 rec }
{
    (96 <= tec) | (96 <= rec)
}

fn is_passive(tec: u16, rec: u8) -> bool
    ensures { result ≡ nat_lt 127 tec || nat_lt 127 rec }
{
    (127 < tec) | (127 < rec)
}

fn is_off(tec: u16) -> bool
    ensures { result ≡ nat_lt 255 tec }
{
    255 < tec
}

pub fn epvf(e: Errors) -> bool
    ensures { result ≡ control.epvf e }
{
    is_passive(e.tec, e.rec)
}

pub fn boff(e: Errors) -> bool
    ensures { result ≡ control.boff e }
{
    is_off(e.tec)
}

// Field by field, as same_control.
pub fn same_errors(e: Errors) -> Errors
    ensures { result ≡ e }
{
    Errors {
        tec: e.tec,
        rec: e.rec,
        lec: e.lec,
    }
}

// ---- modes

#[tactic(auto, unfolding(model::specs::Control::mode_next))]
pub fn mode_next(m: Mode, init: bool, slp: bool) -> Mode
    ensures { result ≡ control.mode_next m init slp }
{
    match m {
        Mode::Normal | Mode::Sleep if init && !slp => Mode::Initialization,
        Mode::Normal | Mode::Initialization if slp && !init => Mode::Sleep,
        _ => m,
    }
}

// Field by field: copied whole, small neighbouring fields are packed into one word and taken apart again.
pub fn same_control(k: Control) -> Control
    ensures { result ≡ k }
{
    Control {
        mcr: k.mcr,
        ier: k.ier,
        btr: k.btr,
        timer: k.timer,
        mode: k.mode,
        recovery: k.recovery,
        reinitialized: k.reinitialized,
        erri: k.erri,
        wkui: k.wkui,
        slaki: k.slaki,
    }
}

// `off` beside the control: it is read off the counters, which are no part of it.
#[tactic(auto, unfolding(model::specs::Control::entered))]
pub fn entered(k: Control, m: Mode, off: bool) -> Control
    ensures { result ≡ control.entered k m off }
{
    let slept = k.mode == Mode::Sleep;
    let begins = (m == Mode::Initialization) & (k.mode != Mode::Initialization);
    Control {
        mode: m,
        recovery: pick(begins, 0, k.recovery),
        reinitialized: k.reinitialized | (begins & off),
        slaki: pick(
            m == Mode::Sleep,
            k.slaki | (!slept & bit(17, k.ier)),
            k.slaki & !slept,
        ),
        ..same_control(k)
    }
}

// Every step ends here, most of them with INRQ and SLEEP equal: then nothing else is looked at.
#[tactic(auto, using(crate::proofs::Settling::settled_stays), unfolding(model::specs::Control::settled))]
pub fn settled(k: Control, free: bool, off: bool) -> Control
    ensures { result ≡ control.settled k free off }
{
    let init = inrq(k);
    let slp = sleep(k);
    if init == slp {
        return same_control(k);
    }
    if free {
        return entered(k, mode_next(k.mode, init, slp), off);
    }
    same_control(k)
}

// ---- hardware reset and master reset

#[tactic(auto, unfolding(model::specs::Control::control_reset))]
pub fn control_reset() -> Control
    ensures { result ≡ control.control_reset }
{
    Control {
        mcr: 0x00010002,
        ier: 0,
        btr: 0x01230000,
        timer: 0,
        mode: Mode::Sleep,
        recovery: 0,
        reinitialized: false,
        erri: false,
        wkui: false,
        slaki: false,
    }
}

#[tactic(auto, unfolding(model::specs::Control::master_reset, model::specs::Control::control_reset))]
pub fn master_reset(k: Control) -> Control
    ensures { result ≡ control.master_reset k }
{
    Control {
        ier: k.ier,
        btr: k.btr,
        reinitialized: k.reinitialized,
        ..control_reset()
    }
}

// ---- register writes

#[tactic(auto, unfolding(model::specs::Control::mcr_written))]
pub fn mcr_written(k: Control, w: u32) -> Control
    ensures { result ≡ control.mcr_written k w }
{
    Control {
        mcr: w / 0x10000 % 2 * 0x10000 + w % 256,
        timer: pick(bit(7, w), k.timer, 0),
        ..same_control(k)
    }
}

#[tactic(auto, unfolding(model::specs::Control::msr_written))]
pub fn msr_written(k: Control, w: u32) -> Control
    ensures { result ≡ control.msr_written k w }
{
    Control {
        erri: k.erri & !bit(2, w),
        wkui: k.wkui & !bit(3, w),
        slaki: k.slaki & !bit(4, w),
        ..same_control(k)
    }
}

#[tactic(auto, unfolding(model::specs::Control::ier_written))]
pub fn ier_written(k: Control, w: u32) -> Control
    ensures { result ≡ control.ier_written k w }
{
    Control {
        ier: w / 0x8000 % 8 * 0x8000 + w / 256 % 16 * 256 + w % 128,
        ..same_control(k)
    }
}

#[tactic(auto, unfolding(model::specs::Control::btr_written))]
pub fn btr_written(k: Control, w: u32) -> Control
    ensures { result ≡ control.btr_written k w }
{
    Control {
        btr: w / 0x40000000 % 4 * 0x40000000
            + w / 0x1000000 % 4 * 0x1000000
            + w / 0x10000 % 128 * 0x10000
            + w % 1024,
        ..same_control(k)
    }
}

#[tactic(auto, unfolding(model::specs::Control::esr_written))]
pub fn esr_written(e: Errors, w: u32) -> Errors
    ensures { result ≡ control.esr_written e w }
{
    Errors {
        lec: pick(w / 16 % 8 == 7, 7, e.lec),
        ..same_errors(e)
    }
}

// ---- register reads

#[tactic(auto, using(base::proofs::Flags::from_bool_one, base::proofs::Flags::one_small), unfolding(model::specs::Control::msr_word))]
pub fn msr_word(k: Control, free: bool) -> u32
    ensures { result ≡ control.msr_word k free }
{
    u32::from(mode_bits(k.mode))
        + u32::from(k.erri) * 4
        + u32::from(k.wkui) * 8
        + u32::from(k.slaki) * 16
        + u32::from(!free) * 256
        + 0xC00
}

#[tactic(auto, using(base::proofs::Flags::from_bool_one, base::proofs::Flags::one_small), unfolding(model::specs::Control::esr_word))]
pub fn esr_word(e: Errors) -> u32
    ensures { result ≡ control.esr_word e }
{
    u32::from(is_warning(e.tec, e.rec))
        + u32::from(is_passive(e.tec, e.rec)) * 2
        + u32::from(is_off(e.tec)) * 4
        + u32::from(e.lec) * 16
        + u32::from(e.tec) % 256 * 0x10000
        + u32::from(e.rec) * 0x1000000
}

// ---- bus events

// In bus-off (`off`) an idle counts towards recovery.
fn counts(k: Control, off: bool) -> bool
    ensures { result ≡ off && control.is_normal k.mode && (control.abom k || k.reinitialized) }
{
    off & (k.mode == Mode::Normal) & (abom(k) | k.reinitialized)
}

#[tactic(auto, unfolding(model::specs::Control::recovers, model::specs::Control::idle_counts, model::specs::Control::counted))]
pub fn counted(k: Control, e: Errors) -> Control
    ensures { result ≡ control.counted k e }
{
    let one_more = counts(k, is_off(e.tec));
    let over = one_more & (127 <= k.recovery);
    let more = k.recovery.wrapping_add(1);
    Control {
        recovery: pick(over, 0, pick(one_more, more, k.recovery)),
        reinitialized: k.reinitialized & !over,
        ..same_control(k)
    }
}

#[tactic(auto, unfolding(model::specs::Control::idle_mode))]
pub fn idle_mode(m: Mode, mcr: u32) -> Mode
    ensures { result ≡ control.idle_mode m mcr }
{
    if mcr % 4 == 0 { Mode::Normal } else { m }
}

#[tactic(auto, unfolding(model::specs::Control::idled))]
pub fn idled(k: Control, e: Errors) -> Control
    ensures { result ≡ control.idled k e }
{
    entered(counted(k, e), idle_mode(k.mode, k.mcr), is_off(e.tec))
}

// The three fields one by one, as in `same_errors`: the struct of four bytes would be packed.
#[tactic(auto, unfolding(model::specs::Control::recovers, model::specs::Control::idle_counts, model::specs::Control::idle_errors))]
pub fn idle_errors(k: Control, e: Errors) -> Errors
    ensures { result ≡ control.idle_errors k e }
{
    let over = counts(k, is_off(e.tec)) & (127 <= k.recovery);
    Errors {
        tec: pick(over, 0, e.tec),
        rec: pick(over, 0, e.rec),
        lec: e.lec,
    }
}

// The timer runs on from 65535 to 0.
#[tactic(auto, unfolding(model::specs::Control::ticked))]
pub fn ticked(k: Control, n: u16) -> Control
    ensures { result ≡ control.ticked k n }
{
    let runs = (k.mode == Mode::Normal) & ttcm(k);
    Control {
        timer: pick(runs, k.timer.wrapping_add(n), k.timer),
        ..same_control(k)
    }
}

fn sleep_cleared(mcr: u32) -> u32
    ensures { result ≡ control.sleep_cleared mcr }
{
    if bit(1, mcr) { mcr - 2 } else { mcr }
}

#[tactic(auto, unfolding(model::specs::Control::woken))]
pub fn woken(k: Control) -> Control
    ensures { result ≡ control.woken k }
{
    Control {
        mcr: pick(awum(k), sleep_cleared(k.mcr), k.mcr),
        wkui: true,
        ..same_control(k)
    }
}

// By the number of the step, which may be any byte (model::Step). Field by field, as `same_errors`.
#[tactic(auto, unfolding(model::specs::Control::outcome_errors))]
pub fn outcome_errors(e: Errors, r: u8) -> Errors
    ensures { result ≡ control.outcome_errors e r }
{
    match r {
        0 => Errors {
            tec: e.tec.saturating_sub(1),
            rec: e.rec,
            lec: 0,
        },
        7 => same_errors(e),
        8 => Errors {
            tec: e.tec,
            rec: e.rec,
            lec: 3,
        },
        _ => Errors {
            tec: e.tec.wrapping_add(8),
            rec: e.rec,
            lec: r,
        },
    }
}

// Field by field, as `same_errors`.
#[tactic(auto, unfolding(model::specs::Control::received_errors))]
pub fn received_errors(e: Errors) -> Errors
    ensures { result ≡ control.received_errors e }
{
    Errors {
        tec: e.tec,
        rec: pick(128 < e.rec, 120, e.rec.saturating_sub(1)),
        lec: 0,
    }
}

#[tactic(auto, unfolding(model::specs::Control::rec_plus))]
pub fn rec_plus(x: u8, n: u8) -> u8
    ensures { result ≡ control.rec_plus x n }
{
    x.saturating_add(n)
}

// Field by field, as `same_errors`.
#[tactic(auto, unfolding(model::specs::Control::receive_error_counters))]
pub fn receive_error_counters(e: Errors, k: u8, n: u8) -> Errors
    ensures { result ≡ control.receive_error_counters e k n }
{
    Errors {
        tec: e.tec,
        rec: rec_plus(e.rec, n),
        lec: k,
    }
}

#[tactic(auto, unfolding(model::specs::Control::errors_changed))]
pub fn errors_changed(k: Control, e: Errors, d: Errors, coded: bool) -> Control
    ensures { result ≡ control.errors_changed k e d coded }
{
    let off = is_off(d.tec);
    Control {
        recovery: pick(off, 0, k.recovery),
        reinitialized: k.reinitialized & !off,
        erri: k.erri
            | (bit(8, k.ier) & is_warning(d.tec, d.rec) & !is_warning(e.tec, e.rec))
            | (bit(9, k.ier) & is_passive(d.tec, d.rec) & !is_passive(e.tec, e.rec))
            | (bit(10, k.ier) & off & !is_off(e.tec))
            | (bit(11, k.ier) & coded),
        ..same_control(k)
    }
}
