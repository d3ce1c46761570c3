// The model for C (include/bxcan.h): each call takes a board, the bytes of a state that the caller lends, and numbers of 32 bits.
#![tactic(auto)]

ghost use Rattle.std.specs.Prelude.{◌≡◌};
ghost use Rattle.model.specs.declared.Step.TheVariants as steps;
ghost use Rattle.capi.specs.Calls as calls;

use model::{Answer, Frame, Refusal, Step};

mod narrow; // narrow.rt: numbers that are too wide for a step, as ones that are refused alike

// The code in bits 7 to 0, the lines in 15 to 8, the word in 63 to 32.
fn packed(a: Answer) -> u64
    ensures { result ≡ calls.packed a.code a.lines a.word }
{
    u64::from(a.code) + u64::from(a.lines) * 256 + u64::from(a.word) * 0x100000000
}

// One step on the state in a block. What a read or a refused step leaves is not written again.
fn stepped(board: u32, b: &mut [u8], e: Step) -> Result<Answer, Refusal>
    ensures answer { calls.packed_of result ≡ calls.answer board b.old e }
    ensures block { b.new ≡ calls.block_after board b.old e }
{
    if board != 0 {
        return Err(Refusal::BadBlock);
    }
    let core = block_load::load_core(b)?;
    let banks = block_load::load_banks(b);
    let s = controller::core_step(core, banks, e);
    if s.answer.code != 0 || matches!(e, Step::Read(_)) {
        return Ok(s.answer);
    }
    block_save::save_core(b, s.core)?;
    if !s.banks.is_nothing() {
        block_save::save_banks(b, writes::banks_after(banks, s.banks))?;
    }
    Ok(s.answer)
}

fn call(board: u32, b: &mut [u8], e: Step) -> u64
    ensures { (result ≡ calls.answer board b.old e) × (b.new ≡ calls.block_after board b.old e) }
{
    match stepped(board, b, e) {
        Ok(answer) => packed(answer),
        Err(refusal) => u64::from(u8::from(refusal)),
    }
}

// ---- the calls

#[tactic(auto, unfolding(crate::specs::Calls::is_board, crate::specs::Calls::block_size))]
#[unsafe(no_mangle)]
pub extern "C" fn bxcan_block_size(board: u32) -> usize
    ensures { result ≡ calls.block_size board }
{
    if board == 0 { 354 } else { 0 }
}

#[unsafe(no_mangle)]
pub extern "C" fn bxcan_reset(board: u32, block: &mut [u8]) -> u64
    ensures { (result ≡ calls.reset_answer board block.old) × (block.new ≡ calls.block_reset board block.old) }
{
    if board != 0 {
        return Refusal::BadBlock as u64;
    }
    match block_save::save_reset(block) {
        Ok(()) => 0,
        Err(refusal) => u64::from(u8::from(refusal)),
    }
}

#[unsafe(no_mangle)]
pub extern "C" fn bxcan_read(board: u32, block: &mut [u8], offset: u32) -> u64
    ensures { (result ≡ calls.answer board block.old (steps.Read offset)) × (block.new ≡ calls.block_after board block.old (steps.Read offset)) }
{
    call(board, block, Step::Read(narrow::offset(offset)))
}

#[unsafe(no_mangle)]
pub extern "C" fn bxcan_write(board: u32, block: &mut [u8], offset: u32, word: u32) -> u64
    ensures { (result ≡ calls.answer board block.old (steps.Write offset word)) × (block.new ≡ calls.block_after board block.old (steps.Write offset word)) }
{
    call(board, block, Step::Write(narrow::offset(offset), word))
}

#[unsafe(no_mangle)]
pub extern "C" fn bxcan_idle(board: u32, block: &mut [u8]) -> u64
    ensures { (result ≡ calls.answer board block.old steps.Idle) × (block.new ≡ calls.block_after board block.old steps.Idle) }
{
    call(board, block, Step::Idle)
}

#[unsafe(no_mangle)]
pub extern "C" fn bxcan_bit_times(board: u32, block: &mut [u8], n: u32) -> u64
    ensures { (result ≡ calls.answer board block.old (steps.BitTimes n)) × (block.new ≡ calls.block_after board block.old (steps.BitTimes n)) }
{
    call(board, block, Step::BitTimes(narrow::count(n)))
}

#[unsafe(no_mangle)]
pub extern "C" fn bxcan_activity(board: u32, block: &mut [u8]) -> u64
    ensures { (result ≡ calls.answer board block.old steps.Activity) × (block.new ≡ calls.block_after board block.old steps.Activity) }
{
    call(board, block, Step::Activity)
}

#[unsafe(no_mangle)]
pub extern "C" fn bxcan_start(board: u32, block: &mut [u8]) -> u64
    ensures { (result ≡ calls.answer board block.old steps.Start) × (block.new ≡ calls.block_after board block.old steps.Start) }
{
    call(board, block, Step::Start)
}

#[unsafe(no_mangle)]
pub extern "C" fn bxcan_own_end(board: u32, block: &mut [u8], res: u32) -> u64
    ensures { (result ≡ calls.answer board block.old (steps.Outcome res)) × (block.new ≡ calls.block_after board block.old (steps.Outcome res)) }
{
    call(board, block, Step::Outcome(narrow::byte(res)))
}

#[unsafe(no_mangle)]
pub extern "C" fn bxcan_frame(
    board: u32,
    block: &mut [u8],
    identifier: u32,
    length: u32,
    data_low: u32,
    data_high: u32,
) -> u64
    ensures { (result ≡ calls.answer board block.old (steps.Receive (record { identifier = identifier; low = data_low; high = data_high; length = length }))) × (block.new ≡ calls.block_after board block.old (steps.Receive (record { identifier = identifier; low = data_low; high = data_high; length = length }))) }
{
    let frame = Frame {
        identifier,
        low: data_low,
        high: data_high,
        length: narrow::byte(length),
    };
    call(board, block, Step::Receive(frame))
}

#[unsafe(no_mangle)]
pub extern "C" fn bxcan_receive_error(board: u32, block: &mut [u8], code: u32, step: u32) -> u64
    ensures { (result ≡ calls.answer board block.old (steps.ReceiveError code step)) × (block.new ≡ calls.block_after board block.old (steps.ReceiveError code step)) }
{
    call(
        board,
        block,
        Step::ReceiveError(narrow::byte(code), narrow::byte(step)),
    )
}
