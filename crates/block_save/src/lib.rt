// A controller saved as a state block in lent bytes (docs/BLOCK.md).
#![tactic(auto)]

ghost use Rattle.std.specs.Prelude.{◌≡◌};
ghost use Rattle.std.proofs.lemmas.List.Edits.{sets};
ghost use Rattle.model.specs.Refusals.{code_of};
ghost use Rattle.model.specs.Registers as map;
ghost use Rattle.block.specs.Block as blocks;
ghost use Rattle.block.specs.Loading as loading;

use block::Block;
use model::{Controller, Core, Refusal, Transmit};

mod numbers; // numbers.rt: bytes, words and flags to their places
mod put; // put.rt: each part of the state to its field
mod reset; // reset.rt: the block of the reset state

// One by one: each has a place and a tag of its own.
fn put_transmit(b: &mut Block, t: Transmit)
    ensures { b.new ≡ sets b.old 30 (blocks.transmit_bytes t) }
{
    put::put_mailbox(b, 30, 0x42, t.mailboxes.m0);
    put::put_mailbox(b, 53, 0x43, t.mailboxes.m1);
    put::put_mailbox(b, 76, 0x44, t.mailboxes.m2);
    put::put_queue(b, t.queue);
}

fn put_core(b: &mut Block, c: Core)
    ensures { b.new ≡ sets b.old 0 (blocks.core_bytes c) }
{
    put::put_control(b, c.control);
    put::put_errors(b, c.errors);
    put_transmit(b, c.transmit);
    put::put_fifo(b, 109, 0x46, c.fifo0);
    put::put_fifo(b, 164, 0x47, c.fifo1);
    put::put_filters(b, c.filters);
}

// ---- saving. A block of another length than 354 is refused, and stays as it was

// The reset state.
// The three differ in what is put: over a closure each would be as long. Each promises the code of its own (docs/READING.md names all).
#[tactic(auto, unfolding(block::specs::Loading::right_length, block::specs::Loading::save_code, block::specs::Loading::saved_over))]
pub fn save_reset(b: &mut [u8]) -> Result<(), Refusal>
    ensures code { code_of result ≡ loading.save_code b.old }
    ensures block { b.new ≡ loading.saved_over b.old map.reset }
{
    let Some(block) = b.as_mut_array() else {
        return Err(Refusal::BadBlock);
    };
    reset::put_reset(block);
    Ok(())
}

// All but the field of the banks, which no event changes.
#[tactic(auto, unfolding(block::specs::Loading::right_length, block::specs::Loading::save_code, block::specs::Loading::core_saved_over))]
pub fn save_core(b: &mut [u8], c: Core) -> Result<(), Refusal>
    ensures code { code_of result ≡ loading.save_code b.old }
    ensures block { b.new ≡ loading.core_saved_over b.old c }
{
    let Some(block) = b.as_mut_array() else {
        return Err(Refusal::BadBlock);
    };
    put_core(block, c);
    Ok(())
}

// The field of the banks.
#[tactic(auto, unfolding(block::specs::Loading::right_length, block::specs::Loading::save_code, block::specs::Loading::banks_saved_over))]
pub fn save_banks(b: &mut [u8], v: [u32; 28]) -> Result<(), Refusal>
    ensures code { code_of result ≡ loading.save_code b.old }
    ensures block { b.new ≡ loading.banks_saved_over b.old v }
{
    let Some(block) = b.as_mut_array() else {
        return Err(Refusal::BadBlock);
    };
    put::put_banks(block, v);
    Ok(())
}

pub fn save(b: &mut [u8], z: Controller) -> Result<(), Refusal>
    ensures code { code_of result ≡ loading.save_code b.old }
    ensures block { b.new ≡ loading.saved_over b.old z }
{
    save_core(b, z.core)?;
    save_banks(b, z.banks)
}
