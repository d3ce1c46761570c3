// A controller loaded from a state block (docs/BLOCK.md).
#![tactic(auto)]

ghost use Rattle.std.specs.Prelude.{◌≡◌};
ghost use Rattle.block.specs.Block as blocks;
ghost use Rattle.block.specs.Loading as block;
ghost use Rattle.block_load.specs.Loaded as loading;
ghost use Rattle.model.specs.Registers as registers;

use block::Block;
use model::{ByMailbox, Controller, Core, Refusal, Transmit};

mod form; // form.rt: whether what stands beside the numbers is as saving writes it
mod numbers; // numbers.rt: numbers and flags in a block
mod take; // take.rt: each part of the state from its field

// One by one: each has a place of its own in the block.
#[tactic(auto, unfolding(block::specs::Block::transmit_at))]
fn transmit_at(b: &Block) -> Transmit
    ensures { result ≡ blocks.transmit_at b.now }
{
    Transmit {
        mailboxes: ByMailbox {
            m0: take::mailbox_at(b, 30),
            m1: take::mailbox_at(b, 53),
            m2: take::mailbox_at(b, 76),
        },
        queue: take::queue_at(b),
    }
}

// What the bytes at each field's place say, whatever they are.
#[tactic(auto, unfolding(block::specs::Block::core_at))]
fn core_at(b: &Block) -> Core
    ensures { result ≡ blocks.core_at b.now }
{
    Core {
        control: take::control_at(b),
        errors: take::errors_at(b),
        transmit: transmit_at(b),
        fifo0: take::fifo_at(b, 109),
        fifo1: take::fifo_at(b, 164),
        filters: take::filters_at(b),
    }
}

// ---- loading. A block is refused exactly when no state within the ranges is saved as its bytes

// All but the banks' words. The form is looked at before anything is taken, so that what is taken need not be kept meanwhile.
// With the reset state in place of a refusal it is what the definition of block has, and so below.
pub fn load_core(b: &[u8]) -> Result<Core, Refusal>
    ensures value { result ≡ loading.loaded_core b.now }
    ensures or_reset { loading.given_or registers.reset.core result ≡ block.core_loaded b.now }
{
    let Ok(block) = <&Block>::try_from(b) else {
        return Err(Refusal::BadBlock);
    };
    if !form::canonical(block) {
        return Err(Refusal::BadBlock);
    }
    let core = core_at(block);
    if !ranges::in_range(core) {
        return Err(Refusal::BadBlock);
    }
    Ok(core)
}

// The banks' words, which may be any; zeros where the block has another length. It can't fail, as `banks_loaded` has it: whoever asks has
// loaded the core before, and so knows the length.
pub fn load_banks(b: &[u8]) -> [u32; 28]
    ensures { result ≡ loading.banks_loaded b.now }
{
    let Ok(block) = <&Block>::try_from(b) else {
        return [0; 28];
    };
    take::banks_at(block)
}

pub fn load(b: &[u8]) -> Result<Controller, Refusal>
    ensures value { result ≡ loading.loaded_whole b.now }
    ensures or_reset { loading.given_or registers.reset result ≡ block.loaded b.now }
{
    let core = load_core(b)?;
    let banks = load_banks(b);
    Ok(Controller { core, banks })
}
