// The block of the reset state, byte by byte: `put_core` at a second place of the archive would cost every call 88 instructions.
ghost use Rattle.std.specs.Prelude.{◌≡◌};
ghost use Rattle.model.specs.Registers as map;
ghost use Rattle.block.specs.Block as blocks;
ghost use Rattle.block_save.specs.Reset as bytes;

use crate::numbers::{put, put_words};
use block::Block;

#[tactic(auto, unfolding(crate::specs::Reset::headers))]
fn put_headers(b: &mut Block)
    ensures { b.new ≡ bytes.headers b.old }
{
    put(b, 0, [0x40, 20, 0]);
    put(b, 23, [0x41, 4, 0]);
    put(b, 30, [0x42, 20, 0]);
    put(b, 53, [0x43, 20, 0]);
    put(b, 76, [0x44, 20, 0]);
    put(b, 99, [0x45, 7, 0]);
    put(b, 109, [0x46, 52, 0]);
    put(b, 164, [0x47, 52, 0]);
    put(b, 219, [0x48, 17, 0]);
    put(b, 239, [0x49, 112, 0]);
}

#[tactic(auto, unfolding(crate::specs::Reset::reset_numbers))]
fn put_numbers(b: &mut Block)
    ensures { b.new ≡ bytes.reset_numbers b.old }
{
    put_words(b, 3, [0x00010002, 0, 0x01230000]);
    put(b, 17, [2]);
    put(b, 102, [3, 3, 3, 3]);
    put(b, 238, [1]);
}

pub(crate) fn put_reset(b: &mut Block)
    ensures { b.new ≡ blocks.saved map.reset }
{
    b.fill(0);
    put_headers(b);
    put_numbers(b);
}
