// Numbers, low byte first, and flags in a block.
ghost use Rattle.std.specs.Prelude.{◌≡◌, ◌+◌, ◌<◌, ◌≤◌};
ghost use Rattle.model.specs.Script as scripts;
ghost use Rattle.block.specs.Block as blocks;

use block::Block;

pub(crate) fn number16(b: &Block, i: usize) -> u16
    requires { i + 2 ≤ blocks.block_length }
    ensures { result ≡ scripts.number16 b.now i }
{
    u16::from_le_bytes([b[i], b[i + 1]])
}

pub(crate) fn number32(b: &Block, i: usize) -> u32
    requires { i + 4 ≤ blocks.block_length }
    ensures { result ≡ scripts.number32 b.now i }
{
    u32::from_le_bytes([b[i], b[i + 1], b[i + 2], b[i + 3]])
}

pub(crate) fn flag_at(b: &Block, i: usize) -> bool
    requires { i < blocks.block_length }
    ensures { result ≡ blocks.flag_at b.now i }
{
    b[i] != 0
}
