// Whether what stands beside the numbers of a block is as saving writes it.
ghost use Rattle.std.specs.Prelude.{◌≡◌, ◌+◌, ◌<◌, ◌≤◌};
ghost use Rattle.block.specs.Block as blocks;

use block::Block;

// The place is the caller's number, here and in the other files of the block: each field has a length of its own, so no type has the bound.
#[tactic(auto, unfolding(block::specs::Block::header_ok))]
fn header_ok(b: &Block, i: usize, tag: u8, n: u8) -> bool
    requires { i + 3 ≤ blocks.block_length }
    ensures { result ≡ blocks.header_ok b.now i tag n }
{
    b[i] == tag && b[i + 1] == n && b[i + 2] == 0
}

// Line by line as the definition: a list of the ten headers would hold the same numbers, and each is written with its field (block_save).
#[tactic(auto, unfolding(block::specs::Block::headers_ok))]
fn headers_ok(b: &Block) -> bool
    ensures { result ≡ blocks.headers_ok b.now }
{
    header_ok(b, 0, 0x40, 20)
        && header_ok(b, 23, 0x41, 4)
        && header_ok(b, 30, 0x42, 20)
        && header_ok(b, 53, 0x43, 20)
        && header_ok(b, 76, 0x44, 20)
        && header_ok(b, 99, 0x45, 7)
        && header_ok(b, 109, 0x46, 52)
        && header_ok(b, 164, 0x47, 52)
        && header_ok(b, 219, 0x48, 17)
        && header_ok(b, 239, 0x49, 112)
}

#[tactic(auto, unfolding(block::specs::Block::flag_ok))]
fn flag_ok(b: &Block, i: usize) -> bool
    requires { i < blocks.block_length }
    ensures { result ≡ blocks.flag_ok b.now i }
{
    b[i] <= 1
}

#[tactic(auto, unfolding(block::specs::Block::flags_ok))]
fn flags_ok(b: &Block, i: usize) -> bool
    requires { i + 4 ≤ blocks.block_length }
    ensures { result ≡ blocks.flags_ok b.now i }
{
    flag_ok(b, i) & flag_ok(b, i + 1) & flag_ok(b, i + 2) & flag_ok(b, i + 3)
}

// Mailboxes, and behind the last of them nothing but 3.
#[tactic(auto, unfolding(block::specs::Block::order_ok))]
fn order_ok(x: u8, y: u8, z: u8) -> bool
    ensures { result ≡ blocks.order_ok x y z }
{
    x <= 3 && y <= 3 && z <= 3 && (x != 3 || y == 3) && (y != 3 || z == 3)
}

// Byte by byte as the definition: the places follow no step.
#[tactic(auto, unfolding(block::specs::Block::form_ok))]
fn form_ok(b: &Block) -> bool
    ensures { result ≡ blocks.form_ok b.now }
{
    b[17] <= 2
        && flags_ok(b, 19)
        && flags_ok(b, 49)
        && flags_ok(b, 72)
        && flags_ok(b, 95)
        && order_ok(b[102], b[103], b[104])
        && b[105] <= 3
        && flag_ok(b, 106)
        && flag_ok(b, 107)
        && flag_ok(b, 108)
        && flag_ok(b, 162)
        && flag_ok(b, 163)
        && flag_ok(b, 217)
        && flag_ok(b, 218)
        && flag_ok(b, 238)
}

// The form of a block: tags, lengths, mode, flags, request order.
#[tactic(auto, unfolding(block::specs::Block::canonical))]
pub(crate) fn canonical(b: &Block) -> bool
    ensures { result ≡ blocks.canonical b.now }
{
    headers_ok(b) && form_ok(b)
}
