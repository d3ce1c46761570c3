// Bytes, words low byte first, and flags to lent bytes. Here alone bytes are stored.
ghost use Rattle.std.specs.Prelude.{◌≡◌, ◌+◌, ◌*◌, ◌≤◌, map};
ghost use Rattle.std.proofs.lemmas.List.Edits.{sets};
ghost use Rattle.base.specs.Base as base;
ghost use Rattle.block.specs.Block as blocks;

use block::Block;

pub(crate) fn put<const N: usize>(b: &mut Block, i: usize, bytes: [u8; N])
    requires { i + N ≤ blocks.block_length }
    ensures { b.new ≡ sets b.old i bytes.entry }
{
    b[i..i + N].copy_from_slice(&bytes);
}

pub(crate) fn put_words<const N: usize>(b: &mut Block, i: usize, words: [u32; N])
    requires { i + 4 * N ≤ blocks.block_length }
    ensures { b.new ≡ sets b.old i (blocks.word_bytes words.entry) }
{
    for (k, w) in words.iter().enumerate() {
        put(b, i + 4 * k, w.to_le_bytes());
    }
}

pub(crate) fn put_flags<const N: usize>(b: &mut Block, i: usize, flags: [bool; N])
    requires { i + N ≤ blocks.block_length }
    ensures { b.new ≡ sets b.old i (map base.one flags.entry) }
{
    for (k, f) in flags.iter().enumerate() {
        b[i + k] = u8::from(*f);
    }
}
