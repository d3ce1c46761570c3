// Bits of words, and choices between values.
#![tactic(auto)]

ghost use Rattle.std.specs.Prelude.{◌≡◌};
ghost use Rattle.base.specs.Base as base;

// Bit i of w; a word has no bits from 32 on.
pub fn bit(i: u32, w: u32) -> bool
    ensures { result ≡ base.bit i w }
{
    if 32 <= i {
        return false;
    }
    (w >> i) % 2 == 1
}

// The first where b holds, else the second: a call, so that a proof has the choice as one value.
pub fn pick<T: Copy>(b: bool, x: T, y: T) -> T
    ensures { result ≡ base.pick b x y }
{
    if b { x } else { y }
}
