// The numbers of a step. One that is too wide for it becomes one that is refused with the same code: an offset of no register, and a number
// that is out of range for every event. What is generic here is `try_from`: one function with the other number as an argument would have each
// call say that number.
ghost use Rattle.std.specs.Prelude.{◌≡◌};
ghost use Rattle.capi.specs.Narrow as narrow;

#[tactic(auto, unfolding(crate::specs::Narrow::offset))]
pub(crate) fn offset(n: u32) -> u16
    ensures { result ≡ narrow.offset n }
{
    u16::try_from(n).unwrap_or(u16::MAX)
}

#[tactic(auto, unfolding(crate::specs::Narrow::count))]
pub(crate) fn count(n: u32) -> u16
    ensures { result ≡ narrow.count n }
{
    u16::try_from(n).unwrap_or(0)
}

#[tactic(auto, unfolding(crate::specs::Narrow::byte))]
pub(crate) fn byte(n: u32) -> u8
    ensures { result ≡ narrow.byte n }
{
    u8::try_from(n).unwrap_or(u8::MAX)
}
