// A number of 32 bits as decimal digits.
ghost use Rattle.std.specs.Prelude.{◌≡◌};
ghost use Rattle.starvation.specs.Number as numbers;

// One digit more.
// As `value` of names, which would bring the table of names with it; std's parse wants a &str, and takes a sign.
#[tactic(auto, unfolding(crate::specs::Number::with_digit))]
fn with_digit(n: u32, c: u8) -> Option<u32>
    ensures { result ≡ numbers.with_digit n c }
{
    match c {
        b'0'..=b'9' => n.checked_mul(10)?.checked_add(u32::from(c - b'0')),
        _ => None,
    }
}

// A text of one digit or more, and nothing else.
// std's parse wants a &str, and takes a sign.
#[tactic(auto, unfolding(crate::specs::Number::parsed))]
pub fn parsed(text: &[u8]) -> Option<u32>
    ensures { result ≡ numbers.parsed text.now }
{
    if text.is_empty() {
        return None;
    }
    let mut n = 0;
    for c in text {
        n = with_digit(n, *c)?;
    }
    Some(n)
}
