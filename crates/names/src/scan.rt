// Words, letters and numbers in a row of bytes. Where a place is past the end, a blank is read.
ghost use Rattle.std.specs.Prelude.{◌≡◌, Some};
ghost use Rattle.names.specs.Scan as scan;

#[derive(Clone, Copy, Debug, PartialEq, Eq)]
pub enum Class {
    Blank,
    NoBlank,
    HexDigit,
    Digit,
    Letter,
}

// A word from one place up to another, with its first decimal digits from `digits` up to `rest`.
// Places and no slices: the definitions of specs/Scan.antt speak of them, and a fault is told by its column.
#[derive(Clone, Copy)]
pub struct Word {
    pub from: usize,
    pub digits: usize,
    pub rest: usize,
    pub to: usize,
}

#[tactic(auto, unfolding(crate::specs::Scan::byte_at))]
pub fn byte_at(s: &[u8], i: usize) -> u8
    ensures { result ≡ scan.byte_at s.now i }
{
    s.get(i).copied().unwrap_or(b' ')
}

// The value of a hex digit. std's `to_digit` gives it as a number of 32 bits of a `char`, which is no plainer than the three ranges.
#[tactic(auto, unfolding(crate::specs::Scan::digit_of))]
pub fn digit_of(c: u8) -> Option<u8>
    ensures { result ≡ scan.digit_of c }
{
    match c {
        b'0'..=b'9' => Some(c - b'0'),
        b'A'..=b'F' => Some(c - b'A' + 10),
        b'a'..=b'f' => Some(c - b'a' + 10),
        _ => None,
    }
}

impl Class {
    #[tactic(auto, unfolding(crate::specs::Scan::is_of))]
    fn contains(self, c: u8) -> bool
        ensures { result ≡ scan.is_of self c }
    {
        let blank = matches!(c, b' ' | b'\t' | b'\r');
        let decimal = matches!(c, b'0'..=b'9');
        match self {
            Class::Blank => blank,
            Class::NoBlank => !blank,
            Class::HexDigit => digit_of(c).is_some(),
            Class::Digit => decimal,
            Class::Letter => !blank && !decimal,
        }
    }
}

// The end of the bytes of a class that begin at a place. The end is a place of the whole text, which `position` would count from the first.
// A class and no closure: the definition `run_end` speaks of classes, and this is promised to be it.
pub fn run_end(s: &[u8], from: usize, k: Class) -> usize
    ensures { result ≡ scan.run_end s.now from k }
{
    for i in from..s.len() {
        if !k.contains(s[i]) {
            return i;
        }
    }
    from.max(s.len())
}

// ---- numbers

// A number with one digit more.
// `hex` is the base, 16 or 10 and no other, as the definitions `with_digit` and `value` take it.
#[tactic(auto, unfolding(crate::specs::Scan::with_digit))]
fn with_digit(n: u32, c: u8, hex: bool) -> Option<u32>
    ensures { result ≡ scan.with_digit (Some n) c hex }
{
    let base = if hex { 16 } else { 10 };
    let digit = u32::from(digit_of(c)?);
    if base <= digit {
        return None;
    }
    n.checked_mul(base)?.checked_add(digit)
}

// The number whose digits stand from one place up to another, where it is a number of 32 bits; `from_str_radix` would want a `&str`, and
// takes a sign.
// By place, for past the end a blank is read, which is no digit.
pub fn value(s: &[u8], from: usize, to: usize, hex: bool) -> Option<u32>
    ensures { result ≡ scan.value s.now from to hex }
{
    let mut n = 0;
    for i in from..to {
        n = with_digit(n, byte_at(s, i), hex)?;
    }
    Some(n)
}

// ---- words

// The first word at or behind a place; empty at a comment and at the end.
#[tactic(auto, unfolding(crate::specs::Scan::word_at))]
pub fn word_at(s: &[u8], place: usize) -> Word
    ensures { result ≡ scan.word_at s.now place }
{
    let from = run_end(s, place, Class::Blank);
    if byte_at(s, from) == b'#' {
        return Word {
            from,
            digits: from,
            rest: from,
            to: from,
        };
    }
    let digits = run_end(s, from, Class::Letter);
    Word {
        from,
        digits,
        rest: run_end(s, digits, Class::Digit),
        to: run_end(s, from, Class::NoBlank),
    }
}
