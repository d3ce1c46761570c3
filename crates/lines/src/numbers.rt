// Words of a line as numbers, and names that stand for numbers.
ghost use Rattle.std.specs.Prelude.{◌≡◌};
ghost use Rattle.lines.specs.Numbers as numbers;

use super::{Fault, Rule};
use names::Group;
use names::scan::{Word, byte_at, value, word_at};

// What a word stands for: one that begins with a decimal digit for a number, if that has 32 bits, or a name for a number. A word that is
// neither is a case of its own, matched beside these two.
#[derive(Clone, Copy, Debug, PartialEq, Eq)]
pub(crate) enum Sense {
    Numeral(Option<u32>),
    Name(u32),
    Unknown,
}

// A word of a line: where it stands, and what it stands for.
// Places and no slice: a fault is told by its column.
#[derive(Clone, Copy)]
pub(crate) struct Term {
    pub(crate) from: usize,
    pub(crate) to: usize,
    pub(crate) sense: Sense,
}

impl Term {
    // Nothing stands there.
    pub(crate) fn is_empty(self) -> bool
        ensures { result ≡ numbers.is_empty self }
    {
        self.to <= self.from
    }

    pub(crate) fn number(self) -> Option<u32>
        ensures { result ≡ numbers.number_of self.sense }
    {
        match self.sense {
            Sense::Numeral(n) => n,
            Sense::Name(n) => Some(n),
            Sense::Unknown => None,
        }
    }

    pub(crate) fn name(self) -> Option<u32>
        ensures { result ≡ numbers.name_of self.sense }
    {
        match self.sense {
            Sense::Name(n) => Some(n),
            _ => None,
        }
    }

    // The number, up to a limit; any other word breaks the rule.
    pub(crate) fn up_to(self, most: u32, rule: Rule) -> Result<u32, Fault>
        ensures { result ≡ numbers.up_to self most rule }
    {
        match self.number() {
            Some(n) if n <= most => Ok(n),
            _ => Err(Fault {
                place: self.from,
                rule,
            }),
        }
    }
}

// Hex digits behind 0x, or decimal ones.
// The line and a word of it go together: a Word is places, for a fault is told by its column, and holds no bytes.
#[tactic(auto, unfolding(crate::specs::Numbers::sense_of))]
fn sense_of(s: &[u8], w: Word) -> Sense
    ensures { result ≡ numbers.sense_of s.now w }
{
    let first = byte_at(s, w.from);
    if first < b'0' || b'9' < first {
        return Sense::Unknown;
    }
    let digits = w.from + 2;
    if first == b'0' && byte_at(s, w.from + 1) == b'x' && digits < w.to {
        return Sense::Numeral(value(s, digits, w.to, true));
    }
    Sense::Numeral(value(s, w.from, w.to, false))
}

// The next word as a number.
#[tactic(auto, unfolding(crate::specs::Numbers::numeral))]
pub(crate) fn numeral(s: &[u8], place: usize) -> Term
    ensures { result ≡ numbers.numeral s.now place }
{
    let w = word_at(s, place);
    Term {
        from: w.from,
        to: w.to,
        sense: sense_of(s, w),
    }
}

// What a word stands for as a name.
#[tactic(auto, unfolding(crate::specs::Numbers::named_sense))]
fn named_sense(s: &[u8], w: Word, g: Group) -> Sense
    ensures { result ≡ numbers.named_sense s.now w g }
{
    let Some(found) = names::named(s, w, g) else {
        return Sense::Unknown;
    };
    match u32::try_from(found.place()) {
        Ok(n) => Sense::Name(n),
        Err(_) => Sense::Unknown,
    }
}

// The next word as a number, or else what it stands for as a name.
#[tactic(auto, unfolding(crate::specs::Numbers::by_name, crate::specs::Numbers::numeral))]
pub(crate) fn by_name(s: &[u8], place: usize, g: Group) -> Term
    ensures { result ≡ numbers.by_name s.now place g }
{
    let t = numeral(s, place);
    if let Sense::Numeral(_) = t.sense {
        return t;
    }
    Term {
        sense: named_sense(s, word_at(s, place), g),
        ..t
    }
}
