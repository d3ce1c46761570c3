// Fields, interrupt lines and bytes: words of a line that are as many as there are.
ghost use Rattle.std.specs.Prelude.{◌≡◌, ◌^◌, ◌%◌};
ghost use Rattle.lines.specs.Parts as parts;
ghost use Rattle.lines.specs.Lines as lines;

use super::numbers::{Sense, Term, by_name, numeral};
use super::{Fault, Meaning, Rule};
use model::WideStep;
use names::Group;
use names::rows::numbers_of;
use names::scan::{Class, Word, run_end, word_at};

// What the words are: names of a group that stand for a bit up to the last; the rule that any other word breaks; whether they are names
// alone, with no numbers behind them; and the whole word that they must agree with, where one is given.
#[derive(Clone, Copy)]
pub(crate) struct Kind {
    pub(crate) group: Group,
    pub(crate) last: u64,
    pub(crate) rule: Rule,
    pub(crate) alone: bool,
    pub(crate) whole: Option<u32>,
}

// The words up to a place: the bits that they make, and which bits they gave.
#[derive(Clone, Copy)]
pub(crate) struct Part {
    pub(crate) place: usize,
    pub(crate) word: u64,
    pub(crate) given: u64,
}

// The number of a field, as it stands in a line: where the field's name is, where the number is, the place behind it, and the number.
// Places and no slices, as in Term.
#[derive(Clone, Copy)]
pub(crate) struct Amount {
    name: usize,
    from: usize,
    to: usize,
    number: Option<u32>,
}

// ---- a field

// What a bit of a word is worth.
fn power(n: u64) -> u64
    ensures { result ≡ 2 ^ (n % 32) }
{
    1 << (n % 32)
}

// A field of so many bits from the first on has a number. In a whole word the bits must have this number.
#[tactic(auto, unfolding(crate::specs::Parts::with_bits))]
fn with_bits(p: Part, whole: Option<u32>, a: Amount, first: u64, size: u32) -> Result<Part, Fault>
    ensures { result ≡ parts.with_bits p whole a first size }
{
    let bit = power(first);
    let range = power(u64::from(size));
    let most = range - 1;
    if p.given / bit % range != 0 {
        return Err(Fault {
            place: a.name,
            rule: Rule::Twice,
        });
    }
    let number = match a.number {
        Some(n) if u64::from(n) <= most => u64::from(n),
        _ => {
            return Err(Fault {
                place: a.from,
                rule: Rule::WantsNumber(most as u32),
            });
        }
    };
    if let Some(w) = whole {
        let value = u64::from(w) / bit % range;
        if value != number {
            return Err(Fault {
                place: a.name,
                rule: Rule::OtherValue(value as u32),
            });
        }
    }
    Ok(Part {
        place: a.to,
        word: p.word % 4294967296 + number * bit,
        given: p.given % 4294967296 + most * bit,
    })
}

// A field of one bit needs no number.
#[tactic(auto, unfolding(crate::specs::Parts::amount_of))]
fn amount_of(k: Kind, w: Word, v: Term, size: u32) -> Amount
    ensures { result ≡ parts.amount_of k w v size }
{
    let numeral = matches!(v.sense, Sense::Numeral(_));
    if size == 1 && (k.alone || !numeral) {
        return Amount {
            name: w.from,
            from: w.to,
            to: w.to,
            number: Some(1),
        };
    }
    Amount {
        name: w.from,
        from: v.from,
        to: v.to,
        number: v.number(),
    }
}

#[tactic(auto, unfolding(crate::specs::Parts::field))]
fn field(s: &[u8], k: Kind, p: Part, w: Word) -> Result<Part, Fault>
    ensures { result ≡ parts.field s.now k p w }
{
    let fault = Fault {
        place: w.from,
        rule: k.rule,
    };
    let f = names::named(s, w, k.group).ok_or(fault)?;
    let first = f.place();
    if k.last < first {
        return Err(fault);
    }
    let size = numbers_of(f.row).size;
    let a = amount_of(k, w, numeral(s, w.to), size);
    with_bits(p, k.whole, a, first, size)
}

// ---- all words

// Each word begins where the one before it says, so no iterator gives them; a line has no more words than bytes.
pub(crate) fn all_words(s: &[u8], k: Kind, place: usize) -> Result<Part, Fault>
    ensures { result ≡ parts.all_words s.now k place }
{
    let mut p = Part {
        place,
        word: 0,
        given: 0,
    };
    for _n in 0..s.len() {
        let w = word_at(s, p.place);
        if w.to <= w.from {
            return Ok(p);
        }
        p = field(s, k, p, w)?;
    }
    Ok(p)
}

// ---- lines

// Fields of the register at an offset, behind a number or by themselves.
#[tactic(auto, unfolding(crate::specs::Lines::written))]
fn written(s: &[u8], offset: u32, whole: Option<u32>, place: usize) -> Result<Meaning, Fault>
    ensures { result ≡ lines.written s.now offset whole place }
{
    let k = Kind {
        group: Group::Fields(names::register_at(offset)),
        last: 31,
        rule: Rule::WantsField(offset),
        alone: false,
        whole,
    };
    let p = all_words(s, k, place)?;
    let word = whole.unwrap_or((p.word % 4294967296) as u32);
    Ok(Meaning::Step(WideStep::Write(offset, word)))
}

#[tactic(auto, unfolding(crate::specs::Lines::write_line))]
pub(crate) fn write_line(s: &[u8], place: usize) -> Result<Meaning, Fault>
    ensures { result ≡ lines.write_line s.now place }
{
    let r = by_name(s, place, Group::Registers);
    let offset = r.up_to(65535, Rule::WantsRegister)?;
    let v = numeral(s, r.to);
    if v.is_empty() {
        return Err(Fault {
            place: v.from,
            rule: Rule::WantsValue(offset),
        });
    }
    match v.sense {
        Sense::Numeral(Some(n)) => written(s, offset, Some(n), v.to),
        Sense::Numeral(None) => Err(Fault {
            place: v.from,
            rule: Rule::WantsNumber(u32::MAX),
        }),
        _ => written(s, offset, None, v.from),
    }
}

// Words as in `all_words`.
pub(crate) fn bytes_line(s: &[u8], place: usize) -> Result<Meaning, Fault>
    ensures { result ≡ lines.bytes_line s.now place }
{
    let mut w = word_at(s, place);
    let first = w.from;
    if w.to <= first {
        return Err(Fault {
            place: first,
            rule: Rule::WantsPairs,
        });
    }
    for _n in 0..s.len() {
        if w.to <= w.from {
            return Ok(Meaning::Bytes(first));
        }
        if run_end(s, w.from, Class::HexDigit) < w.to || (w.to - w.from) % 2 != 0 {
            return Err(Fault {
                place: w.from,
                rule: Rule::WantsPairs,
            });
        }
        w = word_at(s, w.to);
    }
    Ok(Meaning::Bytes(first))
}
