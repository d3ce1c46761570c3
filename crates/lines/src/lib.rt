// What a line of a lesson means: docs/LESSONS.md.
#![tactic(auto)]

ghost use Rattle.std.specs.Prelude.{◌≡◌};
ghost use Rattle.lines.specs.Meanings as meanings;
ghost use Rattle.lines.specs.Lines as lines;

use expected::Expected;
use model::WideStep;
use names::Group;
use names::scan::word_at;
use numbers::{by_name, numeral};

mod expectations; // what a step must answer
mod frames; // a frame as can-utils writes it
mod numbers; // numbers, and names that stand for numbers
mod parts; // fields, interrupt lines and bytes: as many as there are

// What a line may break, with the number that the rule speaks of.
#[derive(Clone, Copy, Debug, PartialEq, Eq)]
pub enum Rule {
    // A word that begins a line.
    WantsStep,
    // No word more.
    WantsEnd,
    // A number from 0 up to this one.
    WantsNumber(u32),
    // A register or its offset.
    WantsRegister,
    // A number or a field of the register at this offset.
    WantsValue(u32),
    // A field of the register at this offset.
    WantsField(u32),
    // No bit that is given already.
    Twice,
    // The value that the field has in the number: this one.
    OtherValue(u32),
    WantsResult,
    // Three hex digits up to 7FF, or eight up to 1FFFFFFF.
    WantsIdentifier,
    WantsHash,
    // A frame of CAN FD.
    NoFd,
    // Up to eight bytes, or a remote frame.
    WantsData,
    // A length code of 9 to F, behind eight bytes.
    WantsCode,
    // Pairs of hex digits.
    WantsPairs,
    // A word, a code or interrupt lines.
    WantsExpectation,
    WantsLines,
    // A code from 1 to 255.
    WantsRefusal,
    // Interrupt lines, or no word more.
    WantsLinesOrEnd,
}

// Where a line is no line of a lesson, and which rule it breaks there.
#[derive(Clone, Copy, Debug, PartialEq, Eq)]
pub struct Fault {
    pub place: usize,
    pub rule: Rule,
}

#[derive(Clone, Copy)]
pub enum Meaning {
    Step(WideStep),
    Bytes(usize),
    Expect(Expected),
    Repeat(u32),
    Done,
}

// A meaning that is whole: nothing follows.
#[tactic(auto, unfolding(crate::specs::Meanings::alone))]
pub(crate) fn alone(s: &[u8], place: usize, m: Meaning) -> Result<Meaning, Fault>
    ensures { result ≡ meanings.alone s.now place m }
{
    let w = word_at(s, place);
    if w.from < w.to {
        return Err(Fault {
            place: w.from,
            rule: Rule::WantsEnd,
        });
    }
    Ok(m)
}

// ---- lines with numbers

// By the number of the line's first word, as in `line_of`.
#[tactic(auto, unfolding(crate::specs::Lines::number_line))]
fn number_line(s: &[u8], step: u32, place: usize) -> Result<Meaning, Fault>
    ensures { result ≡ lines.number_line s.now step place }
{
    match step {
        2 => {
            let t = by_name(s, place, Group::Registers);
            let offset = t.up_to(65535, Rule::WantsRegister)?;
            alone(s, t.to, Meaning::Step(WideStep::Read(offset)))
        }
        5 => {
            let t = numeral(s, place);
            let times = t.up_to(65535, Rule::WantsNumber(65535))?;
            alone(s, t.to, Meaning::Step(WideStep::BitTimes(times)))
        }
        8 => {
            let t = by_name(s, place, Group::Results);
            let result_code = t.up_to(255, Rule::WantsResult)?;
            alone(s, t.to, Meaning::Step(WideStep::Outcome(result_code)))
        }
        10 => {
            let t = numeral(s, place);
            let kind = t.up_to(255, Rule::WantsNumber(255))?;
            let u = numeral(s, t.to);
            let n = u.up_to(255, Rule::WantsNumber(255))?;
            alone(s, u.to, Meaning::Step(WideStep::ReceiveError(kind, n)))
        }
        _ => {
            let t = numeral(s, place);
            let turns = t.up_to(u32::MAX, Rule::WantsNumber(u32::MAX))?;
            alone(s, t.to, Meaning::Repeat(turns))
        }
    }
}

// ---- a line

// By the number of the line's first word, which stands from one place up to another. The number is the table's: an enum would list its
// fourteen words once more, with a match from numbers to variants in front of this one.
#[tactic(auto, unfolding(crate::specs::Lines::line_of))]
fn line_of(s: &[u8], step: u32, from: usize, to: usize) -> Result<Meaning, Fault>
    ensures { result ≡ lines.line_of s.now step from to }
{
    match step {
        1 => alone(s, to, Meaning::Step(WideStep::Reset)),
        3 => parts::write_line(s, to),
        4 => alone(s, to, Meaning::Step(WideStep::Idle)),
        6 => alone(s, to, Meaning::Step(WideStep::Activity)),
        7 => alone(s, to, Meaning::Step(WideStep::Start)),
        9 => frames::frame_line(s, to),
        11 => expectations::expect_line(s, to),
        13 => alone(s, to, Meaning::Done),
        14 => parts::bytes_line(s, to),
        2 | 5 | 8 | 10 | 12 => number_line(s, step, to),
        _ => Err(Fault {
            place: from,
            rule: Rule::WantsStep,
        }),
    }
}

// What a line means, without its line end, if it says anything.
#[tactic(auto, unfolding(crate::specs::Lines::meaning_of))]
pub fn meaning_of(s: &[u8]) -> Result<Option<Meaning>, Fault>
    ensures { result ≡ lines.meaning_of s.now }
{
    let t = by_name(s, 0, Group::Steps);
    if t.is_empty() {
        return Ok(None);
    }
    let Some(step) = t.name() else {
        return Err(Fault {
            place: t.from,
            rule: Rule::WantsStep,
        });
    };
    let m = line_of(s, step, t.from, t.to)?;
    Ok(Some(m))
}
