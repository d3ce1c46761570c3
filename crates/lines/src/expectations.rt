// What a step must answer.
ghost use Rattle.std.specs.Prelude.{◌≡◌};
ghost use Rattle.lines.specs.Expectations as expectations;

use super::numbers::{Sense, by_name, numeral};
use super::parts::{Kind, all_words};
use super::{Fault, Meaning, Rule, alone};
use expected::{Expected, Response};
use names::Group;

// Behind the word `lines`.
#[tactic(auto, unfolding(crate::specs::Expectations::with_lines))]
fn with_lines(s: &[u8], place: usize, response: Option<Response>) -> Result<Meaning, Fault>
    ensures { result ≡ expectations.with_lines s.now place response }
{
    let t = by_name(s, place, Group::Lines);
    if let Sense::Name(4) = t.sense {
        let none = Expected {
            response,
            lines: Some(0),
        };
        return alone(s, t.to, Meaning::Expect(none));
    }
    if t.is_empty() {
        return Err(Fault {
            place: t.from,
            rule: Rule::WantsLines,
        });
    }
    let k = Kind {
        group: Group::Lines,
        last: 3,
        rule: Rule::WantsLines,
        alone: true,
        whole: None,
    };
    let p = all_words(s, k, place)?;
    Ok(Meaning::Expect(Expected {
        response,
        lines: Some((p.word % 256) as u8),
    }))
}

// Behind a response nothing, or the interrupt lines; where none is given, the lines.
#[tactic(auto, unfolding(crate::specs::Expectations::lines_behind))]
fn lines_behind(
    s: &[u8],
    place: usize,
    response: Option<Response>,
    rule: Rule,
) -> Result<Meaning, Fault>
    ensures { result ≡ expectations.lines_behind s.now place response rule }
{
    let t = by_name(s, place, Group::Expectations);
    if response.is_some() && t.is_empty() {
        return Ok(Meaning::Expect(Expected {
            response,
            lines: None,
        }));
    }
    if let Sense::Name(2) = t.sense {
        return with_lines(s, t.to, response);
    }
    Err(Fault {
        place: t.from,
        rule,
    })
}

#[tactic(auto, unfolding(crate::specs::Expectations::refused))]
fn refused(s: &[u8], place: usize) -> Result<Meaning, Fault>
    ensures { result ≡ expectations.refused s.now place }
{
    let v = numeral(s, place);
    let code = v.up_to(255, Rule::WantsRefusal)?;
    if code == 0 {
        return Err(Fault {
            place: v.from,
            rule: Rule::WantsRefusal,
        });
    }
    let refusal = Response {
        code: code as u8,
        word: 0,
    };
    lines_behind(s, v.to, Some(refusal), Rule::WantsLinesOrEnd)
}

#[tactic(auto, unfolding(crate::specs::Expectations::expect_line))]
pub(crate) fn expect_line(s: &[u8], place: usize) -> Result<Meaning, Fault>
    ensures { result ≡ expectations.expect_line s.now place }
{
    let t = by_name(s, place, Group::Expectations);
    match t.sense {
        Sense::Name(1) => refused(s, t.to),
        Sense::Numeral(_) => {
            let word = t.up_to(u32::MAX, Rule::WantsNumber(u32::MAX))?;
            let response = Some(Response { code: 0, word });
            lines_behind(s, t.to, response, Rule::WantsLinesOrEnd)
        }
        _ => lines_behind(s, place, None, Rule::WantsExpectation),
    }
}
