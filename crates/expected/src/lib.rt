// What a step of a lesson must answer, whether an answer is that, and the tag and the eight bytes in which one program hands it to
// another.
#![tactic(auto)]

ghost use Rattle.std.specs.Prelude.{◌≡◌};
ghost use Rattle.expected.specs.Bytes as items;
ghost use Rattle.expected.specs.Holds as expectations;

use model::Answer;

// The tags of what one program hands the other: bytes of a script, and what a step must answer.
pub const SCRIPT: u8 = 1;

pub const EXPECTATION: u8 = 2;

// What a step answers by itself; a refusal has the word 0. Not a word or a refusal: the program trace takes any code with any word, and
// compares both.
#[derive(Clone, Copy, Debug, PartialEq, Eq)]
pub struct Response {
    pub code: u8,
    pub word: u32,
}

// The response and the interrupt lines, each where it is given.
#[derive(Clone, Copy, Debug, PartialEq, Eq)]
pub struct Expected {
    pub response: Option<Response>,
    pub lines: Option<u8>,
}

impl Expected {
    // Whether an answer is what is expected.
    #[tactic(auto, unfolding(crate::specs::Holds::holds))]
    pub fn holds(self, a: Answer) -> bool
        ensures { result ≡ expectations.holds self a }
    {
        let response = self
            .response
            .is_none_or(|x| x.code == a.code && x.word == a.word);
        let lines = self.lines.is_none_or(|up| up == a.lines);
        response && lines
    }
}

// ---- as bytes

fn response_bytes(x: Option<Response>) -> [u8; 6]
    ensures { result ≡ items.response_bytes x }
{
    let Some(Response { code, word }) = x else {
        return [0; 6];
    };
    let [a, b, c, d] = word.to_le_bytes();
    [1, code, a, b, c, d]
}

fn line_bytes(x: Option<u8>) -> [u8; 2]
    ensures { result ≡ items.line_bytes x }
{
    match x {
        Some(up) => [1, up],
        None => [0, 0],
    }
}

// Whether a response is expected, its code, its word with the low byte first; whether lines are, and they.
impl From<Expected> for [u8; 8] {
    ghost from_gives = { λ x bytes. bytes ≡ items.bytes_of x };

    #[tactic(auto, unfolding(crate::specs::Bytes::bytes_of))]
    fn from(x: Expected) -> [u8; 8] {
        let [given, code, a, b, c, d] = response_bytes(x.response);
        let [lined, up] = line_bytes(x.lines);
        [given, code, a, b, c, d, lined, up]
    }
}

impl From<[u8; 8]> for Expected {
    ghost from_gives = { λ bytes x. x ≡ items.expected_of bytes };

    #[tactic(auto, unfolding(crate::specs::Bytes::expected_of))]
    fn from(bytes: [u8; 8]) -> Expected {
        let [given, code, a, b, c, d, lined, up] = bytes;
        let word = u32::from_le_bytes([a, b, c, d]);
        Expected {
            response: (given != 0).then_some(Response { code, word }),
            lines: (lined != 0).then_some(up),
        }
    }
}
