// A frame as can-utils writes it: 123#1122, 12345678#11, 123#R5, 123#R8_B.
ghost use Rattle.std.specs.Prelude.{◌≡◌, ◌*◌, ◌≤◌};
ghost use Rattle.lines.specs.Frames as frames;

use super::{Fault, Meaning, Rule, alone};
use model::{WideFrame, WideStep};
use names::scan::{Class, byte_at, run_end, value, word_at};

// Pairs of digits up to a place as a number, the first one lowest; there are eight at the most. The index goes back from the end, as
// the definition counts the pairs.
// The line and a place in it, as everywhere here: a slice up to the place would lose the column.
#[tactic(auto, unfolding(crate::specs::Frames::pairs))]
fn pairs(s: &[u8], to: usize, count: usize) -> u64
    requires { 2 * count ≤ to }
    ensures { result ≡ frames.pairs s.now to count }
{
    let mut n: u64 = 0;
    for i in 0..count {
        let at = to - 2 * (i + 1);
        let byte = value(s, at, at + 2, true).unwrap_or(0) % 256;
        n = n % 72057594037927936 * 256 + u64::from(byte);
    }
    n
}

// Behind the data of a frame its word ends, or a length code above 8 follows.
#[tactic(auto, unfolding(crate::specs::Frames::finished))]
fn finished(s: &[u8], to: usize, place: usize, f: WideFrame) -> Result<Meaning, Fault>
    ensures { result ≡ frames.finished s.now to place f }
{
    if to <= place {
        return alone(s, to, Meaning::Step(WideStep::Receive(f)));
    }
    if f.length != 8 || byte_at(s, place) != b'_' {
        return Err(Fault {
            place,
            rule: Rule::WantsData,
        });
    }
    let at = place + 1;
    let end = at + 1;
    let Some(length @ 9..=15) = value(s, at, end, true) else {
        return Err(Fault {
            place: at,
            rule: Rule::WantsCode,
        });
    };
    if end < to {
        return Err(Fault {
            place: end,
            rule: Rule::WantsCode,
        });
    }
    alone(
        s,
        to,
        Meaning::Step(WideStep::Receive(WideFrame { length, ..f })),
    )
}

// Behind 'R' the word ends, or a length code from 0 to 8 follows.
// The word's end and the identifier go along to where the frame is put together; these three alone have both.
#[tactic(auto, unfolding(crate::specs::Frames::remote))]
fn remote(s: &[u8], to: usize, at: usize, identifier: u32) -> Result<Meaning, Fault>
    ensures { result ≡ frames.remote s.now to at identifier }
{
    let f = WideFrame {
        identifier,
        low: 0,
        high: 0,
        length: 0,
    };
    if to <= at {
        return alone(s, to, Meaning::Step(WideStep::Receive(f)));
    }
    match value(s, at, at + 1, true) {
        Some(length @ 0..=8) => finished(s, to, at + 1, WideFrame { length, ..f }),
        _ => Err(Fault {
            place: at,
            rule: Rule::WantsData,
        }),
    }
}

// Up to eight pairs of digits.
#[tactic(auto, unfolding(crate::specs::Frames::with_data))]
fn with_data(s: &[u8], to: usize, place: usize, identifier: u32) -> Result<Meaning, Fault>
    ensures { result ≡ frames.with_data s.now to place identifier }
{
    let end = run_end(s, place, Class::HexDigit);
    let digits = end.saturating_sub(place);
    if digits % 2 != 0 || 16 < digits {
        return Err(Fault {
            place,
            rule: Rule::WantsData,
        });
    }
    let count = digits / 2;
    let d = pairs(s, end, count);
    let f = WideFrame {
        identifier,
        low: (d % 4294967296) as u32,
        high: (d / 4294967296) as u32,
        length: count as u32,
    };
    finished(s, to, end, f)
}

// Behind the hash a second one, a remote frame or data.
#[tactic(auto, unfolding(crate::specs::Frames::behind_identifier))]
fn behind_identifier(s: &[u8], to: usize, hash: usize, identifier: u32) -> Result<Meaning, Fault>
    requires { identifier ≤ 0xFFFFFFFC }
    ensures { result ≡ frames.behind_identifier s.now to hash identifier }
{
    if byte_at(s, hash) != b'#' {
        return Err(Fault {
            place: hash,
            rule: Rule::WantsHash,
        });
    }
    let place = hash + 1;
    match byte_at(s, place) {
        b'#' => Err(Fault {
            place,
            rule: Rule::NoFd,
        }),
        b'R' => remote(s, to, place + 1, identifier + 2),
        _ => with_data(s, to, place, identifier),
    }
}

// Three digits are a standard identifier, eight an extended one.
#[tactic(auto, unfolding(crate::specs::Frames::frame_line))]
pub(crate) fn frame_line(s: &[u8], place: usize) -> Result<Meaning, Fault>
    ensures { result ≡ frames.frame_line s.now place }
{
    let w = word_at(s, place);
    let end = run_end(s, w.from, Class::HexDigit);
    let count = end.saturating_sub(w.from);
    match value(s, w.from, end, true) {
        Some(n) if count == 3 && n <= 0x7FF => behind_identifier(s, w.to, end, n * 2097152),
        Some(n) if count == 8 && n <= 0x1FFFFFFF => behind_identifier(s, w.to, end, n * 8 + 4),
        _ => Err(Fault {
            place: w.from,
            rule: Rule::WantsIdentifier,
        }),
    }
}
