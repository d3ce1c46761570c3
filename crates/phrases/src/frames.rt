// A frame as can-utils writes it, 123#1122, or its record as bytes where that says less than all of it.
ghost use Rattle.std.specs.Prelude.{◌≡◌};
ghost use Rattle.model.specs.Records as records;
ghost use Rattle.model.specs.declared.Step.TheVariants as step;
ghost use Rattle.text.specs.Lines as lines;
ghost use Rattle.phrases.specs.Frames as framing;

use super::{begun, name};
use model::{FilterNumber, Frame, WideFrame, WideStep};
use text::Line;

// ---- bytes

// `blank` only says whether a byte more stands in front.
#[tactic(auto, using(text::proofs::Putting::behind), unfolding(crate::specs::Frames::pair_text, text::specs::Lines::put_all))]
fn pair(l: Line, b: u8, blank: bool) -> Line
    ensures { result ≡ lines.put_all l (framing.pair_text blank b) }
{
    let b = u32::from(b);
    if blank {
        l.byte(b' ').digits(b, 2)
    } else {
        l.digits(b, 2)
    }
}

// Two hex digits for each byte, with a blank in front or not.
fn pairs(l: Line, s: &[u8], blank: bool) -> Line
    ensures { result ≡ lines.put_all l (framing.pairs_text blank s.now) }
{
    let mut line = l;
    for b in s {
        line = pair(line, *b, blank);
    }
    line
}

#[tactic(auto, using(text::proofs::Putting::behind), unfolding(crate::specs::Frames::bytes_text))]
pub(crate) fn bytes(l: Line, s: &[u8]) -> Line
    ensures { result ≡ lines.put_all l (framing.bytes_text s.now) }
{
    pairs(name(l, 13, 0), s, true)
}

fn record(x: Frame) -> [u8; 16]
    ensures { result ≡ records.record_of (step.Receive x) }
{
    let mut space = [0u8; 16];
    let Frame {
        identifier,
        low,
        high,
        length,
    } = x;
    let frame = WideFrame {
        identifier,
        low,
        high,
        length: u32::from(length),
    };
    let _ = writer::write_record(WideStep::Receive(frame), &mut space);
    space
}

// ---- the worded form

// Whether the worded form says all of a frame: no bit of the identifier word and no data beyond it.
#[tactic(auto, unfolding(crate::specs::Frames::is_worded, model::specs::Reception::stored_frame))]
fn is_worded(x: Frame) -> bool
    ensures { result ≡ framing.is_worded x }
{
    let kept = receive::stored_frame(x, FilterNumber(0), 0);
    !receive::malformed(x) && kept.rdl == x.low && kept.rdh == x.high
}

#[tactic(auto, unfolding(crate::specs::Frames::identifier_text))]
fn identifier(l: Line, w: u32) -> Line
    ensures { result ≡ lines.put_all l (framing.identifier_text w) }
{
    if bits::bit(2, w) {
        l.digits(w / 8, 8)
    } else {
        l.digits(w / 0x200000, 3)
    }
}

#[tactic(auto, using(text::proofs::Putting::behind), unfolding(crate::specs::Frames::remote_text, text::specs::Lines::put_all))]
fn remote(l: Line, length: u8) -> Line
    ensures { result ≡ lines.put_all l (framing.remote_text length) }
{
    let a = l.byte(b'R');
    match length {
        0 => a,
        1..=7 => a.digits(u32::from(length), 1),
        _ => a.byte(b'8'),
    }
}

fn data(l: Line, x: Frame) -> Line
    ensures { result ≡ lines.put_all l (framing.data_text x) }
{
    let s = record(x);
    let end = 8 + receive::data_bytes(x) as usize;
    pairs(l, &s[8..end], false)
}

#[tactic(auto, unfolding(crate::specs::Frames::payload_text))]
fn payload(l: Line, x: Frame) -> Line
    ensures { result ≡ lines.put_all l (framing.payload_text x) }
{
    if bits::bit(1, x.identifier) {
        remote(l, x.length)
    } else {
        data(l, x)
    }
}

// A length code above 8.
#[tactic(auto, using(text::proofs::Putting::behind), unfolding(crate::specs::Frames::code_text, text::specs::Lines::put_all))]
fn code(l: Line, length: u8) -> Line
    ensures { result ≡ lines.put_all l (framing.code_text length) }
{
    if length <= 8 {
        l
    } else {
        l.byte(b'_').digits(u32::from(length), 1)
    }
}

fn worded(l: Line, x: Frame) -> Line
    ensures { result ≡ lines.put_all l (framing.worded_text x) }
{
    let a = identifier(begun(l, 8), x.identifier);
    let b = payload(a.put(b"#"), x);
    code(b, x.length)
}

// ---- as bytes

// What the bytes of a frame are, in words.
fn remark(l: Line, x: Frame) -> Line
    ensures { result ≡ lines.put_all l (framing.remark_text x) }
{
    let a = l.put(b" # frame, identifier word ").hex(x.identifier, 8);
    let b = a.put(b", length code ").decimal(u64::from(x.length));
    let s = record(x);
    pairs(b.put(b", data"), &s[8..16], true)
}

#[tactic(auto, using(text::proofs::Putting::behind), unfolding(crate::specs::Frames::unworded_text))]
fn unworded(l: Line, x: Frame) -> Line
    ensures { result ≡ lines.put_all l (framing.unworded_text x) }
{
    let s = record(x);
    remark(bytes(l, &s), x)
}

#[tactic(auto, unfolding(crate::specs::Frames::frame_text))]
pub(crate) fn frame(l: Line, x: Frame) -> Line
    ensures { result ≡ lines.put_all l (framing.frame_text x) }
{
    if is_worded(x) {
        worded(l, x)
    } else {
        unworded(l, x)
    }
}
