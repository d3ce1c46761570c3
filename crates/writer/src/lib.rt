// Bench scripts written: a step to its record in a lent space.
#![tactic(auto)]

ghost use Rattle.std.specs.Prelude.{◌≡◌, length};
ghost use Rattle.model.specs.Script as scripts;
ghost use Rattle.model.specs.Writer as writer;
ghost use Rattle.writer.specs.Putting as putting;

use model::{Refusal, WideStep};

// The record of a hardware reset, with which a lesson opens.
pub const OPENING: [u8; 3] = *b"\x01\x00\x00";

// Puts a record to the front of the space, unless it has no space there, or else does not hold the caller's numbers.
fn put(space: &mut [u8], record: &[u8], fits: bool) -> Result<usize, Refusal>
    ensures value { result ≡ putting.put (length «record».now) fits (length space.old) }
    ensures space_after { space.new ≡ putting.space_after «record».now fits space.old }
{
    let n = record.len();
    if space.len() < n {
        return Err(Refusal::NoSpace);
    }
    if !fits {
        return Err(Refusal::OutOfRange);
    }
    space[..n].copy_from_slice(record);
    Ok(n)
}

// Writes the record of a step to the front of the space: whole, or nothing where it is refused, by 9 where the record has no space,
// then by 5 where it can't hold a number.
pub fn write_record(e: WideStep, space: &mut [u8]) -> Result<usize, Refusal>
    ensures value { result ≡ writer.written (writer.step_said e) (length space.old) }
    ensures space_after { space.new ≡ scripts.overwritten (writer.record_written (writer.step_said e) (length space.old)) space.old }
{
    match e {
        WideStep::Reset => put(space, &OPENING, true),
        WideStep::Read(offset) => {
            let [o0, o1, ..] = offset.to_le_bytes();
            put(space, &[2, 2, 0, o0, o1], offset < 65536)
        }
        WideStep::Write(offset, word) => {
            let [o0, o1, ..] = offset.to_le_bytes();
            let [w0, w1, w2, w3] = word.to_le_bytes();
            put(space, &[3, 6, 0, o0, o1, w0, w1, w2, w3], offset < 65536)
        }
        WideStep::Idle => put(space, &[4, 0, 0], true),
        WideStep::BitTimes(n) => {
            let [n0, n1, ..] = n.to_le_bytes();
            put(space, &[5, 2, 0, n0, n1], n < 65536)
        }
        WideStep::Activity => put(space, &[6, 0, 0], true),
        WideStep::Start => put(space, &[7, 0, 0], true),
        WideStep::Outcome(res) => {
            let [r0, ..] = res.to_le_bytes();
            put(space, &[8, 1, 0, r0], res < 256)
        }
        WideStep::Receive(x) => {
            let [i0, i1, i2, i3] = x.identifier.to_le_bytes();
            let [n, ..] = x.length.to_le_bytes();
            let [l0, l1, l2, l3] = x.low.to_le_bytes();
            let [h0, h1, h2, h3] = x.high.to_le_bytes();
            let record = [9, 13, 0, i0, i1, i2, i3, n, l0, l1, l2, l3, h0, h1, h2, h3];
            put(space, &record, x.length < 256)
        }
        WideStep::ReceiveError(code, by) => {
            let [c0, ..] = code.to_le_bytes();
            let [b0, ..] = by.to_le_bytes();
            put(space, &[10, 2, 0, c0, b0], (code < 256) & (by < 256))
        }
    }
}
