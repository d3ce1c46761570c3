// The decoders: the step of a record's body, one function for each tag that has one. Each takes the part of the script
// where the body lies, which is as long as the tag says.
ghost use Rattle.std.specs.Prelude.{◌≡◌, ◌+◌, ◌≤◌, length};
ghost use Rattle.model.specs.Script as scripts;
ghost use Rattle.model.specs.declared.Step.TheVariants as step;

use model::{Frame, Step};

// ---- numbers, low byte first

pub(crate) fn number16(b: &[u8], i: usize) -> u16
    requires { i + 2 ≤ length b.now }
    ensures { result ≡ scripts.number16 b.now i }
{
    u16::from_le_bytes([b[i], b[i + 1]])
}

fn number32(b: &[u8], i: usize) -> u32
    requires { i + 4 ≤ length b.now }
    ensures { result ≡ scripts.number32 b.now i }
{
    u32::from_le_bytes([b[i], b[i + 1], b[i + 2], b[i + 3]])
}

// ---- a decoder for each tag that has a body

// One for each tag, also where two differ in the step alone: each has its promise and its edit.
pub(crate) fn read_step(b: &[u8]) -> Step
    requires { 2 ≤ length b.now }
    ensures { result ≡ step.Read (scripts.number16 b.now 0) }
{
    Step::Read(number16(b, 0))
}

pub(crate) fn write_step(b: &[u8]) -> Step
    requires { 6 ≤ length b.now }
    ensures { result ≡ step.Write (scripts.number16 b.now 0) (scripts.number32 b.now 2) }
{
    Step::Write(number16(b, 0), number32(b, 2))
}

pub(crate) fn bit_times_step(b: &[u8]) -> Step
    requires { 2 ≤ length b.now }
    ensures { result ≡ step.BitTimes (scripts.number16 b.now 0) }
{
    Step::BitTimes(number16(b, 0))
}

pub(crate) fn outcome_step(b: &[u8]) -> Step
    requires { 1 ≤ length b.now }
    ensures { result ≡ step.Outcome (scripts.byte_at b.now 0) }
{
    Step::Outcome(b[0])
}

pub(crate) fn receive_step(b: &[u8]) -> Step
    requires { 13 ≤ length b.now }
    ensures { result ≡ step.Receive (record { identifier = (scripts.number32 b.now 0); low = (scripts.number32 b.now 5); high = (scripts.number32 b.now 9); length = (scripts.byte_at b.now 4) }) }
{
    Step::Receive(Frame {
        identifier: number32(b, 0),
        low: number32(b, 5),
        high: number32(b, 9),
        length: b[4],
    })
}

pub(crate) fn receive_error_step(b: &[u8]) -> Step
    requires { 2 ≤ length b.now }
    ensures { result ≡ step.ReceiveError (scripts.byte_at b.now 0) (scripts.byte_at b.now 1) }
{
    Step::ReceiveError(b[0], b[1])
}
