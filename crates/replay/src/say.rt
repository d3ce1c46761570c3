// What is said on standard error.
use model::Refusal;
use std::io;

// Patterns for the number of a piece's answer, which the definitions of pieces and lesson give as a number.
const SHORT: u8 = Refusal::Short as u8;

const UNKNOWN_TAG: u8 = Refusal::UnknownTag as u8;

const NOT_OPENED: u8 = Refusal::NotOpened as u8;

// The number (from 1) and the first byte (from 0) of the next record, behind so many records and bytes.
pub(crate) fn place(err: &impl Eprint, records: u64, bytes: u64) -> io::Result<()> {
    let record = records.wrapping_add(1);
    eprint!(err; "replay: record {record} at byte {bytes}: ")
}

// The bytes with which a lesson begins, at most three, instead of the opening. Not wording's: that has capital hex digits, and what the
// program writes may not change.
fn opening(err: &impl Eprint, lesson: &[u8]) -> io::Result<()> {
    eprint!(err; "replay: the lesson doesn't open with 01 00 00, the record of a reset: ")?;
    match lesson {
        [] => return eprintln!(err; "it is empty"),
        [_] | [_, _] => eprint!(err; "it ends after")?,
        _ => eprint!(err; "it begins with")?,
    }
    for byte in lesson.iter().take(3) {
        eprint!(err; " {byte:02x}")?;
    }
    eprintln!(err)
}

// Why the record at the start of the rest can't be read.
fn reason(err: &impl Eprint, code: u8, rest: &[u8]) -> io::Result<()> {
    let [tag, low, high, body @ ..] = rest else {
        return eprintln!(err;
            "cut short: a header has 3 bytes, the input ends after {}",
            rest.len()
        );
    };
    let length = u16::from_le_bytes([*low, *high]);
    match code {
        SHORT => {
            eprintln!(err;
                "cut short: the header says {length} bytes of body, the input ends after {}",
                body.len()
            )
        }
        UNKNOWN_TAG => eprintln!(err; "unknown tag 0x{tag:02x}; the tags are 0x01 to 0x0a"),
        _ => eprintln!(err; "length {length} is wrong for tag 0x{tag:02x}"),
    }
}

// Why the opening is refused, or the record at a place of a piece, behind so many records and bytes, can't be read.
pub(crate) fn fault(
    err: &impl Eprint,
    records: u64,
    bytes: u64,
    code: u8,
    piece: &[u8],
    at: usize,
) -> io::Result<()> {
    if code == NOT_OPENED {
        return opening(err, piece);
    }
    place(err, records, bytes)?;
    reason(err, code, &piece[at.min(piece.len())..])
}
