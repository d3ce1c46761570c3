// Hex text on standard input, its bytes on standard output. At a fault nothing more is written, and a line on standard error
// says where it is and what is wrong.
#![tactic(auto)]

use hex_text::{Fault, Place, Reader};
use std::fmt;
use std::io::Read;

// Why nothing more is read.
#[derive(Drop)]
enum Stop {
    Ended,
    Fault(Reader, Fault),
    Unread,
    Unwritten,
}

impl fmt::Display for Stop {
    fn fmt<W: fmt::Write>(&self, f: &mut fmt::Formatter<W>) -> fmt::Result {
        match self {
            Stop::Ended => Ok(()),
            Stop::Fault(reader, fault) => {
                let (line, column) = (reader.line, reader.column);
                write!(f, "line {line}, column {column}: ")?;
                match fault {
                    Fault::Character(c) if (33..=126).contains(c) => {
                        write!(f, "'{}'", char::from(*c))?;
                        write!(f, " is no hex digit, blank, line end or comment\n")
                    }
                    Fault::Character(c) => write!(
                        f,
                        "the byte 0x{c:02x} is no hex digit, blank, line end or comment\n"
                    ),
                    Fault::LoneDigit => {
                        write!(f, "a hex digit stands alone; a byte is two of them\n")
                    }
                }
            }
            Stop::Unread => write!(f, "standard input can't be read\n"),
            Stop::Unwritten => write!(f, "standard output can't be written\n"),
        }
    }
}

// The reader, unless it stands at a fault.
fn without_fault(r: Reader) -> Result<Reader, Stop> {
    match r.place {
        Place::Stopped(fault) => Err(Stop::Fault(r, fault)),
        _ => Ok(r),
    }
}

// One more piece of text is read, and its bytes are written.
fn turn<R: Read>(
    rt: &impl Print,
    input: &mut R,
    space: &mut [u8],
    r: Reader,
) -> Result<Reader, Stop> {
    match input.read(space) {
        Ok(0) => {
            without_fault(r.ended())?;
            Err(Stop::Ended)
        }
        Ok(n) => {
            let piece = r.unhexed(&mut space[..n]);
            if rt.write_all(&space[..piece.count]).is_err() {
                return Err(Stop::Unwritten);
            }
            without_fault(piece.reader)
        }
        Err(_) => Err(Stop::Unread),
    }
}

fn main(rt: HostRuntime) {
    let mut space = [0; 65536];
    // A proved loop has to end, and nothing says that the input does: no run uses so many turns up.
    let read = (0..u64::MAX).try_fold(Reader::start(), |reader, _| {
        turn(&rt, &mut rt.stdin(), &mut space, reader)
    });
    if let Err(stop) = read {
        let _ = eprint!(rt; "{stop}");
    }
}
