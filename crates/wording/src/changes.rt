// What a step changed: the filter that took its frame, and each thing that is looked at where it is another than before.
use account::{Aspect, Occupancy};
use model::{Fifo, FilterNumber, Mode};
use text::Line;

const CHANGED_COLUMN: usize = 123;

fn with_filter(l: Line, taken: Option<(Fifo, FilterNumber)>) -> Line {
    match taken {
        Some((fifo, number)) => {
            let a = l.put(b"filter ").decimal(u64::from(number.0));
            a.put(b" of FIFO").decimal(fifo as u64)
        }
        None => l.put(b"no filter takes it"),
    }
}

// Of RF0R or RF1R: how many frames there are, FULL and FOVR.
fn with_fifo(l: Line, fifo: Fifo, word: u32) -> Line {
    let a = l.put(b"FIFO").decimal(fifo as u64).byte(b' ');
    let mut line = a.decimal(u64::from(word % 4)).put(b"/3");
    if bits::bit(3, word) {
        line = line.put(b" FULL");
    }
    if bits::bit(4, word) {
        line = line.put(b" OVR");
    }
    line
}

// EWGF, EPVF and BOFF, as bits of ESR (account::view_of).
fn errors(flags: u32) -> &'static [u8] {
    match flags {
        0 => b"error active",
        1 => b"error warning",
        3 => b"error passive",
        7 => b"bus-off",
        _ => b"",
    }
}

// ERRI, WKUI and SLAKI, as bits of MSR.
fn with_flags(l: Line, flags: u32) -> Line {
    let mut line = l.put(b"flags");
    if flags == 0 {
        line = line.put(b" none");
    }
    if bits::bit(0, flags) {
        line = line.put(b" ERRI");
    }
    if bits::bit(1, flags) {
        line = line.put(b" WKUI");
    }
    if bits::bit(2, flags) {
        line = line.put(b" SLAKI");
    }
    line
}

// The words of each kind, here and of a mode: two kinds and no twins.
fn occupancy(o: Occupancy) -> &'static [u8] {
    match o {
        Occupancy::Empty => b" empty",
        Occupancy::Pending => b" pending",
        Occupancy::OnWire => b" on the wire",
    }
}

fn mode(m: Mode) -> &'static [u8] {
    match m {
        Mode::Normal => b"mode Normal",
        Mode::Initialization => b"mode Initialization",
        Mode::Sleep => b"mode Sleep",
    }
}

fn with_aspect(l: Line, aspect: Aspect) -> Line {
    match aspect {
        Aspect::Mailbox(m, o) => l.put(b"mailbox ").decimal(m as u64).put(occupancy(o)),
        Aspect::Fifo(fifo, word) => with_fifo(l, fifo, word),
        Aspect::Tec(n) => l.put(b"TEC ").decimal(u64::from(n)),
        Aspect::Rec(n) => l.put(b"REC ").decimal(u64::from(n)),
        Aspect::Errors(flags) => l.put(errors(flags)),
        Aspect::Recovery(n) => l.put(b"recovery ").decimal(u64::from(n)).put(b"/128"),
        Aspect::Mode(m) => l.put(mode(m)),
        Aspect::Flags(flags) => with_flags(l, flags),
        Aspect::Timer(n) => l.put(b"timer ").decimal(u64::from(n)),
    }
}

// A comma in front of all but the first.
pub(crate) fn told(
    l: Line,
    taken: Option<Option<(Fifo, FilterNumber)>>,
    changes: [Option<Aspect>; 12],
) -> Line {
    let mut line = l.column(CHANGED_COLUMN);
    if let Some(filter) = taken {
        line = with_filter(line, filter);
    }
    let mut begun = taken.is_some();
    for aspect in changes.iter().flatten() {
        if begun {
            line = line.put(b", ");
        }
        line = with_aspect(line, *aspect);
        begun = true;
    }
    if begun { line } else { l }
}
