// The table of names: rows of 14 bytes, each with its name and some numbers.
ghost use Rattle.std.specs.Prelude.{◌≡◌};
ghost use Rattle.names.specs.Rows as rows;
ghost use Rattle.names.specs.Table as tables;

use super::scan::{Word, byte_at};
use super::table::text;

// The registers are the rows from one up to another.
pub(crate) const REGISTERS: usize = 30;

pub(crate) const FIELDS: usize = 53;

// A row, with the number that stands in a name for the percent sign.
#[derive(Clone, Copy, Debug, PartialEq, Eq)]
pub struct Found {
    pub row: usize,
    pub index: u32,
}

// The numbers of a row. A register has the row of its first field and the number of such rows in place of `digits` and `shown`.
#[derive(Clone, Copy)]
pub struct Numbers {
    pub place: u32,
    pub size: u32,
    pub count: u32,
    pub digits: u32,
    pub shown: u32,
}

#[tactic(auto, unfolding(crate::specs::Rows::numbers))]
pub fn numbers_of(row: usize) -> Numbers
    ensures { result ≡ rows.numbers row }
{
    let t = text(row);
    Numbers {
        place: u32::from(u16::from_be_bytes([t[8], t[9]])),
        size: u32::from(t[10]),
        count: u32::from(t[11]),
        digits: u32::from(t[12]),
        shown: u32::from(t[13]),
    }
}

impl Numbers {
    // How many sizes an offset is behind the place, where it is so many that are counted.
    pub(crate) fn index_of(self, offset: u32) -> Option<u32>
        ensures { result ≡ rows.index_in self.place self.size self.count offset }
    {
        if offset < self.place || self.size == 0 {
            return None;
        }
        let distance = offset - self.place;
        let index = distance / self.size;
        if distance % self.size != 0 || self.count <= index {
            return None;
        }
        Some(index)
    }
}

impl Found {
    // The number of what was found: the offset of a register, the lowest bit of a field, a tag, a result, a line.
    #[tactic(auto, unfolding(crate::specs::Table::place))]
    pub fn place(self) -> u64
        ensures { result ≡ tables.place self }
    {
        let n = numbers_of(self.row);
        u64::from(n.place) + u64::from(n.size) * u64::from(self.index)
    }
}

// ---- by name

// Whether a word is a name, with digits where the name has a percent sign. A place of the word goes along with the letter of the name, and
// jumps behind the digits: no chain over the name says so more plainly.
fn is_named(s: &[u8], w: Word, name: &[u8]) -> bool
    ensures { result ≡ rows.is_named s.now w name.now }
{
    let mut p = w.from;
    for k in 0..8 {
        let c = byte_at(name, k);
        if c == b' ' {
            return p == w.to;
        }
        if c == b'%' {
            if p != w.digits {
                return false;
            }
            p = w.rest;
            continue;
        }
        if w.to <= p || byte_at(s, p) != c {
            return false;
        }
        p += 1;
    }
    p == w.to
}

// The first of so many rows that has this name.
pub(crate) fn find(s: &[u8], w: Word, first: u32, count: u32) -> Option<usize>
    ensures { result ≡ rows.find_on s.now w first count }
{
    let first = first as usize;
    // Tried as `find` of the range: the proof that its answer is the definition's did not close.
    for row in first..first + count as usize {
        if is_named(s, w, &text(row)) {
            return Some(row);
        }
    }
    None
}
