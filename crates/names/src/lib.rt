// Registers, fields and the words of a lesson by name: the one table of names, and how a word of a text is looked up in it.
#![tactic(auto)]

ghost use Rattle.std.specs.Prelude.{◌≡◌};
ghost use Rattle.names.specs.Rows as rows;
ghost use Rattle.names.specs.Table as tables;

use rows::{FIELDS, Found, REGISTERS, find, numbers_of};
use scan::{Word, byte_at, value};

pub mod rows; // the rows of the table
pub mod scan; // words, letters and numbers in a row of bytes
pub mod table; // the table as bytes

// What is told by name: the registers, the fields of a register, which has none where it is none, what begins a line of a lesson, the
// result of an own frame, the interrupt lines, what is expected.
#[derive(Clone, Copy, Debug, PartialEq, Eq)]
pub enum Group {
    Registers,
    Fields(Option<Found>),
    Steps,
    Results,
    Lines,
    Expectations,
}

// Rows that follow one another: the first, and how many there are.
// Not a Range: the definition `rows_of` gives first and count, and two bytes of a register's row hold them.
#[derive(Clone, Copy)]
pub struct Span {
    pub first: u32,
    pub count: u32,
}

// The rows of a group.
#[tactic(auto, unfolding(crate::specs::Table::rows_of))]
pub fn rows_of(g: Group) -> Span
    ensures { result ≡ tables.rows_of g }
{
    match g {
        Group::Registers => Span {
            first: 30,
            count: 23,
        },
        Group::Fields(Some(register)) => {
            let n = numbers_of(register.row);
            Span {
                first: n.digits,
                count: n.shown,
            }
        }
        Group::Fields(None) => Span { first: 0, count: 0 },
        Group::Steps => Span {
            first: 0,
            count: 14,
        },
        Group::Results => Span {
            first: 14,
            count: 9,
        },
        Group::Lines => Span {
            first: 23,
            count: 5,
        },
        Group::Expectations => Span {
            first: 28,
            count: 2,
        },
    }
}

// Whether the digits of a word are a number as it is written: with no zero in front.
fn is_plain(s: &[u8], w: Word) -> bool
    ensures { result ≡ rows.is_plain s.now w }
{
    let count = w.rest.saturating_sub(w.digits);
    count == 1 || (count != 0 && byte_at(s, w.digits) != b'0')
}

// The row that a word names in a group, with the number in the word.
#[tactic(auto, unfolding(crate::specs::Table::named, crate::specs::Rows::indexed))]
pub fn named(s: &[u8], w: Word, g: Group) -> Option<Found>
    ensures { result ≡ tables.named s.now w g }
{
    let x = rows_of(g);
    let row = find(s, w, x.first, x.count)?;
    let count = numbers_of(row).count;
    if count <= 1 {
        return Some(Found { row, index: 0 });
    }
    if !is_plain(s, w) {
        return None;
    }
    let index = value(s, w.digits, w.rest, false)?;
    if count <= index {
        return None;
    }
    Some(Found { row, index })
}

// The row of the register at an offset: the first that has it, and its index there. A row is its number, so the loop is over numbers.
#[tactic(auto, unfolding(crate::specs::Rows::index_at))]
pub fn register_at(offset: u32) -> Option<Found>
    ensures { result ≡ tables.register_at offset }
{
    for row in REGISTERS..FIELDS {
        if let Some(index) = numbers_of(row).index_of(offset) {
            return Some(Found { row, index });
        }
    }
    None
}
