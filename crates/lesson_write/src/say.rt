// What is said on standard error: a line and a column, what was found there, what is allowed.
use lines::Rule as LineRule;
use names::Group;
use names::rows::numbers_of;
use names::scan::{Class, byte_at, run_end, word_at};
use std::io::{Stderr, Write};
use text::Line;

// What a text may break: a rule of a line by itself; lines that don't go together, some with the line of the repeat that they speak of; a
// line or a text that has no good end.
#[derive(Clone, Copy)]
pub(crate) enum Rule {
    Line(LineRule),
    TooDeep,
    NoRepeat,
    TooMuch(u64),
    TooLong,
    NotDone(u64),
}

// No more of a word is shown.
const LONGEST_WORD: usize = 40;

// ---- what was found

fn is_blank(c: u8) -> bool {
    matches!(c, b' ' | b'\t' | b'\r')
}

// What stands from a place up to the next blank, read by place since past the end of a line a blank is read. A byte that would move the place on a screen is shown as a question mark.
// Text, line and place one by one, here and below: what is said is put behind the text, and the other two are what is looked at.
fn word(l: Line, s: &[u8], place: usize) -> Line {
    let n = run_end(s, place, Class::NoBlank).saturating_sub(place);
    let mut m = l.byte(b'\'');
    for i in 0..n.min(LONGEST_WORD) {
        let c = byte_at(s, place.wrapping_add(i));
        m = m.byte(if c < 32 || c == 127 { b'?' } else { c });
    }
    if LONGEST_WORD < n {
        m = m.put(b"..");
    }
    m.byte(b'\'')
}

// A comment is the end of its line; it begins behind a blank or at the line's start, before which a blank is read.
// Line, place and rule, as `lines::Fault` with the line; the rules of lines that don't go together have no such fault.
fn found(l: Line, s: &[u8], place: usize, rule: Rule) -> Line {
    match rule {
        Rule::TooLong => return l.put(b"more bytes"),
        Rule::NotDone(_) => return l.put(b"the end of the file"),
        _ => {}
    }
    let c = byte_at(s, place);
    let before = byte_at(s, place.wrapping_sub(1));
    if s.len() <= place || (c == b'#' && is_blank(before)) {
        return l.put(b"the end of the line");
    }
    if is_blank(c) {
        return l.put(b"a blank");
    }
    word(l, s, place)
}

// ---- what is allowed

// The names of a group, whose rows are numbers, with commas between them; of a name with a number the first and the last.
fn listed(l: Line, g: Group) -> Line {
    let rows = names::rows_of(g);
    let mut m = l;
    for k in 0..rows.count {
        let row = rows.first as usize + k as usize;
        let a = if l.at < m.at { m.put(b", ") } else { m };
        m = phrases::name(a, row, 0);
        let n = numbers_of(row).count;
        if 1 < n {
            m = phrases::name(m.put(b" to "), row, n - 1);
        }
    }
    m
}

// The fields of the register at an offset, or that there are none; where the value of a write begins also a number.
fn fields(l: Line, s: &[u8], place: usize, offset: u32) -> Line {
    let step = word_at(s, 0);
    let register = word_at(s, step.to);
    let first = word_at(s, register.to).from == place;
    let a = if first {
        l.put(b"a number from 0 to 4294967295 or a field of ")
    } else {
        l.put(b"a field of ")
    };
    let found = names::register_at(offset);
    let b = phrases::register(a, offset).put(b": ");
    let c = listed(b, Group::Fields(found));
    if b.at < c.at {
        return c;
    }
    let d = if first {
        l.put(b"a number from 0 to 4294967295, for ")
    } else {
        l.put(b"the end of the line, for ")
    };
    if found.is_none() {
        return phrases::register(d.put(b"no register is at "), offset);
    }
    phrases::register(d, offset).put(b" has no fields")
}

// In a line by itself; behind the text of some rules come names.
fn allowed_in_line(l: Line, s: &[u8], place: usize, rule: LineRule) -> Line {
    match rule {
        LineRule::WantsStep => listed(l.put(b"one of "), Group::Steps),
        LineRule::WantsEnd => l.put(b"the end of the line"),
        LineRule::WantsNumber(most) => l.put(b"a number from 0 to ").decimal(u64::from(most)),
        LineRule::WantsRegister => listed(
            l.put(b"a number from 0 to 65535 or one of "),
            Group::Registers,
        ),
        LineRule::WantsValue(offset) | LineRule::WantsField(offset) => fields(l, s, place, offset),
        LineRule::Twice => l.put(b"what is not given yet"),
        LineRule::OtherValue(value) => l
            .put(b"the value that the number has there, ")
            .decimal(u64::from(value)),
        LineRule::WantsResult => {
            listed(l.put(b"a number from 0 to 255 or one of "), Group::Results)
        }
        LineRule::WantsIdentifier => {
            l.put(b"an identifier of three hex digits up to 7FF, or of eight up to 1FFFFFFF")
        }
        LineRule::WantsHash => l.put(b"# behind the identifier"),
        LineRule::NoFd => l.put(b"data or R behind one #: this would be a frame of CAN FD"),
        LineRule::WantsData => l
            .put(b"up to eight pairs of hex digits, or R with a length code from 0 to 8; ")
            .put(b"behind eight pairs and behind R8 also _ with a length code from 9 to F"),
        LineRule::WantsCode => l.put(b"one length code from 9 to F"),
        LineRule::WantsPairs => l.put(b"pairs of hex digits"),
        LineRule::WantsExpectation => listed(
            l.put(b"a number from 0 to 4294967295 or one of "),
            Group::Expectations,
        ),
        LineRule::WantsLines => {
            listed(l.put(b"one of "), Group::Lines).put(b"; none stands alone")
        }
        LineRule::WantsRefusal => l.put(b"a code from 1 to 255"),
        LineRule::WantsLinesOrEnd => l.put(b"lines, or the end of the line"),
    }
}

fn allowed(l: Line, s: &[u8], place: usize, rule: Rule) -> Line {
    match rule {
        Rule::Line(rule) => allowed_in_line(l, s, place, rule),
        Rule::TooDeep => l.put(b"done, for 8 repeats are open, and no more can be"),
        Rule::NoRepeat => l.put(b"done behind a repeat, and none is open"),
        Rule::TooMuch(line) => l
            .put(b"done, for the lines behind the repeat of line ")
            .decimal(line)
            .put(b" take at most 60000 bytes"),
        Rule::TooLong => l.put(b"a line of at most 1000"),
        Rule::NotDone(line) => l
            .put(b"done, for the repeat of line ")
            .decimal(line)
            .put(b" is open"),
    }
}

// A rule that is broken at a place of a line.
pub(crate) fn fault(stderr: &Stderr, number: u64, s: &[u8], place: usize, rule: Rule) {
    let column = (place as u64).wrapping_add(1);
    let a = Line::empty()
        .put(b"line ")
        .decimal(number)
        .put(b", column ")
        .decimal(column)
        .put(b": found ");
    let b = found(a, s, place, rule).put(b"; allowed is ");
    let c = allowed(b, s, place, rule).byte(b'\n');
    let _ = stderr.write_all(c.as_bytes());
}
