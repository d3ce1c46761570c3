// A step as a line of lesson text: docs/LESSONS.md, "From bytes to text". All names come from the table of crate names.
#![tactic(auto)]

ghost use Rattle.std.specs.Prelude.{◌≡◌, ◌%◌, ◌^◌};
ghost use Rattle.names.specs.Rows as rows;
ghost use Rattle.text.specs.Lines as lines;
ghost use Rattle.phrases.specs.Frames as framing;
ghost use Rattle.phrases.specs.Lines as told;
ghost use Rattle.phrases.specs.Names as naming;
ghost use Rattle.phrases.specs.Steps as steps;

use model::Step;
use names::Group;
use names::rows::{Found, Numbers, numbers_of};
use text::Line;

mod frames; // a frame, and bytes as they are

// ---- names

// A name of the table, with the index in place of the percent sign.
pub fn name(l: Line, row: usize, index: u32) -> Line
    ensures { result ≡ lines.put_all l (naming.name_text row index) }
{
    let text = names::table::text(row);
    let mut line = l;
    for c in &text[..8] {
        match *c {
            0..=b' ' => return line,
            // Not `letter`: by value the line is copied at each letter.
            b'%' => line = line.decimal(u64::from(index)),
            c => line.push(c),
        }
    }
    line
}

// The register's name, or its offset where no register is there.
#[tactic(auto, unfolding(crate::specs::Names::register_text))]
pub fn register(l: Line, offset: u32) -> Line
    ensures { result ≡ lines.put_all l (naming.register_text offset) }
{
    match names::register_at(offset) {
        Some(f) => name(l, f.row, f.index),
        None => l.hex(offset, 4),
    }
}

// ---- fields

// A line with fields, and what they leave of the word.
#[derive(Clone, Copy)]
struct Said {
    line: Line,
    rest: u32,
}

// The number of a field of several bits.
#[tactic(auto, using(text::proofs::Putting::behind), unfolding(crate::specs::Names::amount_text, text::specs::Lines::put_all))]
fn amount(l: Line, size: u32, digits: u32, n: u32) -> Line
    ensures { result ≡ lines.put_all l (naming.amount_text size digits n) }
{
    if size == 1 {
        l
    } else if digits == 0 {
        l.byte(b' ').decimal(u64::from(n))
    } else {
        l.byte(b' ').hex(n, digits)
    }
}

// The lowest bits of a number; by std's checked_shl it would be no shorter, for 32 bits and more are all of it.
fn lowest(n: u32, size: u32) -> u32
    ensures { result ≡ n % 2 ^ size }
{
    if 32 <= size { n } else { n % (1 << size) }
}

// What is shown of a field: its number, and that number where it stands in the word.
#[derive(Clone, Copy)]
struct Field {
    value: u32,
    placed: u32,
}

// Whether a field is not shown. `shown` is a byte of the table of names, 1 for what a standard identifier has (STID) and 2 for what an
// extended one has (EXID), 0 for all others.
fn is_other(shown: u32, w: u32) -> bool
    ensures { result ≡ naming.is_other shown w }
{
    match shown {
        1 => bits::bit(2, w),
        2 => !bits::bit(2, w),
        _ => false,
    }
}

fn field_of(f: Found, size: u32, shown: u32, w: u32) -> Option<Field>
    requires { (size ≡ (rows.numbers f.row).size) × (shown ≡ (rows.numbers f.row).shown) }
    ensures { result ≡ naming.field_of f w }
{
    let place = f.place();
    if 32 <= place || is_other(shown, w) {
        return None;
    }
    match lowest(w >> place, size) {
        0 => None,
        value => Some(Field {
            value,
            placed: value << place,
        }),
    }
}

fn with_field(s: Said, n: Numbers, f: Found, w: u32) -> Said
    requires { n ≡ rows.numbers f.row }
    ensures { result ≡ naming.with_field s f w }
{
    let Some(field) = field_of(f, n.size, n.shown, w) else {
        return s;
    };
    let line = name(s.line.byte(b' '), f.row, f.index);
    Said {
        line: amount(line, n.size, n.digits, field.value),
        rest: s.rest.saturating_sub(field.placed),
    }
}

fn with_row(s: Said, row: usize, w: u32) -> Said
    ensures { result ≡ naming.with_fields s (naming.row_fields row) w }
{
    let n = numbers_of(row);
    let mut said = s;
    for index in 0..n.count {
        said = with_field(said, n, Found { row, index }, w);
    }
    said
}

// Offset and word stay two parameters here and below: they are what Step::Write has, and callers of `fields` hold no pair of them.
fn all_fields(l: Line, offset: u32, w: u32) -> Said
    ensures { result ≡ naming.said_of l (naming.fields_at offset) w }
{
    let rows = names::rows_of(Group::Fields(names::register_at(offset)));
    let first = rows.first as usize;
    let mut said = Said { line: l, rest: w };
    for row in first..first + rows.count as usize {
        said = with_row(said, row, w);
    }
    said
}

// The fields of a word that are not 0, each with a blank in front.
#[tactic(auto, unfolding(crate::specs::Names::said_of, crate::specs::Names::fields_text))]
pub fn fields(l: Line, offset: u32, w: u32) -> Line
    ensures { result ≡ lines.put_all l (naming.fields_text offset w) }
{
    all_fields(l, offset, w).line
}

// ---- steps

// The word of a step, with a blank behind it.
#[tactic(auto, using(text::proofs::Putting::behind), unfolding(text::specs::Lines::put_all))]
fn begun(l: Line, row: usize) -> Line
    ensures { result ≡ lines.put_all l (naming.leading row) }
{
    name(l, row, 0).byte(b' ')
}

#[tactic(auto, using(text::proofs::Putting::behind), unfolding(text::specs::Lines::put_all))]
fn number(l: Line, w: u32) -> Line
    ensures { result ≡ lines.put_all l (steps.number_text w) }
{
    l.byte(b' ').hex(w, 8)
}

// What is written: number and fields (`full`), or the fields where they say all of it, or the number.
fn written(l: Line, offset: u32, w: u32, full: bool) -> Line
    ensures { result ≡ lines.put_all l (steps.written_text offset w full) }
{
    if full {
        return fields(number(l, w), offset, w);
    }
    let said = all_fields(l, offset, w);
    if said.rest == 0 && w != 0 {
        said.line
    } else {
        number(l, w)
    }
}

#[tactic(auto, using(text::proofs::Putting::behind), unfolding(crate::specs::Steps::write_text))]
fn write(l: Line, offset: u32, w: u32, full: bool) -> Line
    ensures { result ≡ lines.put_all l (steps.write_text offset w full) }
{
    written(register(begun(l, 2), offset), offset, w, full)
}

#[tactic(auto, unfolding(crate::specs::Steps::result_text))]
fn outcome(l: Line, res: u8) -> Line
    ensures { result ≡ lines.put_all l (steps.result_text res) }
{
    if res < 9 {
        name(l, 14 + usize::from(res), 0)
    } else {
        l.decimal(u64::from(res))
    }
}

#[tactic(auto, using(text::proofs::Putting::behind), unfolding(crate::specs::Steps::error_text, text::specs::Lines::put_all))]
fn error(l: Line, code: u8, by: u8) -> Line
    ensures { result ≡ lines.put_all l (steps.error_text code by) }
{
    let a = begun(l, 9).decimal(u64::from(code));
    a.byte(b' ').decimal(u64::from(by))
}

// A step, without line end. `full`: with the number of a written word in front of its fields, which is all that it chooses.
#[tactic(auto, using(text::proofs::Putting::behind), unfolding(crate::specs::Steps::step_text))]
pub fn step(l: Line, e: Step, full: bool) -> Line
    ensures { result ≡ lines.put_all l (steps.step_text e full) }
{
    match e {
        Step::Reset => name(l, 0, 0),
        Step::Read(offset) => register(begun(l, 1), u32::from(offset)),
        Step::Write(offset, w) => write(l, u32::from(offset), w, full),
        Step::Idle => name(l, 3, 0),
        Step::BitTimes(n) => begun(l, 4).decimal(u64::from(n)),
        Step::Activity => name(l, 5, 0),
        Step::Start => name(l, 6, 0),
        Step::Outcome(result) => outcome(begun(l, 7), result),
        Step::Receive(x) => frames::frame(l, x),
        Step::ReceiveError(code, by) => error(l, code, by),
    }
}

// Bytes as they are: `bytes 0B 00 1C`.
pub fn bytes(l: Line, record: &[u8]) -> Line
    ensures { result ≡ lines.put_all l (framing.bytes_text «record».now) }
{
    frames::bytes(l, record)
}

// ---- interrupt lines

// Those of the byte that are up, each with a blank in front.
pub fn lines(l: Line, up: u8) -> Line
    ensures { result ≡ lines.put_all l (told.lines_text up) }
{
    let mut line = l;
    for i in 0..4 {
        if (up >> i) % 2 == 1 {
            line = name(line.byte(b' '), 23 + i, 0);
        }
    }
    line
}
