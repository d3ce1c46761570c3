// Hex text: a byte is two hex digits; between bytes stand blanks, line ends, and comments from '#' to the line's end.
#![tactic(auto)]

ghost use Rattle.std.specs.Prelude.{◌≡◌, ◌≤◌, length};
ghost use Rattle.model.specs.Script as scripts;
ghost use Rattle.hex_text.specs.Text as hex;

// What a character is.
#[derive(Clone, Copy, Debug, PartialEq, Eq)]
pub enum Kind {
    Digit(u8),
    Blank,
    LineEnd,
    Hash,
    Other,
}

// Why a text is not hex text: a character that has no place in it, or a digit without a second one.
#[derive(Clone, Copy, Debug, PartialEq, Eq)]
pub enum Fault {
    Character(u8),
    LoneDigit,
}

// Where a reader stands: between two bytes, behind the first digit of a byte, in a comment, or at a fault, where it stays.
#[derive(Clone, Copy, Debug, PartialEq, Eq)]
pub enum Place {
    Between,
    Inside(u8),
    Comment,
    Stopped(Fault),
}

// Line and column are those of the next character, behind a first digit those of that digit, at a fault those of the fault.
#[derive(Clone, Copy)]
pub struct Reader {
    pub line: u64,
    pub column: u64,
    pub place: Place,
}

// What a character does: the reader behind it, and the byte that it completes.
#[derive(Clone, Copy)]
pub struct Advance {
    pub reader: Reader,
    pub given: Option<u8>,
}

// What a piece of text does: the reader behind it, and how many bytes it gave.
// A count and no slice: the bytes lie at the front of the text that was lent.
#[derive(Clone, Copy)]
pub struct Piece {
    pub reader: Reader,
    pub count: usize,
}

// ---- one character

// The digits are the ranges of `digit_of` in names, which tells other classes and stands on nothing that hex text needs.
#[tactic(auto, unfolding(crate::specs::Text::kind_of))]
fn kind_of(c: u8) -> Kind
    ensures { result ≡ hex.kind_of c }
{
    match c {
        b'0'..=b'9' => Kind::Digit(c - b'0'),
        b'A'..=b'F' => Kind::Digit(c - b'A' + 10),
        b'a'..=b'f' => Kind::Digit(c - b'a' + 10),
        b'#' => Kind::Hash,
        b'\n' => Kind::LineEnd,
        b' ' | b'\t' | b'\r' => Kind::Blank,
        _ => Kind::Other,
    }
}

#[tactic(auto, unfolding(crate::specs::Text::second_digit))]
fn second_digit(first: u8, k: Kind) -> Option<u8>
    ensures { result ≡ hex.second_digit first k }
{
    match k {
        Kind::Digit(v) => Some(first % 16 * 16 + v % 16),
        _ => None,
    }
}

#[tactic(auto, unfolding(crate::specs::Text::given_by))]
fn given_by(p: Place, k: Kind) -> Option<u8>
    ensures { result ≡ hex.given_by p k }
{
    match p {
        Place::Inside(first) => second_digit(first, k),
        _ => None,
    }
}

impl Reader {
    fn at(self, place: Place) -> Self
        ensures { result ≡ hex.at self place }
    {
        Reader { place, ..self }
    }

    fn along(self, n: u64, place: Place) -> Self
        ensures { result ≡ hex.along self n place }
    {
        let column = self.column.wrapping_add(n);
        Reader {
            column,
            place,
            ..self
        }
    }

    fn next_line(self) -> Self
        ensures { result ≡ hex.next_line self }
    {
        Reader {
            line: self.line.wrapping_add(1),
            column: 1,
            place: Place::Between,
        }
    }

    #[tactic(auto, unfolding(crate::specs::Text::after_byte))]
    fn after_byte(self, c: u8, k: Kind) -> Self
        ensures { result ≡ hex.after_byte self c k }
    {
        match k {
            Kind::Digit(v) => self.at(Place::Inside(v)),
            Kind::Blank => self.along(1, Place::Between),
            Kind::LineEnd => self.next_line(),
            Kind::Hash => self.along(1, Place::Comment),
            Kind::Other => self.at(Place::Stopped(Fault::Character(c))),
        }
    }

    #[tactic(auto, unfolding(crate::specs::Text::after_digit))]
    fn after_digit(self, c: u8, k: Kind) -> Self
        ensures { result ≡ hex.after_digit self c k }
    {
        match k {
            Kind::Digit(_) => self.along(2, Place::Between),
            Kind::Blank | Kind::LineEnd | Kind::Hash => self.at(Place::Stopped(Fault::LoneDigit)),
            Kind::Other => self.along(1, Place::Stopped(Fault::Character(c))),
        }
    }

    #[tactic(auto, unfolding(crate::specs::Text::in_comment))]
    fn in_comment(self, k: Kind) -> Self
        ensures { result ≡ hex.in_comment self k }
    {
        match k {
            Kind::LineEnd => self.next_line(),
            _ => self.along(1, Place::Comment),
        }
    }

    #[tactic(auto, unfolding(crate::specs::Text::reader_after))]
    fn reader_after(self, c: u8, k: Kind) -> Self
        ensures { result ≡ hex.reader_after self.place self c k }
    {
        match self.place {
            Place::Between => self.after_byte(c, k),
            Place::Inside(_) => self.after_digit(c, k),
            Place::Comment => self.in_comment(k),
            Place::Stopped(_) => self,
        }
    }

    // Before the first character.
    pub fn start() -> Self
        ensures { result ≡ hex.start }
    {
        Reader {
            line: 1,
            column: 1,
            place: Place::Between,
        }
    }

    // One character.
    #[tactic(auto, unfolding(crate::specs::Text::taken))]
    pub fn taken(self, c: u8) -> Advance
        ensures { result ≡ hex.taken self c }
    {
        let k = kind_of(c);
        Advance {
            reader: self.reader_after(c, k),
            given: given_by(self.place, k),
        }
    }

    // A piece of text, or all of it. Its bytes are written over its start; the rest of the piece is as it was. It is read and written in
    // the same slice, so that only an index can go over it.
    pub fn unhexed(self, text: &mut [u8]) -> Piece
        ensures value { result ≡ hex.piece_of (hex.unhexed self text.old) }
        ensures count_in_bounds { result.count ≤ length text.new }
        ensures text_after { text.new ≡ scripts.overwritten (hex.unhexed self text.old).bytes text.old }
    {
        let mut reader = self;
        let mut count = 0;
        for i in 0..text.len() {
            let next = reader.taken(text[i]);
            if let Some(byte) = next.given {
                text[count] = byte;
                count += 1;
            }
            reader = next.reader;
        }
        Piece { reader, count }
    }

    // At the end of the text: a first digit has no second one.
    #[tactic(auto, unfolding(crate::specs::Text::ended))]
    pub fn ended(self) -> Self
        ensures { result ≡ hex.ended self.place self }
    {
        match self.place {
            Place::Inside(_) => self.at(Place::Stopped(Fault::LoneDigit)),
            _ => self,
        }
    }
}
