// A line of text, by value. Each method adds to the line; a byte for which there is no room is left out, and the
// longest line leaves room.
#![tactic(auto)]

ghost use Rattle.std.specs.Prelude.{◌≡◌, replicate};
ghost use Rattle.text.specs.Lines as lines;
ghost use Rattle.text.specs.Numbers as numbers;

const ROOM: usize = 512;

// There is no heap, so the bytes lie in the line with their number beside them, and numbers are put here and not by `write!`, of which
// no contract says what it writes. No invariant bounds the number and no view hides the bytes behind it: `copied` answers at any number,
// and `empty` says all bytes. That a line extends another is a fact about two lines, which no type of one can say.
#[derive(Clone, Copy)]
pub struct Line {
    pub bytes: [u8; ROOM],
    pub at: usize,
}

impl Line {
    pub fn empty() -> Self
        ensures { result ≡ record { bytes = replicate 512 0; at = 0 } }
    {
        Self {
            bytes: [0; ROOM],
            at: 0,
        }
    }

    // In place, for loops: by value the line of 520 bytes is copied at each byte.
    pub fn push(&mut self, b: u8)
        ensures extends { lines.Extends self.old self.new }
        ensures value { self.new ≡ lines.added self.old b }
    {
        if self.at < ROOM {
            self.bytes[self.at] = b;
            self.at += 1;
        }
    }

    pub fn byte(self, b: u8) -> Self
        ensures extends { lines.Extends self result }
        ensures value { result ≡ lines.added self b }
    {
        let mut line = self;
        line.push(b);
        line
    }

    pub fn put(self, text: &[u8]) -> Self
        ensures extends { lines.Extends self result }
        ensures value { result ≡ lines.put_all self text.now }
    {
        let mut line = self;
        for b in text {
            line.push(*b);
        }
        line
    }

    // n spaces.
    #[tactic(auto, using(crate::proofs::Extending::extends_refl, crate::proofs::Extending::extends_trans))]
    fn spaces(self, n: usize) -> Self
        ensures { lines.Extends self result }
    {
        let mut line = self;
        for _ in 0..n {
            line.push(b' ');
        }
        line
    }

    // On to a column, by two spaces at least.
    #[tactic(auto, using(crate::proofs::Extending::extends_refl, crate::proofs::Extending::extends_trans))]
    pub fn column(self, to: usize) -> Self
        ensures { lines.Extends self result }
    {
        let line = self.spaces(2);
        line.spaces(to.saturating_sub(line.at))
    }

    // The text.
    pub fn as_bytes(&self) -> &[u8]
        ensures { result.now ≡ lines.text_of self.now }
    {
        &self.bytes[..self.at.min(ROOM)]
    }

    // Copies the text to the start of a row and says how long it is.
    pub fn copied(self, row: &mut [u8]) -> usize
        ensures { lines.Copied self row.old result row.new }
    {
        let n = self.at.min(ROOM).min(row.len());
        row[..n].copy_from_slice(&self.bytes[..n]);
        n
    }

    // ---- numbers

    pub fn decimal(self, n: u64) -> Self
        ensures extends { lines.Extends self result }
        ensures value { result ≡ lines.put_all self (numbers.decimal n) }
    {
        let mut digits = [0u8; 20];
        let k = io::decimal(n, &mut digits);
        self.put(&digits[..k])
    }

    // At the right of a width.
    #[tactic(auto, using(crate::proofs::Extending::extends_refl, crate::proofs::Extending::extends_trans))]
    pub fn right(self, n: u64, width: usize) -> Self
        ensures { lines.Extends self result }
    {
        let digits = n.checked_ilog10().unwrap_or(0) as usize + 1;
        self.spaces(width.saturating_sub(digits)).decimal(n)
    }

    // The lowest k hex digits of a word.
    pub fn digits(self, w: u32, k: u32) -> Self
        ensures extends { lines.Extends self result }
        ensures value { result ≡ lines.put_all self (numbers.digits w k) }
    {
        let mut line = self;
        for j in (0..k).rev() {
            line.push(digit_at(w, j));
        }
        line
    }

    // The same, told as hex digits.
    #[tactic(auto, using(crate::proofs::Extending::extends_trans))]
    pub fn hex(self, w: u32, k: u32) -> Self
        ensures extends { lines.Extends self result }
        ensures value { result ≡ lines.put_all self (numbers.hex w k) }
    {
        self.put(b"0x").digits(w, k)
    }

    // ---- a text with a number in it

    // A byte, or the number in place of a percent sign.
    #[tactic(auto, unfolding(crate::specs::Lines::put_all))]
    pub fn letter(self, b: u8, n: u64) -> Self
        ensures extends { lines.Extends self result }
        ensures value { result ≡ lines.put_all self (numbers.letter b n) }
    {
        match b {
            b'%' => self.decimal(n),
            _ => self.byte(b),
        }
    }

    // A text, with the number in place of each percent sign.
    pub fn said(self, text: &[u8], n: u64) -> Self
        ensures extends { lines.Extends self result }
        ensures value { result ≡ lines.put_all self (numbers.said text.now n) }
    {
        let mut line = self;
        for b in text {
            line = line.letter(*b, n);
        }
        line
    }
}

// Digit j of a word, counted from the lowest.
#[tactic(auto, using(crate::proofs::Putting::no_digit_lem))]
fn digit_at(w: u32, j: u32) -> u8
    ensures { result ≡ numbers.digit_at w j }
{
    if 8 <= j {
        return b'0';
    }
    let digit = ((w >> (4 * j)) % 16) as u8;
    if digit < 10 {
        b'0' + digit
    } else {
        b'A' - 10 + digit
    }
}
