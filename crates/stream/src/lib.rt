// Input of any length, read a piece at a time, and bytes that wait to go out.
#![tactic(auto)]

ghost use Rattle.std.specs.Prelude.{◌≡◌, ◌-◌, ◌≤◌, [], ◌++◌, length, take, OnOk};
ghost use Rattle.std.specs.ControlFlow.{ForContinue};
ghost use Rattle.std.specs.Io.KnownBytes.{Appends};

use arrayvec::ArrayVec;
use std::io;
use std::io::{Read, Write};
use std::ops::ControlFlow;

// ---- input

// Whether more of an input can come: it is open, it has ended, or reading it failed.
#[derive(Clone, Copy, Debug, PartialEq, Eq)]
pub enum Source {
    Open,
    Ended,
    Failed,
}

// The bytes of an input that are read and not used yet, at most N. They lie from `place` up to `filled`.
// Contracts see them by `unread_of`: under an `impl Model` whose view forgets the other bytes it couldn't be Copy.
#[derive(Clone, Copy)]
pub struct Input<const N: usize> {
    bytes: [u8; N],
    place: usize,
    filled: usize,
    source: Source,
    ghost ordered: { place ≤ filled },
    ghost in_range: { filled ≤ N },
}

impl<const N: usize> Input<N> {
    ghost use Rattle.stream.specs.Unread.{nothing_read, wants, passed, ReadOn, unread_of};

    pub fn new() -> Self
        ensures { unread_of result ≡ nothing_read }
    {
        Self {
            bytes: [0; N],
            place: 0,
            filled: 0,
            source: Source::Open,
        }
    }

    pub fn unread(&self) -> &[u8]
        ensures bytes { result.now ≡ (unread_of self.now).bytes }
        ensures fits { length result.now ≤ N }
    {
        let bytes = &self.bytes[..];
        &bytes[self.place..self.filled]
    }

    pub fn source(&self) -> Source
        ensures { result ≡ (unread_of self.now).source }
    {
        self.source
    }

    // Whether there is more to read before n bytes can be looked at.
    pub fn wants(&self, n: usize) -> bool
        ensures { result ≡ wants (unread_of self.now) n }
    {
        self.source == Source::Open && self.filled - self.place < n
    }

    // n bytes more are used.
    pub fn pass(&mut self, n: usize)
        ensures { unread_of self.new ≡ passed (unread_of self.old) n }
    {
        self.place += n.min(self.filled - self.place);
    }

    // What is not used yet goes to the front, and more is read behind it, where there is room; of a full space that counts as the end.
    pub fn read_on<R: Read>(&mut self, reader: &mut R) -> io::Result<usize>
        ensures { ReadOn N (R.remaining reader.old) (R.remaining reader.new)
            (unread_of self.old) (unread_of self.new) result }
    {
        let space = &mut self.bytes[..];
        space.copy_within(self.place..self.filled, 0);
        self.filled -= self.place;
        self.place = 0;
        let read = reader.read(&mut space[self.filled..]);
        match &read {
            Ok(0) => self.source = Source::Ended,
            Ok(n) => {
                self.filled += *n;
                self.source = Source::Open;
            }
            Err(_) => self.source = Source::Failed,
        }
        read
    }

    // As `read_on`; where that fails, the program of that name tells it.
    pub fn read_on_or_tell<R: Read>(
        &mut self,
        reader: &mut R,
        err: &impl Eprint,
        program: &str,
    ) -> io::Result<usize>
        ensures { ReadOn N (R.remaining reader.old) (R.remaining reader.new)
            (unread_of self.old) (unread_of self.new) result }
    {
        let read = self.read_on(reader);
        if read.is_err() {
            let _ = eprintln!(err; "{program}: standard input can't be read");
        }
        read
    }
}

// ---- output

// Bytes go behind those that wait, as many as there is room for.
pub fn store<const N: usize>(waiting: &mut ArrayVec<u8, N>, bytes: &[u8])
    ensures { waiting.new.items ≡ waiting.old.items ++ take (N - length waiting.old.items) bytes.now }
{
    // Mostly all fit. Cutting them to the room first takes 7 instructions more for each answer of `encoder`.
    if waiting.try_extend_from_slice(bytes).is_err() {
        let room = waiting.remaining_capacity();
        let _fits = waiting.try_extend_from_slice(&bytes[..room]);
    }
}

// What waits goes out, and nothing waits any more, even where that fails.
pub fn send<const N: usize, W: Write>(
    waiting: &mut ArrayVec<u8, N>,
    writer: &mut W,
) -> io::Result<()>
    ensures emptied { waiting.new.items ≡ [] }
    ensures sent { OnOk result (Appends (W.contents writer.old) (W.contents writer.new) waiting.old.items) }
{
    let sent = writer.write_all(waiting.as_slice());
    waiting.clear();
    sent
}

// As `send`; where that fails, the program of that name tells it, and breaks off.
pub fn flush<const N: usize, W: Write>(
    waiting: &mut ArrayVec<u8, N>,
    writer: &mut W,
    err: &impl Eprint,
    program: &str,
) -> ControlFlow<()>
    ensures emptied { waiting.new.items ≡ [] }
    ensures sent { ForContinue result (λ _. Appends (W.contents writer.old) (W.contents writer.new) waiting.old.items) }
{
    if send(waiting, writer).is_err() {
        let _ = eprintln!(err; "{program}: standard output can't be written, the rest is lost");
        return ControlFlow::Break(());
    }
    ControlFlow::Continue(())
}
