ghost use Rattle.std.specs.Prelude.{◌≡◌, ◌≢◌, ◌≤◌, [], length, take, drop};
ghost use Rattle.frame_service.specs.Boxes.{FillsFrom, inbox_remaining};

use bytes::BytesMut;
use std::alloc::Global;
use std::io::{self, ErrorKind, Read};
use std::marker::Model;

/// How many bytes are asked for at once, at least.
const LEAST_ROOM: usize = 8_192;

/// What came of asking a stream for more.
#[derive(Clone, Copy, Debug, PartialEq, Eq)]
pub enum Filled {
    /// Some bytes came, and there may be more.
    Some,
    /// None is there now.
    None,
    /// Nothing comes any more: the input has ended, or the stream failed.
    Over,
    /// Out of memory for more.
    NoMemory,
}

/// What a stream still has.
#[derive(Clone, Copy, Debug, PartialEq, Eq)]
pub enum Source {
    /// It may have more.
    Open,
    /// It has ended.
    Ended,
    /// It failed.
    Failed,
}

/// The bytes that came from a stream and aren't read yet. To read them waits for nothing: where none is there, a read
/// fails with `WouldBlock`, unless the stream has ended.
#[derive(Drop)]
pub struct Inbox<R: Read> {
    stream: R,
    bytes: BytesMut,
    source: Source,
}

impl<R: Read> Model for Inbox<R> {
    ghost use Rattle.std.specs.Io.KnownBytes.{IsAtEnd};
    ghost use Rattle.std.specs.Prelude.{◌≡◌};
    ghost use Rattle.frame_service.specs.Boxes.{InboxValue, inbox_code};
    ghost use Rattle.frame_service.specs.declared.inbox.Source.TheVariants.{Ended};

    ghost Value = { InboxValue R };

    ghost coded = { inbox_code R.code };

    ghost view = { λ b. record { stream = b.stream; bytes = b.bytes.items; source = b.source } };

    ghost invariant = { λ b. b.source ≡ Ended → IsAtEnd (R.remaining b.stream) };
}

impl<R: Read> Inbox<R> {
    /// With nothing that came yet.
    pub fn new(alloc: Global, stream: R) -> Self
        ensures { result ≡ record { stream = stream; bytes = []; source = Source.Open } }
    {
        Inbox {
            stream,
            bytes: BytesMut::new(alloc),
            source: Source::Open,
        }
    }

    /// Asks the stream once for what it has. What it gives comes after what had come before.
    pub fn fill(&mut self) -> Filled
        ensures { FillsFrom R.remaining self.old result self.new }
    {
        if self.source != Source::Open {
            return Filled::Over;
        }
        if self.bytes.reserve(LEAST_ROOM).is_err() {
            return Filled::NoMemory;
        }
        match self.bytes.read_from(&mut self.stream) {
            Ok(0) => {
                self.source = Source::Ended;
                Filled::Over
            }
            Ok(_) => Filled::Some,
            Err(e) => match e.kind() {
                ErrorKind::WouldBlock => Filled::None,
                ErrorKind::Interrupted => Filled::Some,
                _ => {
                    self.source = Source::Failed;
                    Filled::Over
                }
            },
        }
    }

    /// What came and isn't read yet.
    pub fn unread(&self) -> &[u8]
        ensures { result.now ≡ self.now.bytes }
    {
        self.bytes.as_slice()
    }

    /// Takes as many bytes off the front of what came: they were read where they lie.
    pub fn advance(&mut self, taken: usize)
        requires { taken ≤ length self.old.bytes }
        ensures { self.new ≡ record self.old { bytes = drop taken self.old.bytes } }
    {
        self.bytes.advance(taken);
    }

    /// What the stream still has, as far as is known.
    pub fn source(&self) -> Source
        ensures { result ≡ self.now.source }
    {
        self.source
    }
}

impl<R: Read> Read for Inbox<R> {
    ghost remaining = { inbox_remaining R.remaining };

    fn read(&mut self, buf: &mut [u8]) -> io::Result<usize> {
        if self.bytes.is_empty() {
            return match self.source {
                Source::Open => Err(ErrorKind::WouldBlock.into()),
                Source::Ended => Ok(0),
                Source::Failed => Err(ErrorKind::Other.into()),
            };
        }
        let count = copy_front(self.bytes.as_slice(), buf);
        self.bytes.advance(count);
        Ok(count)
    }
}

/// Copies as many bytes as there is room for. Returns how many.
fn copy_front(bytes: &[u8], buf: &mut [u8]) -> usize
    ensures bound { result ≤ length bytes.now }
    ensures room { result ≤ length buf.new }
    ensures bytes { take result buf.new ≡ take result bytes.now }
    ensures some { length bytes.now ≢ 0 → result ≡ 0 → length buf.new ≡ 0 }
{
    let count = bytes.len().min(buf.len());
    buf[..count].copy_from_slice(&bytes[..count]);
    count
}
