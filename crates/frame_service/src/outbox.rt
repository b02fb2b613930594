ghost use Rattle.std.specs.Prelude.{◌≡◌, [], length, OnOk};
ghost use Rattle.std.specs.Io.KnownBytes.{Keeps};
ghost use Rattle.frame_service.specs.Boxes.{Gives, outbox_contents};

use bytes::BytesMut;
use std::alloc::Global;
use std::io::{self, ErrorKind, Write};
use std::marker::Model;

/// The bytes that a stream is to be given and hasn't taken yet. A write waits for nothing, and neither does a flush.
#[derive(Drop)]
pub struct Outbox<W: Write> {
    stream: W,
    bytes: BytesMut,
}

impl<W: Write> Model for Outbox<W> {
    ghost use Rattle.frame_service.specs.Boxes.{OutboxValue, outbox_code};

    ghost Value = { OutboxValue W };

    ghost coded = { outbox_code W.code };

    ghost view = { λ b. record { stream = b.stream; bytes = b.bytes.items } };
}

impl<W: Write> Outbox<W> {
    /// With nothing to give.
    pub fn new(alloc: Global, stream: W) -> Self
        ensures { result ≡ record { stream = stream; bytes = [] } }
    {
        Outbox {
            stream,
            bytes: BytesMut::new(alloc),
        }
    }

    /// Returns how many bytes the stream hasn't taken yet.
    pub fn len(&self) -> usize
        ensures { result ≡ length self.now.bytes }
    {
        self.bytes.len()
    }
}

impl<W: Write> Write for Outbox<W> {
    ghost contents = { outbox_contents W.contents };

    /// Keeps the bytes for the stream. It fails only if memory runs out.
    fn write(&mut self, buf: &[u8]) -> io::Result<usize> {
        match self.bytes.extend_from_slice(buf) {
            Ok(()) => Ok(buf.len()),
            Err(_) => Err(ErrorKind::OutOfMemory.into()),
        }
    }

    #[tactic(auto, using(crate::proofs::Boxes::gives_both, crate::proofs::Boxes::gives_keep, crate::proofs::Boxes::gives_nothing))]
    /// Gives the stream as much as it takes now. What it doesn't take stays (`len`). It fails where the stream does.
    fn flush(&mut self) -> io::Result<()>
        ensures bytes { Keeps (outbox_contents W.contents self.old) (outbox_contents W.contents self.new) }
        ensures gives { Gives W.contents self.old self.new }
    {
        for _ in 0..u64::MAX {
            if self.bytes.is_empty() {
                return Ok(());
            }
            match self.give_some() {
                Ok(true) => {}
                Ok(false) => return Ok(()),
                Err(e) => return Err(e),
            }
        }
        Ok(())
    }
}

impl<W: Write> Outbox<W> {
    /// Gives the stream what it takes at once. Returns whether it may take more.
    fn give_some(&mut self) -> io::Result<bool>
        ensures { Gives W.contents self.old self.new }
    {
        match self.stream.write(self.bytes.as_slice()) {
            Ok(0) => Err(ErrorKind::WriteZero.into()),
            Ok(count) => {
                self.bytes.advance(count);
                Ok(true)
            }
            Err(e) => match e.kind() {
                ErrorKind::WouldBlock => Ok(false),
                ErrorKind::Interrupted => Ok(true),
                _ => Err(e),
            },
        }
    }
}
