//! A peer of the relay, and the streams between the two.
use crate::streams::OneByte;
use relay::relay;
use std::alloc::Global;
use std::cell::{Cell, RefCell};
use std::io;
use std::io::{BufWriter, ErrorKind, Read, Write};
use wire::WireFault;

/// A peer that replies to each frame with the same frame, as far as it was sent.
#[derive(Drop)]
pub(crate) struct Echo {
    sent: RefCell<Vec<u8>>,
    heard: Cell<usize>,
    /// Number of bytes that it sends back before it ends.
    room: usize,
}

impl Echo {
    pub(crate) fn new(alloc: Global, room: usize) -> Echo {
        Echo {
            sent: RefCell::new(Vec::new(alloc)),
            heard: Cell::new(0),
            room,
        }
    }

    /// Returns the number of bytes that the peer was sent.
    pub(crate) fn sent(&self) -> usize {
        match self.sent.try_borrow() {
            Ok(sent) => sent.len(),
            Err(_) => 0,
        }
    }
}

/// The stream from the peer, one byte per read.
#[derive(Drop)]
struct Back<'a>(&'a Echo);

impl<'a> Read for Back<'a> {
    fn read(&mut self, buffer: &mut [u8]) -> io::Result<usize> {
        let at = self.0.heard.get();
        if at >= self.0.room {
            return Ok(0);
        }
        let Ok(sent) = self.0.sent.try_borrow() else {
            return Ok(0);
        };
        let (Some(byte), Some(place)) = (sent.get(at), buffer.first_mut()) else {
            return Ok(0);
        };
        *place = *byte;
        self.0.heard.set(at.saturating_add(1));
        Ok(1)
    }
}

/// The stream to the peer, one byte per write.
#[derive(Drop)]
struct Forth<'a>(&'a Echo);

impl<'a> Write for Forth<'a> {
    fn write(&mut self, bytes: &[u8]) -> io::Result<usize> {
        let (Some(byte), Ok(mut sent)) = (bytes.first(), self.0.sent.try_borrow_mut()) else {
            return Ok(0);
        };
        sent.push(*byte)?;
        Ok(1)
    }

    fn flush(&mut self) -> io::Result<()> {
        Ok(())
    }
}

/// A writer that accepts one byte per write, up to some number of bytes, and then fails.
#[derive(Drop)]
struct Filling {
    output: Vec<u8>,
    room: usize,
}

impl Write for Filling {
    fn write(&mut self, bytes: &[u8]) -> io::Result<usize> {
        let Some(first) = bytes.first() else {
            return Ok(0);
        };
        if self.output.len() >= self.room {
            return Err(io::Error::from(ErrorKind::BrokenPipe));
        }
        self.output.push(*first)?;
        Ok(1)
    }

    fn flush(&mut self) -> io::Result<()> {
        Ok(())
    }
}

/// The result of a relay, and its output.
#[derive(Drop)]
pub(crate) struct Relayed {
    pub(crate) end: Result<(), WireFault>,
    pub(crate) output: Vec<u8>,
}

/// Relays an input between the peer and a writer with room for `room` bytes.
pub(crate) fn relay_to(alloc: Global, input: &[u8], peer: &Echo, room: usize) -> Option<Relayed> {
    let filling = Filling {
        output: Vec::new(alloc),
        room,
    };
    let mut output = BufWriter::new(alloc, filling).ok()?;
    let mut requests = BufWriter::new(alloc, Forth(peer)).ok()?;
    let mut dripping = OneByte {
        bytes: input,
        before: usize::MAX,
    };
    let end = relay(
        alloc,
        &mut dripping,
        &mut output,
        &mut Back(peer),
        &mut requests,
    );
    let (filling, _) = output.into_parts();
    Some(Relayed {
        end,
        output: filling.output,
    })
}
