use mio::unix::SourceFd;
use mio::{Interest, Registry, Token};
use sessions::Peer;
use std::alloc::{AllocError, Global};
use std::io::{self, Read, Write};
use std::net::Shutdown;
use std::os::fd::AsRawFd;
use std::os::unix::net::UnixStream;
use std::sync::Arc;

/// One handle of a socket that several parts of a connection use: what reads, what writes, and what asks whether the
/// other side is still there. Only the conversation that owns the first two reads and writes: nothing returns the socket.
#[derive(Drop)]
pub struct Stream {
    socket: Arc<UnixStream, Global>,
}

impl Stream {
    /// Creates the first handle. Reads and writes don't wait from now on.
    pub fn new(alloc: Global, socket: UnixStream) -> io::Result<Self> {
        socket.set_nonblocking(true)?;
        Ok(Stream {
            socket: Arc::new(alloc, socket)?,
        })
    }

    /// Returns another handle.
    pub fn again(&self) -> Result<Self, AllocError> {
        let socket = Arc::try_clone(&self.socket)?;
        Ok(Stream { socket })
    }

    /// Registers the socket with `registry`.
    pub(crate) fn register(&self, registry: &Registry, token: Token) -> io::Result<()> {
        let descriptor = self.socket.as_raw_fd();
        registry.register(&mut SourceFd(&descriptor), token, Interest::READABLE)
    }

    /// Has room for output reported too, or no longer.
    pub(crate) fn report_room(
        &self,
        registry: &Registry,
        token: Token,
        awaits_room: bool,
    ) -> io::Result<()> {
        let descriptor = self.socket.as_raw_fd();
        let interest = if awaits_room {
            Interest::READABLE | Interest::WRITABLE
        } else {
            Interest::READABLE
        };
        registry.reregister(&mut SourceFd(&descriptor), token, interest)
    }

    /// Closes both sides.
    pub(crate) fn close(&self) {
        let _ = self.socket.shutdown(Shutdown::Both);
    }
}

impl Read for Stream {
    fn read(&mut self, buf: &mut [u8]) -> io::Result<usize> {
        let mut socket: &UnixStream = &self.socket;
        socket.read(buf)
    }
}

impl Write for Stream {
    fn write(&mut self, buf: &[u8]) -> io::Result<usize> {
        let mut socket: &UnixStream = &self.socket;
        socket.write(buf)
    }

    fn flush(&mut self) -> io::Result<()> {
        Ok(())
    }
}

impl Peer for Stream {
    /// A write of nothing fails once the other side is closed. A peer that only stopped writing is still there.
    fn is_gone(&self) -> bool {
        let mut socket: &UnixStream = &self.socket;
        socket.write(&[]).is_err()
    }
}
