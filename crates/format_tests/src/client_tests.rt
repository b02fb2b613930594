//! The two ends of the client: its error messages about arguments and socket, and the frames to and from the peer.
use crate::expect::{same, same_in_row};
use relay::run_client;
use std::alloc::Global;
use std::io;
use std::io::{BufWriter, ErrorKind, Read, Write};
use std::net::{Net, SocketAddr, TcpListener, TcpStream};
use std::os::unix::net::{SocketAddr as Path, UnixStream};

/// A network with one socket, or none.
#[derive(Drop)]
struct OneSocket(Option<UnixStream>);

impl Net for OneSocket {
    type Stream = TcpStream;

    type Listener = TcpListener;

    fn bind(&self, _addr: SocketAddr) -> io::Result<TcpListener> {
        Err(io::Error::from(ErrorKind::Unsupported))
    }

    fn connect(&self, _addr: SocketAddr) -> io::Result<TcpStream> {
        Err(io::Error::from(ErrorKind::Unsupported))
    }

    fn connect_unix(&self, _addr: &Path) -> io::Result<UnixStream> {
        match &self.0 {
            Some(stream) => stream.try_clone(),
            None => Err(io::Error::from(ErrorKind::ConnectionRefused)),
        }
    }
}

/// The outcome of a run of the client.
#[derive(Drop)]
struct Ended {
    status: u8,
    output: Vec<u8>,
    errors: Vec<u8>,
}

/// Returns true if a run ended with this status, this output and these errors.
fn has_ended(ended: &Ended, status: u8, output: &[u8], errors: &str) -> bool {
    ended.status == status
        && ended.output.as_slice() == output
        && ended.errors.as_slice() == errors.as_bytes()
}

/// Returns the arguments of a command line.
fn words_of(alloc: Global, encodings: &[&str]) -> Option<Vec<String>> {
    let mut words = Vec::new(alloc);
    for encoding in encodings {
        words.push(String::from_str(alloc, encoding).ok()?).ok()?;
    }
    Some(words)
}

/// Runs the client with these arguments and these bytes of input.
fn run(alloc: Global, net: &OneSocket, encodings: &[&str], bytes: &[u8]) -> Option<Ended> {
    let words = words_of(alloc, encodings)?;
    let mut input = bytes;
    let mut output = BufWriter::new(alloc, Vec::new(alloc)).ok()?;
    let mut errors = Vec::new(alloc);
    let status = run_client(
        alloc,
        net,
        Some(&words),
        &mut input,
        &mut output,
        &mut errors,
    );
    let (output, _) = output.into_parts();
    Some(Ended {
        status,
        output,
        errors,
    })
}

/// Returns true if a run without a socket ends with this status and this error message.
fn is_reported(alloc: Global, encodings: &[&str], status: u8, line: &str) -> Option<bool> {
    let ended = run(
        alloc,
        &OneSocket(None),
        encodings,
        &[4, 0, 0, 0, 1, 2, 3, 4],
    )?;
    Some(has_ended(&ended, status, &[], line))
}

#[test]
fn a_wrong_line_or_no_socket_is_reported(rt: HostRuntime) {
    let rows: [(&[&str], u8, &str); 3] = [
        (&[], 2, "machc: command line\n"),
        (&["/a", "/b"], 2, "machc: command line\n"),
        (&["/a"], 1, "machc: socket\n"),
    ];
    for (encodings, status, line) in rows {
        same_in_row(
            &rt,
            line,
            is_reported(rt.alloc(), encodings, status, line),
            Some(true),
        );
    }
}

/// Runs the client on a socket, and closes the client's end afterwards.
fn run_on(alloc: Global, stream: UnixStream, input: &[u8]) -> Option<Ended> {
    run(alloc, &OneSocket(Some(stream)), &["/a"], input)
}

/// Returns the bytes that a peer is sent until the client's end is closed.
fn sent_to(alloc: Global, mut peer: &UnixStream) -> Option<Vec<u8>> {
    let mut requests = Vec::new(alloc);
    peer.read_to_end(&mut requests).ok()?;
    Some(requests)
}

/// Runs the client on a peer that has sent these bytes. Returns the outcome and the bytes that the peer was sent.
fn with_peer(rt: &HostRuntime, input: &[u8], replies: &[u8]) -> Option<(Ended, Vec<u8>)> {
    let (peer, stream) = UnixStream::pair(rt).ok()?;
    let mut writer = &peer;
    writer.write_all(replies).ok()?;
    let ended = run_on(rt.alloc(), stream, input)?;
    Some((ended, sent_to(rt.alloc(), &peer)?))
}

/// Returns true if such a run ends with this status, with all that the peer has sent and with this error message, and
/// the peer was sent these bytes.
fn is_relayed(
    rt: &HostRuntime,
    input: &[u8],
    replies: &[u8],
    end: (u8, &str),
    sent: &[u8],
) -> Option<bool> {
    let (status, errors) = end;
    let (ended, requests) = with_peer(rt, input, replies)?;
    Some(has_ended(&ended, status, replies, errors) && requests.as_slice() == sent)
}

#[test]
fn a_socket_is_relayed_to(rt: HostRuntime) {
    let input = [4, 0, 0, 0, 1, 2, 3, 4, 5, 0, 0, 0, 1, 2, 3, 4, 5];
    let replies = [5, 0, 0, 0, 9, 9, 9, 9, 9, 4, 0, 0, 0, 8, 8, 8, 8];
    let seen = is_relayed(&rt, &input, &replies, (0, ""), &input);
    same(&rt, seen, Some(true));
}

#[test]
fn a_fault_is_reported(rt: HostRuntime) {
    let end = (1, "machc: wire fault 2: too long\n");
    let seen = is_relayed(&rt, &[255, 255, 0, 0], &[], end, &[]);
    same(&rt, seen, Some(true));
}
