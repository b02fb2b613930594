//! The socket's file.
use std::fs;
use std::io::ErrorKind;
use std::net::Net;
use std::os::unix::fs::FileTypeExt;
use std::os::unix::net::{UnixListener, UnixStream};
use std::rt::Files;

/// A listener at the path, or `None` if a server is there, or none can be made. A file of a server that is gone is
/// removed.
pub(crate) fn bind<R: Files + Net>(rt: &R, path: &str) -> Option<UnixListener> {
    match UnixListener::bind(rt, path) {
        Ok(listener) => Some(listener),
        Err(e) => {
            if e.kind() != ErrorKind::AddrInUse {
                return None;
            }
            bind_again(rt, path)
        }
    }
}

/// Only a refusal by a socket says that its server is gone. A plain file refuses too, and is left alone.
fn bind_again<R: Files + Net>(rt: &R, path: &str) -> Option<UnixListener> {
    let there = fs::symlink_metadata(rt, path).ok()?;
    if !there.file_type().is_socket() || !is_gone(rt, path) {
        return None;
    }
    fs::remove_file(rt, path).ok()?;
    UnixListener::bind(rt, path).ok()
}

/// Returns whether no server listens at a socket's file.
fn is_gone<R: Net>(rt: &R, path: &str) -> bool {
    match UnixStream::connect(rt, path) {
        Ok(_) => false,
        Err(e) => e.kind() == ErrorKind::ConnectionRefused,
    }
}
