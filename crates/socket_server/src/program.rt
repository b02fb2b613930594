ghost use Rattle.std.specs.Prelude.{◌≡◌, ◌⊎◌, IfErr, OnErr, IfOk, OnOk};
ghost use Rattle.std.specs.Arc.{arc_value};
ghost use Rattle.std.specs.Io.KnownBytes.{Appends, Keeps};
ghost use Rattle.socket_server.specs.Reporting.{HasReported, HasReportedOf, ready_line};
ghost use Rattle.wire.specs.Writing.{AppendsPart};

use crate::bound::bind;
use crate::host::Host;
use crate::threads::{accept, start_loops, start_workers};
use codes::MAX_RECORDS;
use disk::Disk;
use server::SocketEnd;
use sessions::{Admissions, EntryBlock, Founding, MOST_SESSIONS, NewMark, OpenGate, Shared};
use std::alloc::{AllocGlobal, Global};
use std::io::Write;
use std::marker::Brand;
use std::net::{Net, TcpListener, TcpStream};
use std::os::unix::net::UnixListener;
use std::rt::Files;
use std::sync::Arc;
use std::sync::ledger::Blank;
use store_fault::StoreFault;
use system::{Opened, open};
use wire::{WireFault, write_bytes};

/// Serves the store on a disk, whose folder is locked (`server::lock_disk`), at the socket's path, as `serve_disk`
/// does, and keeps the lock until that has ended. If the folder isn't locked, the run ends that way, and nothing is
/// written.
pub fn serve_locked<
    K: Drop,
    D: Disk + Drop + Send + 'static,
    R: Host + Net<Listener = TcpListener, Stream = TcpStream>,
    O: Write,
>(rt: R, path: &str, locked: Result<(K, D), SocketEnd>, output: &mut O) -> SocketEnd
    ensures ended { IfErr locked (λ end. (result ≡ end) × Keeps (O.contents output.old) (O.contents output.new)) }
    ensures reported { IfOk locked (λ locked. HasReportedOf D.honest (D.view locked.1).seen (O.contents output.old)
        (O.contents output.new) result) }
{
    match locked {
        Ok((lock, disk)) => {
            let end = serve_disk(rt, path, disk, output);
            drop(lock);
            end
        }
        Err(end) => end,
    }
}

/// Opens the store on a disk, and serves it at the socket's path, as `serve_opened` does. The fault of a store that
/// can't be opened is that of `recover::open`, and then nothing is written. It ends only after a fault.
pub fn serve_disk<
    D: Disk + Drop + Send + 'static,
    R: Host + Net<Listener = TcpListener, Stream = TcpStream>,
    O: Write,
>(rt: R, path: &str, disk: D, output: &mut O) -> SocketEnd
    ensures reported { HasReportedOf D.honest (D.view disk).seen (O.contents output.old) (O.contents output.new)
        result }
{
    match open(rt.alloc(), disk) {
        Ok(opened) => serve_opened(rt, path, opened, output),
        Err((fault, disk)) => {
            drop(disk);
            SocketEnd::Store(fault)
        }
    }
}

/// Binds the socket's path, says on the output that it is ready, and serves an opened store there, each connection as a
/// session of the store's history. It ends only after a fault.
pub fn serve_opened<
    D: Disk + Drop + Send + 'static,
    R: Host + Net<Listener = TcpListener, Stream = TcpStream>,
    O: Write,
>(rt: R, path: &str, opened: Opened<D>, output: &mut O) -> SocketEnd
    ensures reported { HasReported (O.contents output.old) (O.contents output.new) result }
{
    let (listener, block, mark, path) = match prepare(&rt, path) {
        Ok(prepared) => prepared,
        Err(end) => {
            drop(opened);
            return end;
        }
    };
    let blank = Blank::new(u64::from(MOST_SESSIONS));
    serve_history::<Brand, _, _, _>(rt, path, &listener, opened, block, blank, mark, output)
}

/// The listener at a socket's path, the entry block of the history's first entries, the mark of what is stored of it,
/// and the path.
fn prepare<R: Files + Net + AllocGlobal>(
    rt: &R,
    path: &str,
) -> Result<(UnixListener, Arc<EntryBlock, Global>, NewMark, String), SocketEnd>
    ensures err { IfErr result (λ end. (end ≡ SocketEnd.Socket) ⊎ (end ≡ SocketEnd.Store StoreFault.NoMemory)) }
{
    let no_memory = SocketEnd::Store(StoreFault::NoMemory);
    let listener = bind(rt, path).ok_or(SocketEnd::Socket)?;
    let block = first_block(rt.alloc()).ok_or(no_memory)?;
    let path = String::from_str(rt.alloc(), path).or(Err(no_memory))?;
    match NewMark::new(rt.alloc()) {
        Ok(mark) => Ok((listener, block, mark, path)),
        Err(_) => Err(no_memory),
    }
}

/// The entry block of the history's first entries.
fn first_block(alloc: Global) -> Option<Arc<EntryBlock, Global>> {
    let block = EntryBlock::new(alloc, MAX_RECORDS as usize).ok()?;
    Arc::new(alloc, block).ok()
}

/// Serves a history that begins with an opened store, until the store fails.
fn serve_history<
    L: Founding + Send + Sync + 'static,
    D: Disk + Drop + Send + 'static,
    R: Host + Net<Listener = TcpListener, Stream = TcpStream>,
    O: Write,
>(
    rt: R,
    path: String,
    listener: &UnixListener,
    opened: Opened<D>,
    block: Arc<EntryBlock, Global>,
    blank: Blank,
    mark: NewMark,
    output: &mut O,
) -> SocketEnd
    requires base { opened.kernel ≡ L.base }
    requires block { arc_value block ≡ L.first }
    requires blank { (blank.name ≡ L.name) × (blank.parts ≡ L.parts) × (L.parts ≡ MOST_SESSIONS) }
    requires mark { mark ≡ L.table }
    ensures reported { HasReported (O.contents output.old) (O.contents output.new) result }
{
    let (book, admissions) = Admissions::open(blank);
    let mark = mark.named();
    let Ok(shared) = Shared::<L, D, OpenGate>::new(rt.alloc(), opened, block, book, mark, OpenGate)
    else {
        return SocketEnd::Store(StoreFault::NoMemory);
    };
    let Ok(shared) = Arc::new(rt.alloc(), shared) else {
        return SocketEnd::Store(StoreFault::NoMemory);
    };
    serve_shared(rt, path.as_str(), listener, &shared, admissions, output)
}

/// Starts the loops and the workers, says that connections are accepted, and serves them until the store fails.
fn serve_shared<
    L: Founding + Send + Sync + 'static,
    D: Disk + Drop + Send + 'static,
    R: Host + Net<Listener = TcpListener, Stream = TcpStream>,
    O: Write,
>(
    rt: R,
    path: &str,
    listener: &UnixListener,
    shared: &Arc<Shared<L, D, OpenGate>, Global>,
    admissions: Admissions<L>,
    output: &mut O,
) -> SocketEnd
    ensures reported { HasReported (O.contents output.old) (O.contents output.new) result }
{
    if start_loops(rt, rt.alloc(), shared, path).is_err() {
        return SocketEnd::Socket;
    }
    let Ok(doors) = start_workers(rt, shared) else {
        return SocketEnd::Socket;
    };
    if report_ready(output).is_err() {
        return SocketEnd::Socket;
    }
    SocketEnd::Store(accept(rt, listener, shared, &doors, admissions))
}

/// Says that connections are accepted.
fn report_ready<O: Write>(output: &mut O) -> Result<(), WireFault>
    ensures ok { OnOk result (Appends (O.contents output.old) (O.contents output.new) ready_line) }
    ensures part { OnErr result (AppendsPart (O.contents output.old) (O.contents output.new) ready_line) }
{
    write_bytes(output, b"machipcd: ready\n")?;
    if output.flush().is_err() {
        return Err(WireFault::Device);
    }
    Ok(())
}
