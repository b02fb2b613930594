//! `machipcd STORE` serves the store in a folder on its standard input and output; `machipcd --socket PATH STORE`
//! serves it to any number of connections on a Unix socket.
#![tactic(auto)]

use command_line::{question_in, read_words, tell_about};
use server::{lock_disk, lone};
use socket_server::serve_locked;
use std::io::{self, BufReader, BufWriter};
use std::process::ExitCode;
use wire::WireFault;

const HELP: &str = "\
usage: machipcd STORE
       machipcd --socket PATH STORE
       machipcd --help | --version

Serves the ports and rights of the store in the folder STORE, which has to be
there: frames of calls on standard input, replies on standard output, or with
--socket any number of connections on the Unix socket PATH. A call is on the
disk before its reply is written. A store has one server at a time.

It ends with status 0 at the end of its input, with 1 and a line on standard
error after a fault or where the store is in use, with 2 where it is called
otherwise. A folder named --help is ./--help. See machipcd(1).
";

fn main(rt: HostRuntime) -> ExitCode {
    let words = read_words(&rt);
    if let Some(question) = question_in(words.as_deref()) {
        let mut output = io::writer(&rt);
        return ExitCode::from(tell_about(question, "machipcd", HELP, &mut output));
    }
    if let Some([option, path, store]) = words.as_deref() {
        if option.as_str() == "--socket" {
            let mut output = io::writer(&rt);
            let locked = lock_disk(rt.alloc(), rt, store.as_str());
            let end = serve_locked(rt, path.as_str(), locked, &mut output);
            let mut errors = rt.stderr();
            let _ = end.tell(&mut errors);
            return ExitCode::from(1);
        }
    }
    serve_alone(rt, words.as_deref())
}

/// Serves one connection, the standard input and output.
fn serve_alone(rt: HostRuntime, words: Option<&[String]>) -> ExitCode {
    let (Ok(mut input), Ok(mut output)) = (
        BufReader::new(rt.alloc(), rt.reader()),
        BufWriter::new(rt.alloc(), io::writer(&rt)),
    ) else {
        let _ = eprint!(rt; "machipcd: {}", WireFault::NoMemory.line());
        return ExitCode::from(1);
    };
    let mut errors = rt.stderr();
    ExitCode::from(lone(rt.alloc(), &rt, words, &mut input, &mut output, &mut errors))
}
