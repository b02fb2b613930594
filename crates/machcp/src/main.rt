//! `machcp STORE COPY` copies the store in a folder into a new folder, and writes nothing to the store.
#![tactic(auto)]

use command_line::{question_in, read_words, tell_about};
use inspect::copy_store;
use std::io;
use std::process::ExitCode;

const HELP: &str = "\
usage: machcp STORE COPY
       machcp --help | --version

Copies the store in the folder STORE, which may be in use, to a new store in
the folder COPY, which must not be there: the same spaces, names, ports and
messages, in epoch 0 and without a record. All of it is on the disk when machcp
ends. It writes nothing to STORE.

It ends with status 0, with 1 and a line on standard error after a fault, with
2 where it is called otherwise. See machcp(1).
";

fn main(rt: HostRuntime) -> ExitCode {
    let words = read_words(&rt);
    if let Some(question) = question_in(words.as_deref()) {
        let mut output = io::writer(&rt);
        return ExitCode::from(tell_about(question, "machcp", HELP, &mut output));
    }
    let mut errors = rt.stderr();
    ExitCode::from(copy_store(rt.alloc(), &rt, words.as_deref(), &mut errors))
}
