//! `machls STORE` prints the store in a folder, and writes nothing to it.
#![tactic(auto)]

use command_line::{question_in, read_words, tell_about};
use inspect::show;
use std::io::{self, BufWriter};
use std::process::ExitCode;

const HELP: &str = "\
usage: machls STORE
       machls --help | --version

Prints the store in the folder STORE as lines: its epoch and how many records
it holds, each space with its names, and each live port. It writes nothing to
the store.

It ends with status 0, with 1 and a line on standard error after a fault, with
2 where it is called otherwise. A folder named --help is ./--help. See
machls(1).
";

fn main(rt: HostRuntime) -> ExitCode {
    let words = read_words(&rt);
    if let Some(question) = question_in(words.as_deref()) {
        let mut output = io::writer(&rt);
        return ExitCode::from(tell_about(question, "machls", HELP, &mut output));
    }
    let Ok(mut output) = BufWriter::new(rt.alloc(), io::writer(&rt)) else {
        let _ = eprintln!(rt; "machls: store fault 4: no memory");
        return ExitCode::from(1);
    };
    let mut errors = rt.stderr();
    ExitCode::from(show(rt.alloc(), &rt, words.as_deref(), &mut output, &mut errors))
}
