//! `machmap STORE` prints the store in a folder as a drawing for Graphviz, and writes nothing to the store.
#![tactic(auto)]

use command_line::{question_in, read_words, tell_about};
use inspect::show_drawing;
use std::io::{self, BufWriter};
use std::process::ExitCode;

const HELP: &str = "\
usage: machmap STORE
       machmap --help | --version

Draws the store in the folder STORE for Graphviz: spaces with their names,
live ports, and an edge for each right. It writes nothing to the store.

It ends with status 0, with 1 and a line on standard error after a fault, with
2 where it is called otherwise. A folder named --help is ./--help. See
machmap(1).
";

fn main(rt: HostRuntime) -> ExitCode {
    let words = read_words(&rt);
    if let Some(question) = question_in(words.as_deref()) {
        let mut output = io::writer(&rt);
        return ExitCode::from(tell_about(question, "machmap", HELP, &mut output));
    }
    let Ok(mut output) = BufWriter::new(rt.alloc(), io::writer(&rt)) else {
        let _ = eprintln!(rt; "machmap: store fault 4: no memory");
        return ExitCode::from(1);
    };
    let mut errors = rt.stderr();
    ExitCode::from(show_drawing(rt.alloc(), &rt, words.as_deref(), &mut output, &mut errors))
}
