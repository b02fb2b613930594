//! `machc SOCKET` sends the frames of its standard input to a server's socket, and writes the replies to its standard
//! output. `machc --script SOCKET` does the same for the lines of a script, and prints each with its answer.
#![tactic(auto)]

use command_line::{question_in, read_words, tell_about};
use relay::{run_client, run_shell, script_socket};
use std::io::{self, BufReader, BufWriter, IsTerminal};
use std::process::ExitCode;
use wire::WireFault;

const HELP: &str = "\
usage: machc SOCKET
       machc --script SOCKET
       machc --help | --version

Sends the frames of its standard input to the server on the Unix socket SOCKET,
one after another, and writes the replies to its standard output.

With --script it reads lines of a script, one call a line, and prints each with
its answer, as a line of a script. A line that has an answer is compared. What
is wrong, or another answer, is printed as a comment.

It ends with status 0 at the end of its input, with 1 where a line was wrong or
had another answer, with 1 and a line on standard error after a fault, with 2
where it is called otherwise. A socket named --help is ./--help. See machc(1).
";

fn main(rt: HostRuntime) -> ExitCode {
    let words = read_words(&rt);
    if let Some(question) = question_in(words.as_deref()) {
        let mut output = io::writer(&rt);
        return ExitCode::from(tell_about(question, "machc", HELP, &mut output));
    }
    let reader = rt.reader();
    let is_terminal = reader.is_terminal();
    let (Ok(mut input), Ok(mut output)) = (
        BufReader::new(rt.alloc(), reader),
        BufWriter::new(rt.alloc(), io::writer(&rt)),
    ) else {
        let _ = eprint!(rt; "machc: {}", WireFault::NoMemory.line());
        return ExitCode::from(1);
    };
    let mut errors = rt.stderr();
    if let Some(socket) = script_socket(words.as_deref()) {
        return ExitCode::from(run_shell(
            rt.alloc(),
            &rt,
            socket,
            &mut input,
            &mut output,
            &mut errors,
            is_terminal,
        ));
    }
    ExitCode::from(run_client(
        rt.alloc(),
        &rt,
        words.as_deref(),
        &mut input,
        &mut output,
        &mut errors,
    ))
}
