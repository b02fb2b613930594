ghost use Rattle.std.specs.Prelude.{◌≡◌};
ghost use Rattle.script.specs.vocabulary.Spaced.{words_of};
ghost use Rattle.script.specs.Reading.{stop_at};

use crate::vocabulary::count_words;
use std::error::Error;
use std::fmt;

/// What was expected at the place where reading stopped.
#[derive(Clone, Copy, Debug, PartialEq, Eq)]
pub enum Expected {
    /// The name of a call.
    CallName,
    /// A number, or a word for one.
    Number,
    /// The bytes of a message, two hexadecimal digits each, or `none`.
    Bytes,
    /// A message: the disposition of its remote right, or `bytes`.
    Message,
    /// An item of at most 4095 elements: its type, or `bytes`.
    Item,
    /// The name of a return code.
    Code,
    /// `=` and the results of the call, or `!` and a return code.
    Results,
    /// The label of the next result or argument.
    Label,
    /// `yes` or `no`.
    YesOrNo,
    /// `receive`, `send` or `send_once`.
    RightKind,
    /// The end of the line.
    End,
}

impl fmt::Display for Expected {
    fn fmt<W: fmt::Write>(&self, f: &mut fmt::Formatter<W>) -> fmt::Result {
        f.write_str(match self {
            Expected::CallName => "the name of a call",
            Expected::Number => "a number or a word for one",
            Expected::Bytes => "bytes, two hexadecimal digits each, or none",
            Expected::Message => "a message",
            Expected::Item => "an item of at most 4095 elements",
            Expected::Code => "a return code",
            Expected::Results => "what the call answered",
            Expected::Label => "the word for what follows",
            Expected::YesOrNo => "yes or no",
            Expected::RightKind => "receive, send or send_once",
            Expected::End => "the end of the line",
        })
    }
}

/// The reason why a line can't be read.
#[derive(Clone, Copy, Debug, PartialEq, Eq)]
pub enum LineFault {
    /// At byte `column` of the line something else was expected.
    Unreadable {
        /// The offset in bytes of that place.
        column: usize,
        /// What was expected there.
        expected: Expected,
    },
    /// Out of memory for the contents of the line.
    NoMemory,
}

impl fmt::Display for LineFault {
    fn fmt<W: fmt::Write>(&self, f: &mut fmt::Formatter<W>) -> fmt::Result {
        match self {
            LineFault::Unreadable { column, expected } => {
                write!(f, "column {column}: expected {expected}")
            }
            LineFault::NoMemory => f.write_str("no memory"),
        }
    }
}

impl Error for LineFault {}

/// The reason why a script can't be read.
#[derive(Clone, Copy, Debug, PartialEq, Eq)]
pub struct ScriptFault {
    /// The number of the line, from 1.
    pub line: usize,
    /// The fault of the line.
    pub fault: LineFault,
}

impl fmt::Display for ScriptFault {
    fn fmt<W: fmt::Write>(&self, f: &mut fmt::Formatter<W>) -> fmt::Result {
        let line = self.line;
        let fault = self.fault;
        write!(f, "line {line}, {fault}")
    }
}

impl Error for ScriptFault {}

/// The place where reading words stopped.
#[derive(Clone, Copy)]
pub(crate) struct Stop {
    /// The number of words that were left.
    pub(crate) left: usize,
    /// What was expected before them.
    pub(crate) expected: Expected,
}

/// The reason why words can't be read.
#[derive(Clone, Copy)]
pub(crate) enum Fault {
    /// Something else was expected.
    Unreadable(Stop),
    /// Out of memory for the contents.
    NoMemory,
}

impl Fault {
    /// Returns the fault that something else was expected at the start of this text.
    pub(crate) fn expected(expected: Expected, text: &[u8]) -> Fault
        ensures { result ≡ Fault.Unreadable (stop_at expected (words_of text.now)) }
    {
        Fault::Unreadable(Stop {
            left: count_words(text),
            expected,
        })
    }
}
