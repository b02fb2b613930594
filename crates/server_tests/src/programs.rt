ghost use Rattle.std.specs.Io.{WritesAtMost};

use crate::expect::{same, same_in_row};
use crate::frames::{ALLOCATE, ALLOCATED, TYPE};
use crate::streams::{Filling, Seen};
use command_line::read_words;
use server::lone;
use std::env::FillError;
use std::rt::Env;
use std::{env, fs, io};

/// The outcome of a program's run with some words.
#[derive(Drop)]
pub(crate) struct Ended {
    pub(crate) status: u8,
    pub(crate) output: Vec<u8>,
    pub(crate) errors: Vec<u8>,
}

/// A run of the program. It has no clause, so that a test's proof carries nothing of it.
fn run(rt: &HostRuntime, words: Option<&[String]>, bytes: &[u8]) -> Ended {
    let mut input = bytes;
    let mut output = Vec::new(rt.alloc());
    let mut errors = Vec::new(rt.alloc());
    let status = lone(rt.alloc(), rt, words, &mut input, &mut output, &mut errors);
    Ended {
        status,
        output,
        errors,
    }
}

/// Returns whether a run ended with this status, and wrote this to each of the two.
pub(crate) fn has_ended(ended: &Ended, status: u8, output: &[u8], errors: &str) -> bool {
    ended.status == status
        && ended.output.as_slice() == output
        && ended.errors.as_slice() == errors.as_bytes()
}

/// Returns whether a run with this input ends in this way.
pub(crate) fn ends(
    rt: &HostRuntime,
    words: Option<&[String]>,
    bytes: &[u8],
    end: (u8, &[u8], &str),
) -> bool {
    let (status, output, errors) = end;
    has_ended(&run(rt, words, bytes), status, output, errors)
}

/// A path in the folder for temporary files.
fn path_of(rt: &HostRuntime, name: &str) -> Option<String> {
    let mut folder = env::temp_dir(rt).ok()?;
    folder.push(name).ok()?;
    String::from_str(rt.alloc(), folder.as_path().as_str()).ok()
}

fn make_folder(rt: &HostRuntime, path: &str) -> io::Result<()> {
    let _ = fs::remove_dir_all(rt, path);
    fs::create_dir(rt, path)
}

/// A new folder, as the program's words.
pub(crate) fn folder(rt: &HostRuntime, name: &str) -> Option<Vec<String>> {
    let path = path_of(rt, name)?;
    make_folder(rt, path.as_str()).ok()?;
    let mut words = Vec::new(rt.alloc());
    words.push(path).ok()?;
    Some(words)
}

/// Returns whether the folder could be removed.
fn removed(rt: &HostRuntime, words: &[String]) -> bool {
    match words {
        [path] => fs::remove_dir_all(rt, path.as_str()).is_ok(),
        _ => false,
    }
}

/// A command line of any bytes, with a space between its words.
#[derive(Clone, Copy)]
struct Line<'a> {
    bytes: &'a [u8],
}

/// Copies a word to the front of a buffer.
fn fill(word: &[u8], buffer: &mut [u8]) -> Result<usize, FillError>
    ensures bound { WritesAtMost result buffer.new }
{
    match buffer.get_mut(..word.len()) {
        Some(front) => {
            front.copy_from_slice(word);
            Ok(word.len())
        }
        None => Err(FillError::TooLong),
    }
}

impl<'a> Env for Line<'a> {
    fn arg(&self, i: usize, buffer: &mut [u8]) -> Result<usize, FillError> {
        match self.bytes.split(|byte| *byte == b' ').nth(i) {
            Some(word) => fill(word, buffer),
            None => Err(FillError::NotPresent),
        }
    }

    fn var(&self, _name: &str, _buffer: &mut [u8]) -> Result<usize, FillError> {
        Err(FillError::NotPresent)
    }

    fn var_at(&self, _i: usize, _buffer: &mut [u8]) -> Result<usize, FillError> {
        Err(FillError::NotPresent)
    }
}

/// Returns whether a program that was started by such a line ends with this status and this line of errors.
fn is_acknowledged(rt: &HostRuntime, bytes: &[u8], status: u8, line: &str) -> bool {
    let words = read_words(&(Line { bytes }, rt.alloc()));
    ends(rt, words.as_deref(), &ALLOCATE, (status, &[], line))
}

static LINES: [(&'static [u8], u8, &'static str); 6] = [
    (b"machipcd", 2, "machipcd: command line\n"),
    (b"machipcd /nowhere", 1, "machipcd: store fault 1: device\n"),
    (b"machipcd / /", 2, "machipcd: command line\n"),
    (b"machipcd / / /", 2, "machipcd: command line\n"),
    (b"machipcd /nowher\xff", 2, "machipcd: command line\n"),
    (b"machipcd / \xff", 2, "machipcd: command line\n"),
];

#[test]
fn words_have_a_status_and_a_line(rt: HostRuntime) {
    for (bytes, status, line) in &LINES {
        same_in_row(
            &rt,
            *bytes,
            is_acknowledged(&rt, bytes, *status, line),
            true,
        );
    }
}

/// A file of a folder.
fn file_of(rt: &HostRuntime, words: &[String], file: &str) -> Option<String> {
    let folder = words.first()?;
    format!(in rt.alloc(); "{folder}/{file}").ok()
}

/// Writes these bytes to a file of the folder.
fn write_file(rt: &HostRuntime, words: &[String], file: &str, bytes: &[u8]) -> Option<()> {
    let path = file_of(rt, words, file)?;
    fs::write(rt, path.as_str(), bytes).ok()
}

/// An image whose header has a byte that isn't 0 where it has to be.
static DAMAGED: [u8; 48] = [
    0x5a, 2, 1, 0, 0, 0, 0, 0, 0, 0, 0, 0, 0, 0, 0, 0, 0, 0, 0, 0, 0, 0, 0, 0, 0, 0, 0, 0, 0, 0, 0,
    0, 0, 0, 0, 0, 0, 0, 0, 0, 0, 0, 0, 0, 0, 0, 0, 0,
];

/// Returns whether a store gets that image, what is reported of it, and whether its folder could be removed.
fn tells_damage_in(rt: &HostRuntime, name: &str) -> Option<(Option<()>, [bool; 2])> {
    let words = folder(rt, name)?;
    let written = write_file(rt, &words, "image0", &DAMAGED);
    let line = "machipcd: store fault 3: damaged\n";
    let acknowledged = ends(rt, Some(&words), &[], (1, &[], line));
    Some((written, [acknowledged, removed(rt, &words)]))
}

#[test]
fn a_damaged_slot_is_reported(rt: HostRuntime) {
    let seen = tells_damage_in(&rt, "machipcd_damaged_store");
    same(&rt, seen, Some((Some(()), [true; 2])));
}

fn tells_wire_faults_in(rt: &HostRuntime, name: &str) -> Option<[bool; 3]> {
    let words = folder(rt, name)?;
    let short = (1, [].as_slice(), "machipcd: wire fault 1: short\n");
    let long = (1, [].as_slice(), "machipcd: wire fault 2: too long\n");
    Some([
        ends(rt, Some(&words), &[3, 0, 0, 0], short),
        ends(rt, Some(&words), &[253, 255, 0, 0], long),
        removed(rt, &words),
    ])
}

#[test]
fn wire_faults_have_a_line(rt: HostRuntime) {
    let seen = tells_wire_faults_in(&rt, "machipcd_wire_faults");
    same(&rt, seen, Some([true; 3]));
}

/// A run whose output takes `room` bytes and then fails.
fn run_into(rt: &HostRuntime, words: &[String], bytes: &[u8], room: usize) -> Ended {
    let seen = Seen::new();
    let mut input = bytes;
    let mut writer = Filling {
        output: Vec::new(rt.alloc()),
        room,
        seen: &seen,
    };
    let mut errors = Vec::new(rt.alloc());
    let words = Some(words);
    let status = lone(rt.alloc(), rt, words, &mut input, &mut writer, &mut errors);
    Ended {
        status,
        output: writer.output,
        errors,
    }
}

/// Returns whether calls whose replies aren't taken beyond `room` bytes end with that fault's line.
fn tells_writer(
    rt: &HostRuntime,
    words: &[String],
    calls: &[u8],
    replies: &[u8],
    room: usize,
) -> bool {
    let front = replies.get(..room).unwrap_or(&[]);
    let line = "machipcd: wire fault 3: device\n";
    has_ended(&run_into(rt, words, calls, room), 1, front, line)
}

/// The same for no byte of an allocation's reply and for twelve; whether another run knows the first name, since its
/// call was stored; and the same for a second reply of which four bytes are taken.
fn tells_writers_in(rt: &HostRuntime, name: &str) -> Option<[bool; 5]> {
    let words = folder(rt, name)?;
    Some([
        tells_writer(rt, &words, &ALLOCATE, &ALLOCATED, 0),
        tells_writer(rt, &words, &ALLOCATE, &ALLOCATED, 12),
        ends(rt, Some(&words), &TYPE, (0, &TYPED, "")),
        tells_writer(rt, &words, &TYPE_TWICE, &TYPED_TWICE, 20),
        removed(rt, &words),
    ])
}

#[test]
fn a_writer_that_fails_is_reported(rt: HostRuntime) {
    let seen = tells_writers_in(&rt, "machipcd_writer_faults");
    same(&rt, seen, Some([true; 5]));
}

/// The length of a file of the folder.
fn length(rt: &HostRuntime, words: &[String], file: &str) -> Option<usize> {
    let path = file_of(rt, words, file)?;
    Some(fs::read(rt, path.as_str()).ok()?.len())
}

/// Returns whether a run ends well with this output, and the lengths of the image's and the segment's file then.
fn answered(
    rt: &HostRuntime,
    words: &[String],
    bytes: &[u8],
    output: &[u8],
) -> (bool, [Option<usize>; 2]) {
    let is_answered = ends(rt, Some(words), bytes, (0, output, ""));
    let lengths = [length(rt, words, "image0"), length(rt, words, "segment0")];
    (is_answered, lengths)
}

/// The type of the name 0x100.
const TYPED: [u8; 16] = [12, 0, 0, 0, 2, 0, 0, 0, 0, 0, 0, 0, 0, 0, 2, 0];

/// The call for that type, made twice, and its replies.
const TYPE_TWICE: [u8; 24] = [
    8, 0, 0, 0, 2, 0, 0, 0, 0, 1, 0, 0, 8, 0, 0, 0, 2, 0, 0, 0, 0, 1, 0, 0,
];

const TYPED_TWICE: [u8; 32] = [
    12, 0, 0, 0, 2, 0, 0, 0, 0, 0, 0, 0, 0, 0, 2, 0, 12, 0, 0, 0, 2, 0, 0, 0, 0, 0, 0, 0, 0, 0, 2,
    0,
];

/// Two runs on a store, and whether its folder could be removed.
type Runs = ([(bool, [Option<usize>; 2]); 2], bool);

fn answered_twice(rt: &HostRuntime, name: &str) -> Option<Runs> {
    let words = folder(rt, name)?;
    let runs = [
        answered(rt, &words, &ALLOCATE, &ALLOCATED),
        answered(rt, &words, &TYPE, &TYPED),
    ];
    Some((runs, removed(rt, &words)))
}

#[test]
fn a_second_run_knows_the_name(rt: HostRuntime) {
    let seen = answered_twice(&rt, "machipcd_second_run");
    let run = (true, [Some(52), Some(70)]);
    same(&rt, seen, Some(([run, run], true)));
}
