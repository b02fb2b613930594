//! The programs that list a store and draw it.
use crate::expect::{same, same_in_row};
use crate::frames::{ALLOCATE, ALLOCATED};
use crate::inspected::lines_of;
use crate::programs::{self, Ended, folder};
use disk::FileDisk;
use inspect::{show, show_drawing};
use std::fs;
use std::fs::Permissions;
use std::os::unix::fs::PermissionsExt;
use std::time::SystemTime;

/// Runs the program that lists a store, or the one that draws it. It has no clause, so that a test's proof carries
/// nothing of it.
fn run(rt: &HostRuntime, words: Option<&[String]>, is_drawing: bool) -> Ended {
    let mut output = Vec::new(rt.alloc());
    let mut errors = Vec::new(rt.alloc());
    let status = if is_drawing {
        show_drawing(rt.alloc(), rt, words, &mut output, &mut errors)
    } else {
        show(rt.alloc(), rt, words, &mut output, &mut errors)
    };
    Ended {
        status,
        output,
        errors,
    }
}

/// A status, and what is written to the output and to the errors.
type End = (u8, &'static str, &'static str);

/// Returns whether a run ends in this way.
fn ends(rt: &HostRuntime, words: Option<&[String]>, is_drawing: bool, end: End) -> bool {
    let (status, output, errors) = end;
    let ended = run(rt, words, is_drawing);
    programs::has_ended(&ended, status, output.as_bytes(), errors)
}

/// The lines of an empty store.
const LISTED: End = (0, "epoch 0 records 0\nspace 1\n", "");

/// A path that is no folder, `count` times.
fn paths(rt: &HostRuntime, count: u32) -> Option<Vec<String>> {
    let mut words = Vec::new(rt.alloc());
    for _ in 0..count {
        let path = String::from_str(rt.alloc(), "/nowhere/at/all").ok()?;
        words.push(path).ok()?;
    }
    Some(words)
}

/// Returns whether a run with `count` words that are no folders ends in this way.
fn ends_with(rt: &HostRuntime, count: u32, is_drawing: bool, end: End) -> Option<bool> {
    let words = paths(rt, count)?;
    Some(ends(rt, Some(&words), is_drawing, end))
}

/// How each program ends if its words can't be read, or there are none, or two, or three.
static NO_WORDS: [(bool, End); 2] = [
    (false, (2, "", "machls: command line\n")),
    (true, (2, "", "machmap: command line\n")),
];

/// How the lister ends if its only word is no folder.
const NOWHERE: End = (1, "", "machls: store fault 1: device\n");

#[test]
fn words_have_a_status_and_a_line(rt: HostRuntime) {
    for (is_drawing, end) in &NO_WORDS {
        same_in_row(&rt, *end, ends(&rt, None, *is_drawing, *end), true);
        for count in [0, 2, 3] {
            let seen = ends_with(&rt, count, *is_drawing, *end);
            same_in_row(&rt, (*end, count), seen, Some(true));
        }
    }
    same(&rt, ends_with(&rt, 1, false, NOWHERE), Some(true));
}

/// Returns whether an empty folder is listed, and whether it can then be removed as an empty one.
fn lists_empty(rt: &HostRuntime, name: &str) -> Option<[bool; 2]> {
    let words = folder(rt, name)?;
    let is_listed = ends(rt, Some(&words), false, LISTED);
    let is_removed = match words.as_slice() {
        [path] => fs::remove_dir(rt, path.as_str()).is_ok(),
        _ => false,
    };
    Some([is_listed, is_removed])
}

#[test]
fn an_empty_folder_stays_empty(rt: HostRuntime) {
    let seen = lists_empty(&rt, "machls_empty_folder");
    same(&rt, seen, Some([true; 2]));
}

/// Gives a file a mode.
fn set_mode(rt: &HostRuntime, path: &str, mode: u32) -> Option<()> {
    fs::set_permissions(rt, path, Permissions::from_mode(mode)).ok()
}

/// The same for a file in a folder.
fn set_mode_in(rt: &HostRuntime, folder: &str, name: &str, mode: u32) -> Option<()> {
    let path = format!(in rt.alloc(); "{folder}/{name}").ok()?;
    set_mode(rt, path.as_str(), mode)
}

/// Whether the two files of a store got one mode, and its folder another.
type Modes = [Option<()>; 3];

fn set_modes(rt: &HostRuntime, folder: &str, files: u32, mode: u32) -> Modes {
    [
        set_mode_in(rt, folder, "image0", files),
        set_mode_in(rt, folder, "segment0", files),
        set_mode(rt, folder, mode),
    ]
}

/// When a file was changed last.
fn changed(rt: &HostRuntime, path: &str) -> Option<SystemTime> {
    fs::metadata(rt, path).ok()?.modified().ok()
}

/// The bytes of a file, and when it and its folder were changed last.
type Seen = (Vec<u8>, SystemTime, SystemTime);

fn seen(rt: &HostRuntime, folder: &str, name: &str) -> Option<Seen> {
    let path = format!(in rt.alloc(); "{folder}/{name}").ok()?;
    let file = changed(rt, path.as_str())?;
    let parent = changed(rt, folder)?;
    let bytes = fs::read(rt, path.as_str()).ok()?;
    Some((bytes, file, parent))
}

/// The same for both files of a new store.
fn seen_both(rt: &HostRuntime, folder: &str) -> Option<(Seen, Seen)> {
    let image = seen(rt, folder, "image0")?;
    let segment = seen(rt, folder, "segment0")?;
    Some((image, segment))
}

/// Returns whether a store's files exist, whether it is listed, and whether its files and its folder are then as
/// before.
fn lists_unchanged(rt: &HostRuntime, words: &[String], path: &str) -> [bool; 3] {
    let before = seen_both(rt, path);
    let is_listed = ends(rt, Some(words), false, LISTED);
    let after = seen_both(rt, path);
    [before.is_some(), is_listed, before == after]
}

/// The same for a new store whose files and folder can only be read: whether it was made, by a server's run without a
/// call, and they got their modes; and whether they got others after that, and all was removed.
type ReadOnly = (bool, Modes, [bool; 3], Modes, bool);

fn lists_what_can_be_read(rt: &HostRuntime, words: &[String], path: &str) -> ReadOnly {
    (
        programs::ends(rt, Some(words), &[], (0, &[], "")),
        set_modes(rt, path, 0o444, 0o555),
        lists_unchanged(rt, words, path),
        set_modes(rt, path, 0o644, 0o755),
        fs::remove_dir_all(rt, path).is_ok(),
    )
}

fn lists_read_only(rt: &HostRuntime, name: &str) -> Option<ReadOnly> {
    let words = folder(rt, name)?;
    let path = words.first()?;
    Some(lists_what_can_be_read(rt, &words, path.as_str()))
}

#[test]
fn a_folder_that_can_only_be_read_is_listed(rt: HostRuntime) {
    let seen = lists_read_only(&rt, "machls_read_only");
    let modes = [Some(()); 3];
    same(&rt, seen, Some((true, modes, [true; 3], modes, true)));
}

/// The lines of a store of one port.
const LISTED_PORT: &str = "epoch 0 records 1
space 1
name 00000100 00020000 port 1 refs 0
port 1 held 1 00000100 send 0 once 0 queue 0 of 5 seqno 0 mscount 0
";

/// Returns whether a store is made in a folder, by a server's run of one call, after a disk that was opened there
/// before; whether that disk's lines are those of the store then; and whether all was removed.
fn lists_made_later(rt: &HostRuntime, name: &str) -> Option<[bool; 3]> {
    let words = folder(rt, name)?;
    let path = words.first()?.as_str();
    let mut disk = FileDisk::at(rt.alloc(), rt, path).ok()?;
    let is_made = programs::ends(rt, Some(&words), &ALLOCATE, (0, &ALLOCATED, ""));
    let lines = lines_of(rt.alloc(), &mut disk);
    drop(disk);
    let is_listed = lines.as_deref() == Some(LISTED_PORT.as_bytes());
    Some([is_made, is_listed, fs::remove_dir_all(rt, path).is_ok()])
}

#[test]
fn files_that_are_made_later_are_listed(rt: HostRuntime) {
    let seen = lists_made_later(&rt, "machls_made_later");
    same(&rt, seen, Some([true; 3]));
}
