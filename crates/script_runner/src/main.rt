//! `rows FILE..` runs scripts of calls against a server, and reports replies that differ from the script's.
//!
//! Each script is run in three ways: on one server; on a store that crashes and is reopened after each call; and on a
//! store that crashes at each device call of each append, after which a call that wasn't stored is made again.
//! docs/ARCHITECTURE.md describes the lines of a script that aren't calls.
#![tactic(auto)]

mod connection;
mod device;
mod directive;
mod failure;
mod passes;
mod reading;
mod row;
mod telling;

use disk::MemDisk;
use passes::run_script;
use reading::read_script;
use row::Script;
use std::process::ExitCode;
use std::{env, fs, io};
use telling::{tell_failure, tell_fault};

/// Runs a script, and prints the outcome. Returns true if each reply was the script's.
fn run_read(rt: &HostRuntime, name: &str, text: &[u8], script: &Script) -> io::Result<bool> {
    match run_script::<MemDisk>(rt.alloc(), script) {
        Ok(calls) => {
            println!(rt; "{name}: {calls} calls, ok")?;
            Ok(true)
        }
        Err(failure) => {
            let reported = tell_failure(rt, name, text, script, &failure);
            drop(failure);
            reported?;
            Ok(false)
        }
    }
}

/// Runs the script in a text, and prints the outcome.
fn run_text(rt: &HostRuntime, name: &str, text: &[u8]) -> io::Result<bool> {
    match read_script(rt.alloc(), text) {
        Ok(script) => {
            let is_answered = run_read(rt, name, text, &script);
            drop(script);
            is_answered
        }
        Err(fault) => {
            tell_fault(rt, name, &fault)?;
            Ok(false)
        }
    }
}

/// Runs the script in a file, and prints the outcome.
fn run_file(rt: &HostRuntime, name: &str) -> io::Result<bool> {
    let text = fs::read(rt, name)?;
    run_text(rt, name, &text)
}

/// Runs the scripts in the files that the command line names.
fn run_files(rt: &HostRuntime) -> io::Result<bool> {
    let mut is_well = true;
    for name in env::args(rt)?.skip(1) {
        let is_answered = run_file(rt, name.as_str())?;
        is_well = is_well && is_answered;
    }
    Ok(is_well)
}

fn main(rt: HostRuntime) -> ExitCode {
    match run_files(&rt) {
        Ok(true) => ExitCode::from(0),
        Ok(false) => ExitCode::from(1),
        Err(fault) => {
            let _ = eprintln!(rt; "rows: {fault}");
            ExitCode::from(2)
        }
    }
}
