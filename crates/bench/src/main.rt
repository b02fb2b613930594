//! `bench FOLDER` measures the product in FOLDER, where it creates folders and files of its own. It measures the time
//! and the memory for opening stores; acknowledged calls and batches, next to plain writes with as many syncs; the cost
//! of each kind of call, message and death in memory, in a small state and in larger ones; and the cost of checkpoints.
#![tactic(auto)]

mod batches;
mod context;
mod costs;
mod deaths;
mod images;
mod lines;
mod lone;
mod makers;
mod messages;
mod numbered;
mod openings;
mod plain;
mod slowest;
mod states;
mod steady;
mod turns;
mod watched;
mod ways;

use crate::batches::print_batches;
use crate::context::{Context, Folder};
use crate::costs::print_costs;
use crate::deaths::print_deaths;
use crate::images::print_images;
use crate::lone::print_lone;
use crate::messages::print_messages;
use crate::numbered::print_numbered;
use crate::openings::print_openings;
use crate::plain::Plain;
use crate::slowest::print_slowest;
use crate::steady::print_steady;
use crate::turns::{Machine, place_all};
use server::Kernel;
use std::process::ExitCode;
use std::{env, io};

/// Maximum number of extra names in the space when ports die to which a thousand names have rights.
const ROOM_FOR_DEATHS: u32 = 3_080;

/// The reason why a measurement failed.
#[derive(Clone, Copy)]
enum Fault {
    Store,
    Call,
    Device,
    Memory,
}

impl From<io::Error> for Fault {
    fn from(_: io::Error) -> Self {
        Fault::Device
    }
}

impl Fault {
    fn words(self) -> &'static str {
        match self {
            Fault::Store => "a store could not be opened, or did not go on",
            Fault::Call => "a call was not answered as expected, or not acknowledged",
            Fault::Device => "a file or the clock failed",
            Fault::Memory => "no memory",
        }
    }
}

/// Measures calls and batches that are stored, next to plain writes.
fn print_stored<F: Folder>(context: &Context<'_>, folder: &F) -> Result<(), Fault> {
    let mut plain = Plain::create(context)?;
    print_lone(context, folder.new_files(), &mut plain)?;
    print_batches(context, folder, &mut plain)
}

/// Measures calls, messages and deaths in memory.
fn print_in_memory<M: Machine + Drop>(context: &Context<'_>) -> Result<(), Fault> {
    context.print_row(
        "more: 16,000 ports, 4,096 names of the space, 255 spaces, 1,000 messages in a queue of the space",
        &[],
        &[],
    );
    let mut machines = place_all::<M>(context.alloc, u32::MAX)?;
    print_costs(context, &mut machines)?;
    print_messages(context, &mut machines)?;
    print_numbered::<M>(context)?;
    let mut machines = place_all::<M>(context.alloc, ROOM_FOR_DEATHS)?;
    print_deaths(context, &mut machines)
}

/// Measures and prints everything. Measurements of this process's memory come first.
fn print_all<F: Folder, M: Machine + Drop>(context: &Context<'_>, folder: &F) -> Result<(), Fault> {
    print_openings(context, folder)?;
    print_steady(context, folder)?;
    print_stored(context, folder)?;
    print_in_memory::<M>(context)?;
    print_images(context)?;
    print_slowest(context, folder)
}

fn run(rt: &HostRuntime, folder: &str) -> Result<(), Fault> {
    let context = Context::new(rt, folder)?;
    print_all::<Context<'_>, Kernel>(&context, &context)
}

/// Returns the argument, if there is exactly one.
fn only_argument(rt: &HostRuntime) -> Option<String> {
    let mut words = env::args(rt).ok()?.skip(1);
    let word = words.next()?;
    match words.next() {
        None => Some(word),
        Some(_) => None,
    }
}

fn main(rt: HostRuntime) -> ExitCode {
    let Some(folder) = only_argument(&rt) else {
        let _ = eprintln!(rt; "bench: name a folder to make stores in");
        return ExitCode::from(2);
    };
    match run(&rt, folder.as_str()) {
        Ok(()) => ExitCode::SUCCESS,
        Err(fault) => {
            let words = fault.words();
            let _ = eprintln!(rt; "bench: {words}");
            ExitCode::from(1)
        }
    }
}
