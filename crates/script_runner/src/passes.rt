use crate::connection::{Connection, Store};
use crate::device::Device;
use crate::failure::{Crash, Difference, Failure, Place, Unanswered, Way};
use crate::row::{Ask, Script, ScriptLine, ScriptStep, is_wanted};
use disk::Torn;
use std::alloc::Global;

/// Number of device calls in `open` of an existing store: four syncs, four reads of headers, three of the image, two of
/// the segment, which is one piece here, and two that end it.
const OPENING_CALLS: u64 = 15;

/// Number of device calls in an append.
const APPEND_CALLS: u64 = 4;

/// The contents that a crash leaves of the writes since the last sync.
static TORN: [Torn; 6] = [
    Torn::Old,
    Torn::New,
    Torn::Half,
    Torn::Fill(0),
    Torn::Fill(0x5a),
    Torn::Fill(0xff),
];

/// Checks that a reply is the expected one.
fn check_reply(place: Place, reply: Vec<u8>, ask: &Ask) -> Result<(), Failure> {
    if is_wanted(&reply, &ask.wanted) {
        Ok(())
    } else {
        Err(place.differs(Difference::Reply(reply)))
    }
}

/// Sends a frame, and checks that its reply is the expected one.
fn check_ask<D: Device + Drop>(
    place: Place,
    connection: &mut Connection<D>,
    ask: &Ask,
) -> Result<(), Failure> {
    match connection.ask(&ask.frame) {
        Ok(reply) => check_reply(place, reply, ask),
        Err(unanswered) => Err(place.differs(Difference::Unanswered(unanswered))),
    }
}

/// Checks that segment 0 has the expected length.
fn check_length<D: Device + Drop>(
    place: Place,
    store: &Store<D>,
    wanted: u64,
) -> Result<(), Failure> {
    let length = store.length();
    if length == wanted {
        Ok(())
    } else {
        Err(place.differs(Difference::Length(length)))
    }
}

/// Sends a frame as often as its line says.
fn check_asks<D: Device + Drop>(
    place: Place,
    connection: &mut Connection<D>,
    ask: &Ask,
) -> Result<(), Failure> {
    for _ in 0..ask.times {
        check_ask(place, connection, ask)?;
    }
    Ok(())
}

/// Reopens a store in order to check the length of its segment.
fn opened_of_length<D: Device + Drop>(
    store: Store<D>,
    place: Place,
    wanted: u64,
) -> Result<Connection<D>, Failure> {
    check_length(place, &store, wanted)?;
    Connection::open(store, place)
}

/// Runs a line on a server, which continues. To check a slot's length, the server ends and another one begins.
fn straight_line<D: Device + Drop>(
    mut connection: Connection<D>,
    row: &ScriptLine,
) -> Result<Connection<D>, Failure> {
    let place = row.place(Way::Straight);
    match &row.step {
        ScriptStep::Ask(ask) => {
            check_asks(place, &mut connection, ask)?;
            Ok(connection)
        }
        ScriptStep::Connect => {
            let mut store = connection.close();
            store.connect_anew();
            Connection::open(store, place)
        }
        ScriptStep::Length(length) => opened_of_length(connection.close(), place, *length),
    }
}

/// Runs a script on one server.
fn run_straight<D: Device + Drop>(alloc: Global, rows: &[ScriptLine]) -> Result<(), Failure> {
    let store: Store<D> = Store::new(alloc);
    let mut connection = Connection::open(store, Place::start(Way::Straight))?;
    for row in rows {
        connection = straight_line(connection, row)?;
    }
    Ok(())
}

/// Creates a new store and opens it once, because the first opening makes other device calls than later ones.
fn new_store<D: Device + Drop>(alloc: Global, way: Way) -> Result<Store<D>, Failure> {
    let connection: Connection<D> = Connection::open(Store::new(alloc), Place::start(way))?;
    connection.stop()
}

/// Sends a frame to a server of its own, which crashes once the frame is answered.
fn reopened_ask<D: Device + Drop>(
    store: &mut Store<D>,
    place: Place,
    ask: &Ask,
) -> Result<(), Failure> {
    let mut connection = Connection::borrow(store, place)?;
    let outcome = check_ask(place, &mut connection, ask);
    connection.crash_in(store)?;
    outcome
}

/// Runs a line on a store that crashes and is reopened after each call.
fn reopened_line<D: Device + Drop>(store: &mut Store<D>, row: &ScriptLine) -> Result<(), Failure> {
    let place = row.place(Way::Reopened);
    match &row.step {
        ScriptStep::Ask(ask) => {
            for _ in 0..ask.times {
                reopened_ask(store, place, ask)?;
            }
        }
        ScriptStep::Connect => store.connect_anew(),
        ScriptStep::Length(length) => check_length(place, store, *length)?,
    }
    Ok(())
}

fn reopened_lines<D: Device + Drop>(
    store: &mut Store<D>,
    rows: &[ScriptLine],
) -> Result<(), Failure> {
    for row in rows {
        reopened_line(store, row)?;
    }
    Ok(())
}

/// Runs a script on a store that crashes and is reopened after each call.
fn run_reopened<D: Device + Drop>(alloc: Global, rows: &[ScriptLine]) -> Result<(), Failure> {
    let mut store: Store<D> = new_store(alloc, Way::Reopened)?;
    reopened_lines(&mut store, rows)
}

/// The outcome of a frame whose append was to be stopped.
#[derive(Clone, Copy)]
struct Crashed {
    /// Number of records in the store before.
    records: u64,
    /// True if the frame was answered nevertheless, because nothing was appended.
    is_answered: bool,
}

/// Sends a frame. Returns true if it got a reply, which must be the expected one.
fn is_answered<D: Device + Drop>(
    place: Place,
    connection: &mut Connection<D>,
    ask: &Ask,
) -> Result<bool, Failure> {
    match connection.ask(&ask.frame) {
        Ok(reply) => {
            check_reply(place, reply, ask)?;
            Ok(true)
        }
        Err(Unanswered::NoReply) => Ok(false),
        Err(unanswered) => Err(place.differs(Difference::Unanswered(unanswered))),
    }
}

/// Sends a frame to a store that crashes at a device call of its append.
fn crashed_once<D: Device + Drop>(
    store: &mut Store<D>,
    stop: Crash,
    place: Place,
    ask: &Ask,
) -> Result<Crashed, Failure> {
    let stop_at = OPENING_CALLS + stop.at.min(APPEND_CALLS);
    store.plan_crash(stop_at, stop.torn);
    let mut connection = Connection::borrow(store, place)?;
    let records = connection.records();
    let outcome = is_answered(place, &mut connection, ask);
    connection.crash_in(store)?;
    Ok(Crashed {
        records,
        is_answered: outcome?,
    })
}

/// Makes a call that was stopped again, if the store doesn't have it.
fn ask_again<D: Device + Drop>(
    place: Place,
    connection: &mut Connection<D>,
    stopped: Crashed,
    ask: &Ask,
) -> Result<(), Failure> {
    let Crashed {
        records,
        is_answered,
    } = stopped;
    let found = connection.records();
    // An answered call has no record, because the crash precedes the end of every append.
    if found > records.saturating_add(u64::from(!is_answered)) || found < records {
        return Err(place.differs(Difference::Records));
    }
    if found == records && !is_answered {
        check_ask(place, connection, ask)?;
    }
    Ok(())
}

/// Sends a frame to a store that crashes at a device call of its append, and makes the call again if the store doesn't
/// have it.
fn crashed_ask<D: Device + Drop>(
    store: &mut Store<D>,
    stop: Crash,
    place: Place,
    ask: &Ask,
) -> Result<(), Failure> {
    let stopped = crashed_once(store, stop, place, ask)?;
    let mut connection = Connection::borrow(store, place)?;
    let outcome = ask_again(place, &mut connection, stopped, ask);
    connection.crash_in(store)?;
    outcome
}

/// Runs a line on a store that crashes at one device call of each append.
fn crashed_line<D: Device + Drop>(
    store: &mut Store<D>,
    stop: Crash,
    row: &ScriptLine,
) -> Result<(), Failure> {
    match &row.step {
        ScriptStep::Ask(ask) => {
            for _ in 0..ask.times {
                crashed_ask(store, stop, row.place(Way::Crashed(stop)), ask)?;
            }
        }
        ScriptStep::Connect => store.connect_anew(),
        // Bytes that a crash left after the last gate may still be there.
        ScriptStep::Length(_) => {}
    }
    Ok(())
}

fn crashed_lines<D: Device + Drop>(
    store: &mut Store<D>,
    stop: Crash,
    rows: &[ScriptLine],
) -> Result<(), Failure> {
    for row in rows {
        crashed_line(store, stop, row)?;
    }
    Ok(())
}

/// Runs a script on a store that crashes at one device call of each append.
fn run_crashed<D: Device + Drop>(
    alloc: Global,
    rows: &[ScriptLine],
    stop: Crash,
) -> Result<(), Failure> {
    let mut store: Store<D> = new_store(alloc, Way::Crashed(stop))?;
    crashed_lines(&mut store, stop, rows)
}

/// Runs a script once for each device call and each possible result of a crash.
fn run_crashes<D: Device + Drop>(alloc: Global, rows: &[ScriptLine]) -> Result<(), Failure> {
    for torn in &TORN {
        for at in 1..=APPEND_CALLS {
            run_crashed::<D>(alloc, rows, Crash { at, torn: *torn })?;
        }
    }
    Ok(())
}

/// Returns the number of calls in a script.
fn count_calls(rows: &[ScriptLine]) -> u64 {
    let mut calls = 0_u64;
    for row in rows {
        if let ScriptStep::Ask(ask) = &row.step {
            calls = calls.saturating_add(u64::from(ask.times));
        }
    }
    calls
}

/// Runs a script in each way, and returns the number of its calls.
pub fn run_script<D: Device + Drop>(alloc: Global, script: &Script) -> Result<u64, Failure> {
    run_straight::<D>(alloc, &script.rows)?;
    if !script.is_straight {
        run_reopened::<D>(alloc, &script.rows)?;
        run_crashes::<D>(alloc, &script.rows)?;
    }
    Ok(count_calls(&script.rows))
}
