//! Lists of events, one letter each, and their answers, one letter each; and what a crash or a fault within them
//! leaves.
use crate::expect::{same, same_in_row};
use crate::store::{Store, failing, new_store, played, stored_records};
use disk::{Disk, MemDisk, Slot, Torn};
use ipc_model::{Call, PlainCall, PlainReply, Reply, Sequence};
use std::alloc::{AllocError, Global};
use system::{Event, Outcome};

/// A message that is only a header, by a send right made from the receive right 0x100.
static MESSAGE: [u8; 24] = [
    0x14, 0, 0, 0, 24, 0, 0, 0, 0, 1, 0, 0, 0, 0, 0, 0, 0, 0, 0, 0, 7, 0, 0, 0,
];

/// A call of space 1.
fn submit(call: Call) -> Event {
    Event::Submit { space: 1, call }
}

/// An event by its letter: a receive right is allocated (`a`), the message is sent to the first one (`s`), the status
/// of that is asked for (`g`); what waits is taken (`k`), written (`w`), and the oldest receipt delivered (`d`); an
/// epoch is ended with a snapshot (`c`), the next segment's slot closed (`l`), its header written (`h`), its gate
/// opened (`o`); the next image's slot is closed (`i`), a piece of it written (`p`), and it is finished (`f`). Any
/// other letter, from `0` on, asks for the reply of the ticket with its number.
fn event_of(alloc: Global, letter: u8) -> Result<Event, AllocError> {
    Ok(match letter {
        b'a' => submit(Call::Plain(PlainCall::Allocate { right: 1 })),
        b's' => submit(Call::Plain(PlainCall::Send {
            message: Sequence::new(Vec::from_slice(alloc, &MESSAGE)?),
        })),
        b'g' => submit(Call::Plain(PlainCall::GetReceiveStatus { name: 0x100 })),
        b'k' => Event::Take,
        b'w' => Event::Append,
        b'd' => Event::Durable,
        b'c' => Event::Cut,
        b'l' => Event::RollClose,
        b'h' => Event::RollHead,
        b'o' => Event::RollOpen,
        b'i' => Event::ImageClose,
        b'p' => Event::Piece,
        b'f' => Event::Finish,
        _ => Event::Reply {
            ticket: u64::from(letter.wrapping_sub(b'0')),
        },
    })
}

/// An outcome by its letter: a ticket, done, not now, a fault, or what a reply says.
fn letter_of(outcome: &Outcome) -> u8 {
    match outcome {
        Outcome::Ticket(_) => b'#',
        Outcome::Reply(reply) => letter_of_reply(reply),
        Outcome::Done => b'+',
        Outcome::NotNow => b'-',
        _ => b'!',
    }
}

/// The letter of a number, from this one on; numbers above those of letters have that of 0.
fn letter_from(first: u8, number: u32) -> u8 {
    first.wrapping_add(u8::try_from(number).unwrap_or(0))
}

/// A reply by its letter: for an allocation the one from `A` on that has the number of its name, for a status the one
/// from `a` on that has the number of its messages.
fn letter_of_reply(reply: &Reply) -> u8 {
    match reply {
        Reply::Plain(PlainReply::Allocate { name }) => letter_from(b'A', name.wrapping_sub(0x100)),
        Reply::Plain(PlainReply::ReceiveStatus { status }) => letter_from(b'a', status.messages),
        _ => b'=',
    }
}

fn add_events(alloc: Global, events: &mut Vec<Event>, letters: &[u8]) -> Result<(), AllocError> {
    for letter in letters {
        let event = event_of(alloc, *letter)?;
        events.push(event)?;
    }
    Ok(())
}

fn events_of(alloc: Global, letters: &[u8]) -> Result<Vec<Event>, AllocError> {
    let mut events = Vec::new(alloc);
    add_events(alloc, &mut events, letters)?;
    Ok(events)
}

fn add_letters(letters: &mut Vec<u8>, outcomes: &[Outcome]) -> Result<(), AllocError> {
    for outcome in outcomes {
        letters.push(letter_of(outcome))?;
    }
    Ok(())
}

/// The letters of outcomes, if there are any.
fn letters_of(alloc: Global, outcomes: Option<Vec<Outcome>>) -> Option<Vec<u8>> {
    let outcomes = outcomes?;
    let mut letters = Vec::new(alloc);
    let added = add_letters(&mut letters, &outcomes);
    drop(outcomes);
    added.ok()?;
    Some(letters)
}

/// The answers to a list of events on a disk, and the disk as a read then returns it.
pub(crate) fn play_on<D: Disk + Drop>(
    alloc: Global,
    disk: D,
    letters: &[u8],
) -> Option<(Vec<u8>, D)> {
    let events = events_of(alloc, letters).ok()?;
    let run = played(alloc, disk, &events);
    drop(events);
    let (outcomes, disk) = run?;
    Some((letters_of(alloc, outcomes)?, disk))
}

/// The same, and the disk that a crash then leaves.
pub(crate) fn play<S: Store + Drop>(
    alloc: Global,
    disk: S,
    letters: &[u8],
) -> Option<(Vec<u8>, S)> {
    let (answers, disk) = play_on(alloc, disk, letters)?;
    Some((answers, disk.stop()?))
}

/// Two calls are one batch. Their replies are given in any order, each once, as soon as its receipt is delivered; what
/// isn't possible changes nothing.
static TWO_CALLS: (&[u8], &[u8]) = (b"kwd0aawk0kww1kdd1002", b"----##-+--+---+-BA--");

/// A status that saw a send waits for the send's record.
static SEND_SEEN: (&[u8], &[u8]) = (b"akwd0sg2k2w2d21", b"#+++A##-+-+-+b=");

/// Returns whether a list of events has these answers on a new store, and how long its segment is then.
fn answers<S: Store + Drop>(alloc: Global, list: (&[u8], &[u8])) -> Option<(bool, u64)> {
    let (letters, wanted) = list;
    let (answers, disk) = play(alloc, S::empty(alloc), letters)?;
    Some((answers.as_slice() == wanted, disk.length(Slot::Segment0)))
}

#[test]
fn lists_of_events_are_run(rt: HostRuntime) {
    same(
        &rt,
        answers::<MemDisk>(rt.alloc(), TWO_CALLS),
        Some((true, 110)),
    );
    let seen = answers::<MemDisk>(rt.alloc(), SEND_SEEN);
    same(&rt, matches!(seen, Some((true, _))), true);
}

/// The next number of a fixed generator (the constants are those of Knuth's MMIX).
fn next(seed: u64) -> u64 {
    seed.wrapping_mul(6_364_136_223_846_793_005)
        .wrapping_add(1_442_695_040_888_963_407)
}

/// The letter of an event by a number; a reply is asked for one of the first sixteen tickets.
fn letter_by(number: u64) -> u8 {
    match number % 8 {
        0 | 1 => b'a',
        2 => b'g',
        3 => b'k',
        4 => b'w',
        5 => b'd',
        _ => (number / 8 % 16) as u8 + b'0',
    }
}

fn add_letters_by(letters: &mut Vec<u8>, seed: u64) -> Result<(), AllocError> {
    let mut number = seed;
    for _ in 0..120 {
        number = next(number);
        letters.push(letter_by(number >> 33))?;
    }
    Ok(())
}

/// A hundred and twenty events.
fn letters_by(alloc: Global, seed: u64) -> Option<Vec<u8>> {
    let mut letters = Vec::new(alloc);
    add_letters_by(&mut letters, seed).ok()?;
    Some(letters)
}

/// Returns how many records a list of events acknowledged by its answers, and how many were applied, by means of how
/// many each ticket saw. The answer that a batch is stored acknowledges its records, and so does a reply that saw them.
fn count_acknowledged(
    seen: &mut Vec<u64>,
    letters: &[u8],
    answers: &[u8],
) -> Result<(u64, u64), AllocError> {
    let (mut acknowledged, mut taken, mut applied) = (0, 0, 0u64);
    for (letter, answer) in letters.iter().zip(answers) {
        match (*letter, *answer) {
            (_, b'#') => {
                applied = applied.saturating_add(record_count(*letter));
                seen.push(applied)?;
            }
            (b'k', b'+') => taken = applied,
            (b'w', b'+') => acknowledged = taken.max(acknowledged),
            (_, answer) if answer >= b'=' => acknowledged = seen_by(seen, *letter).max(
                acknowledged,
            ),
            _ => {}
        }
    }
    Ok((acknowledged, applied))
}

/// Returns how many records a list of events acknowledged by its answers, and how many were applied.
pub(crate) fn bounds(alloc: Global, letters: &[u8], answers: &[u8]) -> Option<(u64, u64)> {
    let mut seen = Vec::new(alloc);
    count_acknowledged(&mut seen, letters, answers).ok()
}

/// Returns how many records the call of a letter has.
fn record_count(letter: u8) -> u64 {
    match letter {
        b'a' | b's' => 1,
        _ => 0,
    }
}

/// Returns how many records the ticket of a letter saw.
fn seen_by(seen: &[u64], letter: u8) -> u64 {
    let ticket = letter.wrapping_sub(b'0');
    seen.get(ticket as usize).copied().unwrap_or(0)
}

/// Returns how many of the first records are allocations, by the letters of their calls.
fn allocations(letters: &[u8], answers: &[u8], records: u64) -> u64 {
    let (mut left, mut count) = (records, 0u64);
    for (letter, answer) in letters.iter().zip(answers) {
        if *answer == b'#' && record_count(*letter) > 0 && left > 0 {
            left -= 1;
            count = count.saturating_add(u64::from(*letter == b'a'));
        }
    }
    count
}

/// Returns how many ports space 1 has, by the name of the next one, which is allocated and stored, and the disk after
/// it.
pub(crate) fn count_ports<S: Store + Drop>(alloc: Global, disk: S) -> Option<(u64, S)> {
    let (answers, disk) = play(alloc, disk, b"akwd0")?;
    let last = answers.last().copied().unwrap_or(0);
    Some((u64::from(last.wrapping_sub(b'A')), disk))
}

/// Returns how many records a store has, and how many ports space 1 has after them.
fn found<S: Store + Drop>(alloc: Global, disk: S) -> Option<(u64, u64)> {
    let (ports, disk) = count_ports(alloc, disk)?;
    let records = stored_records(alloc, disk)?.saturating_sub(1);
    Some((records, ports))
}

/// Returns whether a list of events on this disk leaves no fewer records than it acknowledged and no more than it
/// applied, and the state after them; and whether one of them met a fault.
fn is_bounded<S: Store + Drop>(alloc: Global, disk: S, letters: &[u8]) -> Option<(bool, bool)> {
    let (answers, disk) = play(alloc, disk, letters)?;
    let found = found(alloc, disk);
    let is = match (found, bounds(alloc, letters, &answers)) {
        (Some((records, ports)), Some((acknowledged, applied))) => {
            acknowledged <= records
                && records <= applied
                && ports == allocations(letters, &answers, records)
        }
        _ => false,
    };
    Some((is, answers.contains(&b'!')))
}

/// Opening a store makes fifteen device calls, and each append four.
pub(crate) const FIRST_CALL: u64 = 16;

/// Returns how many device calls a list makes after those of the opening, by its answers if none fails.
fn device_calls(letters: &[u8], answers: &[u8]) -> u64 {
    let mut calls = 0u64;
    for (letter, answer) in letters.iter().zip(answers) {
        if *letter == b'w' && *answer == b'+' {
            calls = calls.saturating_add(4);
        }
    }
    calls
}

/// Returns how many device calls a list makes until none fails that is planned to, if what each failure leaves is
/// within its bounds.
fn swept<S: Store + Drop>(alloc: Global, letters: &[u8], once: bool, torn: Torn) -> Option<u64> {
    for calls in 0..400u64 {
        let disk: S = failing(alloc, FIRST_CALL.saturating_add(calls), once, torn)?;
        let (is, met_fault) = is_bounded(alloc, disk, letters)?;
        if !is {
            return None;
        }
        if !met_fault {
            return Some(calls);
        }
    }
    None
}

pub(crate) static KINDS: [Torn; 6] = [
    Torn::Old,
    Torn::New,
    Torn::Half,
    Torn::Fill(0),
    Torn::Fill(0x5a),
    Torn::Fill(0xff),
];

/// A way to fail, and how many device calls were swept in it, if a list could be.
pub(crate) type Way = (Torn, bool, Option<u64>);

/// Returns how many device calls a list makes on a new store.
fn calls_of<S: Store + Drop>(alloc: Global, letters: &[u8]) -> Option<u64> {
    let (answers, _) = play(alloc, new_store::<S>(alloc)?, letters)?;
    Some(device_calls(letters, &answers))
}

/// The first way to fail in which a list isn't swept over all its device calls.
fn unswept<S: Store + Drop>(alloc: Global, letters: &[u8]) -> Option<Way> {
    let calls = calls_of::<S>(alloc, letters);
    for torn in &KINDS {
        for once in [false, true] {
            let seen = swept::<S>(alloc, letters, once, *torn);
            if seen.is_none() || seen != calls {
                return Some((*torn, once, seen));
            }
        }
    }
    None
}

/// The same for the events of a seed, whose letters have to be made.
fn unswept_by<S: Store + Drop>(alloc: Global, seed: u64) -> Option<Option<Way>> {
    let letters = letters_by(alloc, seed)?;
    Some(unswept::<S>(alloc, &letters))
}

#[test]
fn a_crash_leaves_what_was_acknowledged(rt: HostRuntime) {
    same(&rt, unswept::<MemDisk>(rt.alloc(), TWO_CALLS.0), None);
    same(&rt, unswept::<MemDisk>(rt.alloc(), SEND_SEEN.0), None);
    for seed in 1..5 {
        let seen = unswept_by::<MemDisk>(rt.alloc(), seed);
        same_in_row(&rt, seed, seen, Some(None));
    }
}
