ghost use Rattle.std.specs.Prelude.{◌≡◌, ◌∷◌, [], Some, IfOk};
ghost use Rattle.ipc_model.specs.declared.message.PortInMessage.TheVariants as in_message;
ghost use Rattle.ipc_model.specs.declared.message.RightKind.TheVariants as kinds;

use crate::expect::same;
use crate::sample::add_port;
use ipc_model::{CarriedRight, Message, PortInMessage, RightKind, Sequence};
use ports::{PortNumbers, Ports};
use std::alloc::{AllocError, Global};

/// Returns a message by a send right, with a reply right and a right in its body, both to one port.
fn message(alloc: Global, kind: RightKind, port: u64) -> Result<Message, AllocError>
    ensures reply { IfOk result (λ message. message.reply
        ≡ Some (record { kind = kinds.SendOnce; port = in_message.Live port })) }
    ensures rights { IfOk result (λ message. message.rights
        ≡ (record { kind = kind; port = in_message.Live port }) ∷ []) }
{
    let mut rights = Vec::new(alloc);
    let port = PortInMessage::Live(port);
    rights.push(CarriedRight { kind, port })?;
    Ok(Message {
        destination: RightKind::Send,
        reply: Some(CarriedRight {
            kind: RightKind::SendOnce,
            port,
        }),
        id: 1,
        complex: true,
        rights: Sequence::new(rights),
        body: Sequence::new(Vec::new(alloc)),
    })
}

/// Queues a message with rights to a port. A dead port is reported as out of memory; no test expects either.
fn send(
    alloc: Global,
    ports: &mut Ports,
    to: u64,
    kind: RightKind,
    port: u64,
) -> Result<(), AllocError> {
    if !ports.contains(port) {
        return Err(AllocError);
    }
    ports.push(to, message(alloc, kind, port)?)
}

/// Sets a no-senders request of port 3 with port 1 as its target.
fn request(ports: &mut Ports) -> Option<()> {
    let numbers = ports.numbers(3)?;
    let asked = PortNumbers {
        no_senders_target: Some(1),
        ..numbers
    };
    ports.set_numbers(3, asked).ok()
}

/// Makes ports 1 to 3, and commits them. The queue of port 2 contains rights to port 1, and the receive right of port
/// 3.
fn fill(alloc: Global, ports: &mut Ports) -> [Option<()>; 6] {
    let filled = [
        add_port(ports),
        add_port(ports),
        add_port(ports),
        send(alloc, ports, 2, RightKind::Send, 1).ok(),
        send(alloc, ports, 2, RightKind::Receive, 3).ok(),
        request(ports),
    ];
    ports.commit();
    filled
}

/// All of that was done, and three steps after it.
type Done = ([Option<()>; 6], [Option<()>; 3]);

const DONE: Done = ([Some(()); 6], [Some(()); 3]);

/// Returns the port of the reply right in a port's oldest message.
fn reply_port(ports: &Ports) -> Option<PortInMessage> {
    let message = ports.message_as_sent(2, 0)?;
    let reply = message.reply?;
    Some(ports.seen(reply).port)
}

/// Returns the first port in the body of the oldest message of port 2.
fn body_port(ports: &Ports) -> Option<PortInMessage> {
    let message = ports.message_as_sent(2, 0)?;
    let right = message.rights.as_slice().first()?;
    Some(ports.seen(*right).port)
}

/// The observed state of the ports: the numbers of send and send-once rights to port 1, of send rights to port 2 and of
/// send-once rights to port 3; the port whose queue contains the receive right of port 3; the number of messages of
/// port 2, and the ports in its oldest message; and the target of the request of port 3.
type Picture = (
    [u64; 4],
    Option<u64>,
    u32,
    [Option<PortInMessage>; 2],
    Option<u64>,
);

fn target(ports: &Ports) -> Option<u64> {
    ports.numbers(3)?.no_senders_target
}

fn seen(ports: &Ports) -> Picture {
    (
        [
            ports.sends(1),
            ports.send_onces(1),
            ports.sends(2),
            ports.send_onces(3),
        ],
        ports.carrier(3),
        ports.message_count(2),
        [reply_port(ports), body_port(ports)],
        target(ports),
    )
}

/// Returns the steps that were done; and the observed state: at first, after port 1 has died, after port 2 has died
/// too, after a rollback, and after port 1 has died again and this is committed.
fn buried(alloc: Global, ports: &mut Ports) -> (Done, [Picture; 5]) {
    let filled = fill(alloc, ports);
    let first = seen(ports);
    let first_died = ports.bury(1).ok();
    let without_1 = seen(ports);
    let second_died = ports.bury(2).ok();
    let without_2 = seen(ports);
    ports.roll_back();
    let given_up = seen(ports);
    let died_again = ports.bury(1).ok();
    ports.commit();
    (
        (filled, [first_died, second_died, died_again]),
        [first, without_1, without_2, given_up, seen(ports)],
    )
}

const AT_FIRST: Picture = (
    [1, 2, 2, 1],
    Some(2),
    2,
    [Some(PortInMessage::Live(1)); 2],
    Some(1),
);

const WITHOUT_1: Picture = (
    [0, 0, 2, 1],
    Some(2),
    2,
    [Some(PortInMessage::Dead); 2],
    None,
);

const WITHOUT_2: Picture = ([0; 4], None, 0, [None; 2], None);

static BURIED: [Picture; 5] = [AT_FIRST, WITHOUT_1, WITHOUT_2, AT_FIRST, WITHOUT_1];

#[test]
fn ports_die_and_live_again(rt: HostRuntime) {
    let mut ports = Ports::new(rt.alloc());
    let (done, seen) = buried(rt.alloc(), &mut ports);
    drop(ports);
    same(&rt, done, DONE);
    same(&rt, seen, BURIED);
}

/// Returns the steps that were done; and the observed state: after the oldest message of port 2 is taken, after the
/// other one is taken too, after a rollback, and after the oldest is taken again and this is committed.
fn taken(alloc: Global, ports: &mut Ports) -> (Done, [Picture; 4]) {
    let filled = fill(alloc, ports);
    let first_taken = ports.take(2).ok();
    let without_first = seen(ports);
    let second_taken = ports.take(2).ok();
    let without_both = seen(ports);
    ports.roll_back();
    let given_up = seen(ports);
    let taken_again = ports.take(2).ok();
    ports.commit();
    (
        (filled, [first_taken, second_taken, taken_again]),
        [without_first, without_both, given_up, seen(ports)],
    )
}

const WITHOUT_FIRST: Picture = (
    [0, 1, 1, 1],
    Some(2),
    1,
    [Some(PortInMessage::Live(3)); 2],
    Some(1),
);

const WITHOUT_BOTH: Picture = ([0, 1, 0, 0], None, 0, [None; 2], Some(1));

static TAKEN: [Picture; 4] = [WITHOUT_FIRST, WITHOUT_BOTH, AT_FIRST, WITHOUT_FIRST];

#[test]
fn messages_are_taken_and_put_back(rt: HostRuntime) {
    let mut ports = Ports::new(rt.alloc());
    let (done, seen) = taken(rt.alloc(), &mut ports);
    drop(ports);
    same(&rt, done, DONE);
    same(&rt, seen, TAKEN);
}
