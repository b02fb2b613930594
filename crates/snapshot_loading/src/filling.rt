//! Fills a state with the rows of a snapshot.
ghost use Rattle.std.specs.Prelude.{◌≡◌, ◌∷◌, ◌-◌, ◌^◌, ◌<◌, ◌≤◌, [], true, All, None, IfOk, OnOk};
ghost use Rattle.std.specs.FinMap as map;
ghost use Rattle.codes.specs.declared.limits.TheConstants.{MAX_PORTS};
ghost use Rattle.ipc_model.specs.state.Ipc.{Ipc};
ghost use Rattle.ipc_state.specs.Passed.{numbers_of};
ghost use Rattle.snapshot_loading.specs.FillLaws.{AreAlike, MayName, MayOpen, MaySpace};
ghost use Rattle.snapshot_loading.specs.Filling.{filled_all, named_all, opened, opened_all, queued_all, spaced, spaced_all};
ghost use Rattle.snapshot_loading.specs.Linked.{is_linked_message, is_linked_row, looks_of};

use ipc_model::{Message, PortState, Sequence};
use ipc_state::{IpcState, PortNumbers};
use snapshot::{LivePort, NamedEntry, Space};
use std::alloc::{AllocError, Global};

/// Adds the ports of these rows, with their numbers and without their messages.
pub(crate) fn open_ports(state: &mut IpcState, rows: &[LivePort]) -> Result<(), AllocError>
    requires { MayOpen rows.now state.old.current }
    ensures { OnOk result (state.new.current ≡ opened_all rows.now state.old.current) }
{
    let mut rest = rows;
    while let Some((row, beyond)) = rest.split_first() {
        open_port(state, row)?;
        rest = beyond;
    }
    Ok(())
}

fn open_port(state: &mut IpcState, row: &LivePort) -> Result<(), AllocError>
    requires past { state.old.current.next ≤ row.now.serial }
    requires fits { row.now.serial < 2 ^ 64 - 1 }
    requires room { map.len state.old.current.ports < MAX_PORTS }
    requires fresh { map.get state.old.current.ports row.now.serial ≡ None }
    ensures { OnOk result (state.new.current ≡ opened row.now state.old.current) }
{
    state.set_next_serial(row.serial);
    state.add_port()?;
    state.set_numbers(row.serial, numbers_of(&row.state))?;
    Ok(())
}

fn numbers_of(port: &PortState) -> PortNumbers
    ensures { result ≡ numbers_of port.now }
{
    PortNumbers {
        limit: port.limit,
        sequence_number: port.sequence_number,
        make_send_count: port.make_send_count,
        set: port.set,
        no_senders_target: port.no_senders_target,
        port_destroyed_target: port.port_destroyed_target,
    }
}

/// Adds the spaces of these rows, with their names.
pub(crate) fn fill_spaces(state: &mut IpcState, rows: &[Space]) -> Result<(), AllocError>
    requires { MaySpace rows.now state.old.current }
    ensures { OnOk result (state.new.current ≡ spaced_all rows.now state.old.current) }
{
    let mut rest = rows;
    while let Some((row, beyond)) = rest.split_first() {
        fill_space(state, row)?;
        rest = beyond;
    }
    Ok(())
}

fn fill_space(state: &mut IpcState, row: &Space) -> Result<(), AllocError>
    requires { MaySpace (row.now ∷ []) state.old.current }
    ensures { OnOk result (state.new.current ≡ spaced row.now state.old.current) }
{
    state.add_space(row.number)?;
    put_names(state, row.number, row.names.as_slice())
}

fn put_names(state: &mut IpcState, space: u32, rows: &[NamedEntry]) -> Result<(), AllocError>
    requires { MayName space rows.now state.old.current }
    ensures { OnOk result (state.new.current ≡ named_all space rows.now state.old.current) }
{
    let mut rest = rows;
    while let Some((row, beyond)) = rest.split_first() {
        state.put_name(space, row.name, row.entry)?;
        rest = beyond;
    }
    Ok(())
}

/// Appends the messages of these rows to the queues of their ports.
pub(crate) fn fill_queues(
    alloc: Global,
    state: &mut IpcState,
    rows: &[LivePort],
) -> Result<(), AllocError>
    requires { All (λ row. is_linked_row (looks_of state.old.current) row ≡ true) rows.now }
    ensures { OnOk result (state.new.current ≡ filled_all rows.now state.old.current) }
{
    let mut rest = rows;
    while let Some((row, beyond)) = rest.split_first() {
        queue_messages(alloc, state, row.serial, row.state.messages.as_slice())?;
        rest = beyond;
    }
    Ok(())
}

fn queue_messages(
    alloc: Global,
    state: &mut IpcState,
    serial: u64,
    messages: &[Message],
) -> Result<(), AllocError>
    requires { (first : Ipc) × (AreAlike first state.old.current)
        × All (λ message. is_linked_message (looks_of first) message ≡ true) messages.now }
    ensures { OnOk result (state.new.current ≡ queued_all serial messages.now state.old.current) }
{
    let mut rest = messages;
    while let Some((message, beyond)) = rest.split_first() {
        state.queue_message(serial, copy_of(alloc, message)?)?;
        rest = beyond;
    }
    Ok(())
}

fn copy_of(alloc: Global, message: &Message) -> Result<Message, AllocError>
    ensures { IfOk result (λ copy. copy ≡ message.now) }
{
    let rights = Vec::from_slice(alloc, message.rights.as_slice())?;
    let body = Vec::from_slice(alloc, message.body.as_slice())?;
    Ok(Message {
        destination: message.destination,
        reply: message.reply,
        id: message.id,
        complex: message.complex,
        rights: Sequence::new(rights),
        body: Sequence::new(body),
    })
}
