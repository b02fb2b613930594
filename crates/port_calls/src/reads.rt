ghost use Rattle.std.specs.Prelude.{◌≡◌, ◌-◌, ◌^◌, [], min, IfOk, map, option_map};
ghost use Rattle.std.specs.FinMap as finmap;
ghost use Rattle.ipc_model.specs.calls.Actions.{status_of};
ghost use Rattle.ipc_model.specs.state.Placed.{send_once_count};
ghost use Rattle.ipc_model.specs.state.Ipc.{type_of};
ghost use Rattle.ipc_model.specs.declared.plain_call.PlainCall.TheVariants as call;
ghost use Rattle.ipc_model.specs.calls.PortCalls.{names_in, references_of};
ghost use Rattle.ipc_model.specs.calls.PlainStep.{Acts, ActsIn};
ghost use Rattle.codes.specs.Right.{number_of};

use crate::name_lookup::named;
use crate::reply::refused;
use codes::{
    KernReturn, MACH_PORT_GET_RECEIVE_STATUS, MACH_PORT_GET_REFS, MACH_PORT_GET_SET_STATUS,
    MACH_PORT_NULL, MACH_PORT_TYPE, Right,
};
use ipc_model::{Entry, NamedType, PlainReply, ReceiveStatus, Sequence};
use port_set::received_port;
use rights::IpcState;
use std::alloc::{AllocError, Global};

/// `mach_port_type`: returns the type bits of a name.
#[tactic(auto, unfolding(ipc_model::specs::calls::PortCalls::tests_of, ipc_model::specs::calls::Actions::Done))]
pub fn port_type(state: &IpcState, space: u32, name: u32) -> PlainReply
    ensures { ActsIn state.now.current space (names_in state.now.current space)
        (call.Type name) result state.now.current [] }
{
    match named(state, space, name) {
        Some(entry) => PlainReply::Type {
            bits: entry.type_bits(),
        },
        None => refused(MACH_PORT_TYPE, KernReturn::InvalidName),
    }
}

/// `mach_port_get_refs`: returns the user references of a right under a name.
#[tactic(auto, unfolding(ipc_model::specs::calls::PortCalls::tests_of, ipc_model::specs::calls::Actions::Done))]
pub fn get_refs(state: &IpcState, space: u32, name: u32, right: u32) -> PlainReply
    ensures { ActsIn state.now.current space (names_in state.now.current space)
        (call.GetRefs name right) result state.now.current [] }
{
    let number = MACH_PORT_GET_REFS;
    let Some(wanted) = Right::from_number(right) else {
        return refused(number, KernReturn::InvalidValue);
    };
    match named(state, space, name) {
        Some(entry) => PlainReply::References {
            count: references_of(wanted, entry),
        },
        None => refused(number, KernReturn::InvalidName),
    }
}

/// `mach_port_names`: returns the names in use, in ascending order, with their type bits.
#[tactic(auto, unfolding(ipc_model::specs::calls::PortCalls::tests_of, ipc_model::specs::calls::Actions::Done))]
pub fn names(alloc: Global, state: &IpcState, space: u32) -> Result<PlainReply, AllocError>
    ensures { Acts state.now.current space call.Names result state.now.current [] }
{
    let names = named_types(alloc, state, space)?;
    Ok(PlainReply::Names {
        names: Sequence::new(names),
    })
}

fn named_types(alloc: Global, state: &IpcState, space: u32) -> Result<Vec<NamedType>, AllocError>
    ensures { IfOk result (λ names. names.items ≡ map
        (λ e. record { name = e.0; bits = type_of e.1 }) (finmap.entries (names_in state.now.current space))) }
{
    let mut types = Vec::new(alloc);
    let entries = state.entries(alloc, space)?;
    for (name, entry) in entries.as_slice() {
        types.push(NamedType {
            name: *name,
            bits: entry.type_bits(),
        })?;
    }
    Ok(types)
}

/// `mach_port_get_receive_status`: returns the numbers of a port, and flags for its rights and requests.
#[tactic(auto, unfolding(ipc_model::specs::calls::PortCalls::tests_of, ipc_model::specs::calls::Actions::Done))]
pub fn receive_status(state: &IpcState, space: u32, name: u32) -> PlainReply
    ensures { ActsIn state.now.current space (names_in state.now.current space)
        (call.GetReceiveStatus name) result state.now.current [] }
{
    let number = MACH_PORT_GET_RECEIVE_STATUS;
    let Some(entry) = named(state, space, name) else {
        return refused(number, KernReturn::InvalidName);
    };
    let Some(port) = received_port(entry) else {
        return refused(number, KernReturn::InvalidRight);
    };
    match status_of(state, port) {
        Some(status) => PlainReply::ReceiveStatus { status },
        None => PlainReply::Done { number },
    }
}

/// Returns the numbers of a live port, and flags for its rights and requests.
fn status_of(state: &IpcState, port: u64) -> Option<ReceiveStatus>
    ensures { result ≡ option_map (status_of state.now.current port) (finmap.get state.now.current.ports port) }
{
    let numbers = state.numbers(port)?;
    Some(ReceiveStatus {
        set: numbers.set.unwrap_or(MACH_PORT_NULL),
        sequence_number: numbers.sequence_number,
        make_send_count: numbers.make_send_count,
        limit: numbers.limit,
        messages: state.message_count(port),
        send_once_count: send_once_count(state, port),
        has_senders: state.has_senders(port),
        has_port_destroyed_request: numbers.port_destroyed_target.is_some(),
        has_no_senders_request: numbers.no_senders_target.is_some(),
    })
}

/// Returns the number of send-once rights to a port, at most `u32::MAX`.
fn send_once_count(state: &IpcState, port: u64) -> u32
    ensures { result ≡ min (2 ^ 32 - 1) (send_once_count state.now.current port) }
{
    state.send_once_count(port).min(u64::from(u32::MAX)) as u32
}

/// `mach_port_get_set_status`: returns the names of a set's members, in ascending order.
#[tactic(auto, unfolding(ipc_model::specs::calls::PortCalls::tests_of, ipc_model::specs::calls::Actions::Done))]
pub fn get_set_status(
    alloc: Global,
    state: &IpcState,
    space: u32,
    name: u32,
) -> Result<PlainReply, AllocError>
    ensures { Acts state.now.current space (call.GetSetStatus name) result state.now.current [] }
{
    let number = MACH_PORT_GET_SET_STATUS;
    match named(state, space, name) {
        None => Ok(refused(number, KernReturn::InvalidName)),
        Some(Entry::Set) => {
            let members = port_set::members(alloc, state, space, name)?;
            Ok(PlainReply::SetStatus {
                members: Sequence::new(members),
            })
        }
        Some(_) => Ok(refused(number, KernReturn::InvalidRight)),
    }
}

/// Returns the user references of a right under a name.
pub fn references_of(right: Right, entry: Entry) -> u32
    ensures { result ≡ references_of (number_of right) entry }
{
    match (right, entry) {
        (Right::Send, Entry::Port(rights)) => rights.send,
        (Right::Receive, Entry::Port(rights)) => u32::from(rights.receive),
        (Right::SendOnce, Entry::SendOnce { .. }) | (Right::PortSet, Entry::Set) => 1,
        (Right::DeadName, Entry::Dead { references }) => references,
        _ => 0,
    }
}
