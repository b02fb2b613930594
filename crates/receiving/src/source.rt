//! The port from which a message is received: the one whose receive right the name holds, or a member of the set.
ghost use Rattle.std.specs.Prelude.{◌≡◌, None, Some, IfOk, IfErr, find, option_map, if◌then◌else◌};
ghost use Rattle.std.specs.FinMap as map;
ghost use Rattle.ipc_model.specs.calls.PortCalls.{names_in};
ghost use Rattle.ipc_model.specs.messages.Receiving.{receive_refusal};
ghost use Rattle.rights.specs.Passed.{messages_at};
ghost use Rattle.receiving.specs.Shows.{arguments_of};
ghost use Rattle.receiving.specs.Sources.{IsPreferred, IsSource, gives, giver_of, has_message, is_in_set, is_preferred, oldest_lacks, port_refusal, source_value};

use crate::asked::{Asked, Preference};
use crate::looking::{is_too_large, lacks_names};
use codes::KernReturn;
use ipc_model::Entry;
use rights::IpcState;
use std::alloc::{AllocError, Global};

/// The source of the messages that a name receives.
#[derive(Clone, Copy)]
pub(crate) enum Giver {
    /// None: the name isn't in use, or holds neither a receive right nor a set.
    Nothing,
    /// The port with this serial, whose receive right the name holds.
    Port(u64),
    /// The members of a set.
    Set,
}

/// A port with a message, and the name of its receive right.
#[derive(Clone, Copy)]
pub(crate) struct Source {
    pub(crate) member: u32,
    pub(crate) port: u64,
}

/// Returns the port from which a receive takes its message, or the code with which it is refused: the name holds
/// neither a receive right nor a set (`RcvInvalidName`, or `RcvPortDied` after a wait), the port is in a set
/// (`RcvInSet`, or `RcvPortChanged` after a wait), or there is no message (`RcvTimedOut`).
pub(crate) fn find_source(
    alloc: Global,
    state: &IpcState,
    space: u32,
    asked: Asked,
    preference: Preference,
) -> Result<Result<Source, KernReturn>, AllocError>
    ensures found { IfOk result (λ outcome. IfOk outcome
        (λ source. IsSource state.now.current (names_in state.now.current space)
        (arguments_of asked) source.member source.port)) }
    ensures refused { IfOk result (λ outcome. IfErr outcome
        (λ code. receive_refusal state.now.current (names_in state.now.current space) (arguments_of asked)
        ≡ Some code)) }
    ensures preferred { IfOk result
        (λ outcome. IfOk outcome (λ source. IsPreferred state.now.current (names_in state.now.current space)
        (arguments_of asked) preference source.member source.port)) }
{
    match giver_by(state.entry(space, asked.name)) {
        Giver::Nothing => Ok(Err(not_there(asked.waited))),
        Giver::Port(port) => Ok(from_port(state, asked, port)),
        Giver::Set => from_set(alloc, state, space, asked, preference),
    }
}

/// Returns the source of the messages that a name with this entry receives.
fn giver_by(entry: Option<Entry>) -> Giver
    ensures { result ≡ giver_of entry }
{
    match entry {
        Some(Entry::Port(rights)) if rights.receive => Giver::Port(rights.port),
        Some(Entry::Set) => Giver::Set,
        _ => Giver::Nothing,
    }
}

/// Returns the code for a name that holds neither a receive right nor a set. After a wait it held one before.
fn not_there(waited: bool) -> KernReturn
    ensures { result ≡ (if waited then KernReturn.RcvPortDied else KernReturn.RcvInvalidName) }
{
    if waited {
        KernReturn::RcvPortDied
    } else {
        KernReturn::RcvInvalidName
    }
}

/// Returns the port as the source, or the code with which the receive is refused.
fn from_port(state: &IpcState, asked: Asked, port: u64) -> Result<Source, KernReturn>
    ensures found { IfOk result (λ source. (port_refusal state.now.current (arguments_of asked) port ≡ None)
        × (source ≡ record { member = asked.name; port = port })) }
    ensures refused { IfErr result (λ code. port_refusal state.now.current (arguments_of asked) port ≡ Some code) }
{
    if is_in_set(state, port) {
        return Err(in_set(asked.waited));
    }
    if !has_message(state, port) {
        return Err(KernReturn::RcvTimedOut);
    }
    Ok(Source {
        member: asked.name,
        port,
    })
}

/// Returns the code for a port in a set. After a wait it was moved there meanwhile.
fn in_set(waited: bool) -> KernReturn
    ensures { result ≡ (if waited then KernReturn.RcvPortChanged else KernReturn.RcvInSet) }
{
    if waited {
        KernReturn::RcvPortChanged
    } else {
        KernReturn::RcvInSet
    }
}

/// Returns true if a port is in a set.
fn is_in_set(state: &IpcState, port: u64) -> bool
    ensures { result ≡ is_in_set state.now.current port }
{
    match state.numbers(port) {
        Some(numbers) => numbers.set.is_some(),
        None => false,
    }
}

/// Returns true if a port has a message.
fn has_message(state: &IpcState, port: u64) -> bool
    ensures { result ≡ has_message state.now.current port }
{
    match state.oldest(port) {
        Some(_) => true,
        None => false,
    }
}

/// Returns the member of a set whose message is taken: the preferred one, otherwise the one with the least name.
fn from_set(
    alloc: Global,
    state: &IpcState,
    space: u32,
    asked: Asked,
    preference: Preference,
) -> Result<Result<Source, KernReturn>, AllocError>
    requires set { giver_of (map.get (names_in state.now.current space) asked.name) ≡ Giver.Set }
    ensures found { IfOk result (λ outcome. IfOk outcome
        (λ source. IsSource state.now.current (names_in state.now.current space)
        (arguments_of asked) source.member source.port)) }
    ensures refused { IfOk result (λ outcome. IfErr outcome
        (λ code. receive_refusal state.now.current (names_in state.now.current space) (arguments_of asked)
        ≡ Some code)) }
    ensures preferred { IfOk result
        (λ outcome. IfOk outcome (λ source. IsPreferred state.now.current (names_in state.now.current space)
        (arguments_of asked) preference source.member source.port)) }
{
    let members = state.members(alloc, space, asked.name)?;
    let members = members.as_slice();
    if let Some(source) = first(alloc, state, space, asked, members, preference)? {
        return Ok(Ok(source));
    }
    match first(alloc, state, space, asked, members, Preference::Least)? {
        Some(source) => Ok(Ok(source)),
        None => Ok(Err(KernReturn::RcvTimedOut)),
    }
}

/// Returns the first of these members that has a message and is preferred.
fn first(
    alloc: Global,
    state: &IpcState,
    space: u32,
    asked: Asked,
    members: &[(u32, u64)],
    preference: Preference,
) -> Result<Option<Source>, AllocError>
    ensures { IfOk result (λ found. option_map source_value found
        ≡ find (gives state.now.current (names_in state.now.current space) (arguments_of asked) preference)
        members.now) }
{
    for (member, port) in members {
        let source = Source {
            member: *member,
            port: *port,
        };
        if gives(alloc, state, space, asked, source, preference)? {
            return Ok(Some(source));
        }
    }
    Ok(None)
}

/// Returns true if a member has a message and is preferred.
fn gives(
    alloc: Global,
    state: &IpcState,
    space: u32,
    asked: Asked,
    source: Source,
    preference: Preference,
) -> Result<bool, AllocError>
    ensures { IfOk result (λ is. is
        ≡ gives state.now.current (names_in state.now.current space) (arguments_of asked) preference
        (source.member, source.port)) }
{
    if !has_message(state, source.port) {
        return Ok(false);
    }
    is_preferred(alloc, state, space, asked, source, preference)
}

/// Returns true if a member is preferred.
fn is_preferred(
    alloc: Global,
    state: &IpcState,
    space: u32,
    asked: Asked,
    source: Source,
    preference: Preference,
) -> Result<bool, AllocError>
    ensures { IfOk result (λ is. is
        ≡ is_preferred state.now.current (names_in state.now.current space)
        (arguments_of asked) preference source.member source.port) }
{
    match preference {
        Preference::Least => Ok(true),
        Preference::Member(name) => Ok(source.member == name),
        Preference::Lacking => oldest_lacks(alloc, state, space, asked, source.port),
    }
}

/// Returns true if a port's oldest message isn't too large but the space lacks names for its rights.
fn oldest_lacks(
    alloc: Global,
    state: &IpcState,
    space: u32,
    asked: Asked,
    port: u64,
) -> Result<bool, AllocError>
    ensures { IfOk result (λ lacks. lacks
        ≡ oldest_lacks (arguments_of asked) (names_in state.now.current space)
        (messages_at state.now.current.ports port)) }
{
    let Some(message) = state.oldest(port) else {
        return Ok(false);
    };
    if is_too_large(asked.limit, message) {
        return Ok(false);
    }
    lacks_names(alloc, state, space, message)
}
