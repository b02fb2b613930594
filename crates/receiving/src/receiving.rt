ghost use Rattle.std.specs.Prelude.{◌≡◌, ◌+◌, ◌≤◌, ◌<◌, ◌++◌, List, [], None, Some, IfOk, IfSome, IfNone, OnOk, IsSome, length};
ghost use Rattle.std.specs.FinMap as map;
ghost use Rattle.codes.specs.declared.limits.TheConstants.{MAX_NAMES};
ghost use Rattle.ipc_model.specs.calls.PortCalls.{names_in};
ghost use Rattle.ipc_model.specs.calls.PlainStep.{Acts, ActsIn};
ghost use Rattle.ipc_model.specs.declared.plain_call.PlainCall.TheVariants as call;
ghost use Rattle.ipc_model.specs.declared.plain_reply.PlainReply as machine;
ghost use Rattle.ipc_model.specs.effects.Effects as waiting;
ghost use Rattle.ipc_model.specs.messages.Receiving.{Received, TakesOut, TooLarge, arriving, destination_consumed, message_size, received_encoding};
ghost use Rattle.ipc_model.specs.rights.CopyOut.{Arrives, names_needed};
ghost use Rattle.ipc_model.specs.state.Lawful.{Lawful, LawfulMessage};
ghost use Rattle.ipc_model.specs.state.Ipc.{Names, Ipc};
ghost use Rattle.rights.specs.Passed.{messages_at};
ghost use Rattle.receiving.specs.ShownNames.{names_shown};
ghost use Rattle.receiving.specs.Shows.{preferred_by, arguments_of, encoding_in};
ghost use Rattle.receiving.specs.Taking.{OfOldest};

use crate::asked::{Asked, Preference};
use crate::encoding::received_encoding;
use crate::looking::{arriving, lacks_room, size_of};
use crate::source::{Source, find_source};
use codes::{KernReturn, MACH_PORT_NULL};
use effects::{Effect, Effects};
use ipc_model::{CarriedRight, PlainReply, RightKind, Sequence};
use rights::{IpcState, arrive};
use std::alloc::{AllocError, Global};

/// Properties of a message that are needed before it is taken.
#[derive(Clone, Copy)]
struct Outline {
    size: u32,
    destination: RightKind,
}

/// `mach_msg` with `MACH_RCV_MSG`: takes the oldest message of the port whose receive right a name holds, or of a
/// member of a set. Its rights arrive in the caller's space, and the effects of its destination right are appended to
/// the pending effects. From a set it takes the preferred message, if there is one, otherwise that of the member with
/// the least name. Rights arrive under the preferred names if they may. The space must exist, the state must be one
/// that the kernel keeps, and no effects may be pending.
///
/// The message gets its port's sequence number, which is then incremented.
///
/// The reply's code: `RcvInvalidName` if the name holds neither a receive right nor a set (after a wait `RcvPortDied`),
/// `RcvInSet` if the port is in a set (after a wait `RcvPortChanged`), `RcvTimedOut` if there is no message.
/// `RcvTooLarge` if the message is larger than the limit: it is destroyed, unless the receive asked that it stays
/// queued. `RcvHeaderErrorSpace` if the space lacks names for its rights. If an allocation fails, the changes must be
/// rolled back.
pub fn receive(
    alloc: Global,
    state: &mut IpcState,
    space: u32,
    asked: Asked,
    preference: Preference,
    names: &[u32],
    effects: &mut Effects,
) -> Result<PlainReply, AllocError>
    requires none { effects.old ≡ [] }
    requires there { IsSome (map.get state.old.current.spaces space) }
    requires lawful { Lawful state.old.current }
    ensures acts { Acts state.old.current space (call.Receive asked.limit asked.large asked.name asked.waited) result
        state.new.current effects.new }
    // If a reply that shows these choices is possible, it is the reply.
    ensures shown { IfOk result (λ reply. (other : machine.PlainReply) → (last : Ipc) → (others : List waiting.Effect)
        → preference ≡ preferred_by other → names.now ≡ names_shown (encoding_in other)
        → ActsIn state.old.current space (names_in state.old.current space)
        (call.Receive asked.limit asked.large asked.name asked.waited) other last others → reply ≡ other) }
    ensures before { state.new.before ≡ state.old.before }
{
    match find_source(alloc, state, space, asked, preference)? {
        Err(code) => Ok(PlainReply::without_message(alloc, code, 0, MACH_PORT_NULL)),
        Ok(source) => {
            let reply = take_out(alloc, state, space, asked, source, names, effects)?;
            Ok(reply)
        }
    }
}

/// Takes the oldest message of a port.
fn take_out(
    alloc: Global,
    state: &mut IpcState,
    space: u32,
    asked: Asked,
    source: Source,
    names: &[u32],
    effects: &mut Effects,
) -> Result<PlainReply, AllocError>
    requires none { effects.old ≡ [] }
    requires there { IsSome (map.get state.old.current.spaces space) }
    requires lawful { Lawful state.old.current }
    ensures acts { IfOk result (λ reply. OfOldest state.old.current source.port
        (λ port message. TakesOut state.old.current space (names_in state.old.current space)
        (arguments_of asked) source.member source.port port message reply state.new.current effects.new)) }
    ensures shown { IfOk result (λ reply. OfOldest state.old.current source.port
        (λ port message. (other : machine.PlainReply) → (last : Ipc) → (others : List waiting.Effect)
        → names.now ≡ names_shown (encoding_in other)
        → TakesOut state.old.current space (names_in state.old.current space)
        (arguments_of asked) source.member source.port port message other last others → reply ≡ other)) }
    ensures before { state.new.before ≡ state.old.before }
{
    let Some(outline) = outline_of(state, source.port) else {
        return Ok(without_message(alloc, KernReturn::RcvTimedOut));
    };
    if outline.size > asked.limit {
        let reply = too_large(alloc, state, source, outline, asked.large, effects)?;
        return Ok(reply);
    }
    let rights = oldest_rights(alloc, state, source.port)?;
    if lacks_room(state, space, rights.as_slice()) {
        return Ok(without_message(alloc, KernReturn::RcvHeaderErrorSpace));
    }
    let reply = take_whole(
        alloc,
        state,
        space,
        source,
        outline,
        rights.as_slice(),
        names,
        effects,
    )?;
    Ok(reply)
}

/// Returns the properties of a port's oldest message, if there is one.
fn outline_of(state: &IpcState, port: u64) -> Option<Outline>
    requires lawful { Lawful state.now.current }
    ensures none { IfNone result (messages_at state.now.current.ports port ≡ []) }
    ensures some { IfSome result (λ outline. OfOldest state.now.current port
        (λ _ message. (outline.size ≡ message_size message) × (outline.destination ≡ message.destination))) }
{
    match state.oldest(port) {
        Some(message) => Some(Outline {
            size: size_of(message) as u32,
            destination: message.destination,
        }),
        None => None,
    }
}

/// Returns the rights that arrive with a port's oldest message, or none if there is no message.
fn oldest_rights(
    alloc: Global,
    state: &IpcState,
    port: u64,
) -> Result<Vec<CarriedRight>, AllocError>
    ensures { IfOk result (λ rights. OfOldest state.now.current port (λ _ message. rights.items ≡ arriving message)) }
{
    match state.oldest(port) {
        Some(message) => arriving(alloc, state, message),
        None => Ok(Vec::new(alloc)),
    }
}

/// Returns the reply to a receive whose message is too large. If the receive asked for that, the message stays queued;
/// otherwise it is destroyed with its rights.
fn too_large(
    alloc: Global,
    state: &mut IpcState,
    source: Source,
    outline: Outline,
    large: bool,
    effects: &mut Effects,
) -> Result<PlainReply, AllocError>
    requires none { effects.old ≡ [] }
    ensures large { IfOk result (λ reply. OfOldest state.old.current source.port
        (λ _ message. outline.size ≡ message_size message → outline.destination ≡ message.destination
        → TooLarge state.old.current source.member source.port message large reply state.new.current effects.new)) }
    ensures before { state.new.before ≡ state.old.before }
{
    if !large {
        consume(outline.destination, source.port, effects)?;
        state.release_oldest(source.port, effects)?;
        state.take_message(source.port)?;
    }
    Ok(PlainReply::without_message(alloc, KernReturn::RcvTooLarge, outline.size, source.member))
}

/// Consumes the destination right of a message that was taken: a send right is released, a send-once right vanishes.
fn consume(right: RightKind, port: u64, effects: &mut Effects) -> Result<(), AllocError>
    ensures { OnOk result (effects.new ≡ effects.old ++ destination_consumed right port) }
{
    match right {
        RightKind::Send => effects.push(Effect::Release { kind: right, port }),
        RightKind::Receive | RightKind::SendOnce => Ok(()),
    }
}

/// Takes a whole message: its rights arrive, and its destination right is consumed.
fn take_whole(
    alloc: Global,
    state: &mut IpcState,
    space: u32,
    source: Source,
    outline: Outline,
    rights: &[CarriedRight],
    names: &[u32],
    effects: &mut Effects,
) -> Result<PlainReply, AllocError>
    requires none { effects.old ≡ [] }
    requires there { IsSome (map.get state.old.current.spaces space) }
    requires lawful { Lawful state.old.current }
    requires rights { OfOldest state.old.current source.port (λ _ message. rights.now ≡ arriving message) }
    requires outline { OfOldest state.old.current source.port
        (λ _ message. (outline.size ≡ message_size message) × (outline.destination ≡ message.destination)) }
    requires room { map.len (names_in state.old.current space) + names_needed (names_in state.old.current space)
        [] rights.now ≤ MAX_NAMES }
    ensures received { IfOk result (λ reply. OfOldest state.old.current source.port
        (λ port message. Received state.old.current space
        (names_in state.old.current space) source.member source.port port message reply state.new.current
        effects.new)) }
    ensures wanted { IfOk result (λ reply. OfOldest state.old.current source.port
        (λ port message. (last : Names) → Arrives (names_in state.old.current space) (arriving message) names.now last
        → reply ≡ PlainReply.Message KernReturn.Success (message_size message) source.member
        (received_encoding message source.member port.sequence_number names.now))) }
    ensures before { state.new.before ≡ state.old.before }
{
    let mut given = Vec::with_capacity(alloc, rights.len())?;
    arrive(state, space, rights, names, &mut given)?;
    let encoding = oldest_encoding(alloc, state, source, given.as_slice())?;
    consume(outline.destination, source.port, effects)?;
    state.take_message(source.port)?;
    Ok(PlainReply::Message {
        code: KernReturn::Success,
        size: outline.size,
        member: source.member,
        message: Sequence::new(encoding),
    })
}

/// Returns the bytes of a port's oldest message as it is received if its rights get these names, or no bytes if there
/// is no message.
fn oldest_encoding(
    alloc: Global,
    state: &IpcState,
    source: Source,
    given: &[u32],
) -> Result<Vec<u8>, AllocError>
    requires lawful { OfOldest state.now.current source.port (λ _ message. LawfulMessage message) }
    requires given { OfOldest state.now.current source.port
        (λ _ message. length given.now ≡ length (arriving message)) }
    ensures { IfOk result (λ encoding. OfOldest state.now.current source.port
        (λ port message. encoding.items ≡ received_encoding message source.member port.sequence_number given.now)) }
{
    match (state.oldest(source.port), state.numbers(source.port)) {
        (Some(message), Some(numbers)) => received_encoding(
            alloc,
            message,
            source.member,
            numbers.sequence_number,
            given,
        ),
        _ => Ok(Vec::new(alloc)),
    }
}

/// Returns the reply of `mach_msg` without a message.
fn without_message(alloc: Global, code: KernReturn) -> PlainReply
    ensures { result ≡ PlainReply.Message code 0 MACH_PORT_NULL [] }
{
    PlainReply::without_message(alloc, code, 0, MACH_PORT_NULL)
}
