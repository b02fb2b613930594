ghost use Rattle.std.specs.Prelude.{◌≡◌, []};
ghost use Rattle.ipc_model.specs.declared.plain_call.PlainCall.TheVariants as call;
ghost use Rattle.ipc_model.specs.calls.PlainStep.{Acts};

use crate::name_lookup::named;
use crate::reply::refused;
use codes::{
    KernReturn, MACH_PORT_SET_MSCOUNT, MACH_PORT_SET_QLIMIT, MACH_PORT_SET_SEQNO, MAX_QUEUE_LIMIT,
};
use ipc_model::PlainReply;
use port_set::received_port;
use rights::{IpcState, PortNumbers};
use std::alloc::AllocError;

/// `mach_port_set_qlimit`: sets the limit of a port's queue. If an allocation fails, the changes must be rolled back.
#[tactic(auto, unfolding(ipc_model::specs::calls::PortCalls::tests_of, ipc_model::specs::calls::Actions::Done))]
pub fn set_qlimit(
    state: &mut IpcState,
    space: u32,
    name: u32,
    limit: u32,
) -> Result<PlainReply, AllocError>
    ensures acts { Acts state.old.current space (call.SetQlimit name limit) result state.new.current [] }
    ensures before { state.new.before ≡ state.old.before }
{
    let number = MACH_PORT_SET_QLIMIT;
    if limit > MAX_QUEUE_LIMIT {
        return Ok(refused(number, KernReturn::InvalidValue));
    }
    let Some(entry) = named(state, space, name) else {
        return Ok(refused(number, KernReturn::InvalidName));
    };
    let Some(port) = received_port(entry) else {
        return Ok(refused(number, KernReturn::InvalidRight));
    };
    if let Some(numbers) = state.numbers(port) {
        state.set_numbers(port, PortNumbers { limit, ..numbers })?;
    }
    Ok(PlainReply::Done { number })
}

/// `mach_port_set_mscount`: sets the make-send count of a port. If an allocation fails, the changes must be rolled
/// back.
#[tactic(auto, unfolding(ipc_model::specs::calls::PortCalls::tests_of, ipc_model::specs::calls::Actions::Done))]
pub fn set_mscount(
    state: &mut IpcState,
    space: u32,
    name: u32,
    count: u32,
) -> Result<PlainReply, AllocError>
    ensures acts { Acts state.old.current space (call.SetMscount name count) result state.new.current [] }
    ensures before { state.new.before ≡ state.old.before }
{
    let number = MACH_PORT_SET_MSCOUNT;
    let Some(entry) = named(state, space, name) else {
        return Ok(refused(number, KernReturn::InvalidName));
    };
    let Some(port) = received_port(entry) else {
        return Ok(refused(number, KernReturn::InvalidRight));
    };
    if let Some(numbers) = state.numbers(port) {
        let make_send_count = count;
        state.set_numbers(
            port,
            PortNumbers {
                make_send_count,
                ..numbers
            },
        )?;
    }
    Ok(PlainReply::Done { number })
}

/// `mach_port_set_seqno`: sets the sequence number of the port's next message. If an allocation fails, the changes must
/// be rolled back.
#[tactic(auto, unfolding(ipc_model::specs::calls::PortCalls::tests_of, ipc_model::specs::calls::Actions::Done))]
pub fn set_seqno(
    state: &mut IpcState,
    space: u32,
    name: u32,
    seqno: u32,
) -> Result<PlainReply, AllocError>
    ensures acts { Acts state.old.current space (call.SetSeqno name seqno) result state.new.current [] }
    ensures before { state.new.before ≡ state.old.before }
{
    let number = MACH_PORT_SET_SEQNO;
    let Some(entry) = named(state, space, name) else {
        return Ok(refused(number, KernReturn::InvalidName));
    };
    let Some(port) = received_port(entry) else {
        return Ok(refused(number, KernReturn::InvalidRight));
    };
    if let Some(numbers) = state.numbers(port) {
        let sequence_number = seqno;
        state.set_numbers(
            port,
            PortNumbers {
                sequence_number,
                ..numbers
            },
        )?;
    }
    Ok(PlainReply::Done { number })
}
