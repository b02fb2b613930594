//! The tests of a numbered call.
ghost use Rattle.std.specs.Prelude.{◌≡◌, ◌==◌, ◌||◌, not, nat_lt, None, Some, is_some, option_copied, MatchResult, if◌then◌else◌};
ghost use Rattle.std.specs.FinMap as map;
ghost use Rattle.ipc_model.specs.calls.Step.{asked_again, is_other_call, tests_of_numbered};
ghost use Rattle.ipc_model.specs.calls.Tests.{first_failing};
ghost use Rattle.ipc_model.specs.state.State.{last_request};
ghost use Rattle.kernel.specs.Keeping.{state_of};

use crate::reply::number_of;
use codes::KernReturn;
use ipc_model::{NumberedCall, NumberedReply};
use number_table::NumberTable;
use port_calls::IpcState;

/// Returns the reply that the space keeps, if the request repeats the last one, or `None` if the call is to be made. If
/// a test fails, returns the code with which the call is refused.
pub fn test_numbered<'a>(
    state: &IpcState,
    kept: &'a NumberTable<NumberedReply>,
    space: u32,
    numbered: &NumberedCall,
) -> Result<Option<&'a NumberedReply>, KernReturn>
    ensures { MatchResult result
        (λ again. (first_failing (tests_of_numbered (state_of state.now.current kept.now) space numbered.now) ≡ None)
        × (option_copied again ≡ asked_again (map.get kept.now space) numbered.now.request))
        (λ code. first_failing (tests_of_numbered (state_of state.now.current kept.now) space numbered.now)
        ≡ Some code) }
{
    if !state.has_space(space) {
        return Err(KernReturn::InvalidTask);
    }
    if !numbered.call.may_be_numbered() {
        return Err(KernReturn::InvalidArgument);
    }
    let last = kept.get(space);
    if is_stale(numbered.request, last) {
        return Err(KernReturn::InvalidValue);
    }
    let again = asked_again(last, numbered.request);
    if is_other_call(again, numbered.call.number()) {
        return Err(KernReturn::InvalidArgument);
    }
    Ok(again)
}

/// Returns the code with which number 22 refuses a call that can't be numbered.
pub fn code_of_unnumberable(state: &IpcState, space: u32) -> KernReturn
    ensures { result ≡ (if not (is_some (map.get state.now.current.spaces space)) then KernReturn.InvalidTask
        else KernReturn.InvalidArgument) }
{
    if !state.has_space(space) {
        return KernReturn::InvalidTask;
    }
    KernReturn::InvalidArgument
}

/// Returns true if a request is 0 or less than the last one.
fn is_stale(request: u32, last: Option<&NumberedReply>) -> bool
    ensures { result ≡ (request == 0 || nat_lt request (last_request (option_copied last.entry))) }
{
    request == 0 || request < last_request(last)
}

/// Returns the number of the last request, or 0 if there is none.
fn last_request(last: Option<&NumberedReply>) -> u32
    ensures { result ≡ last_request (option_copied last.entry) }
{
    match last {
        Some(kept) => kept.request,
        None => 0,
    }
}

/// Returns the kept reply, if this request repeats the last one.
fn asked_again(last: Option<&NumberedReply>, request: u32) -> Option<&NumberedReply>
    ensures { option_copied result ≡ asked_again (option_copied last.entry) request }
{
    let kept = last?;
    if kept.request == request {
        Some(kept)
    } else {
        None
    }
}

/// Returns true if the request repeats the last one with a call of another number.
fn is_other_call(again: Option<&NumberedReply>, number: u32) -> bool
    ensures { result ≡ is_other_call (option_copied again.entry) number }
{
    match again {
        Some(kept) => number_of(&kept.reply) != number,
        None => false,
    }
}
