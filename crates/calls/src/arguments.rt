ghost use Rattle.std.specs.Prelude.{◌≡◌, ◌≢◌, ◌++◌, IfSome, IfNone, Some, []};
ghost use Rattle.ipc_model.specs.declared.plain_call.PlainCall.{PlainCall};
ghost use Rattle.ipc_model.specs.calls.PlainStep.{number_of_call};
ghost use Rattle.ipc_model.specs.encodings.PlainCalls.{arguments_encoding, FitsCall, IsCanonicalCall};
ghost use Rattle.words.specs.Words.{word};
ghost use Rattle.calls.specs.Shapes.{count_of_words};

use crate::word_rows::{five_words, one_word, three_words, two_words};
use codes::{
    ATTACH, MACH_MSG, MACH_PORT_ALLOCATE, MACH_PORT_ALLOCATE_NAME, MACH_PORT_DEALLOCATE,
    MACH_PORT_DESTROY, MACH_PORT_EXTRACT_RIGHT, MACH_PORT_GET_RECEIVE_STATUS, MACH_PORT_GET_REFS,
    MACH_PORT_GET_SET_STATUS, MACH_PORT_INSERT_RIGHT, MACH_PORT_MOD_REFS, MACH_PORT_MOVE_MEMBER,
    MACH_PORT_NAMES, MACH_PORT_RENAME, MACH_PORT_REQUEST_NOTIFICATION, MACH_PORT_SET_MSCOUNT,
    MACH_PORT_SET_QLIMIT, MACH_PORT_SET_SEQNO, MACH_PORT_TYPE, SPACE_CREATE, SPACE_DESTROY,
};
use ipc_model::PlainCall;

/// Returns the call with this number that has no arguments.
fn call_of_none(number: u32) -> Option<PlainCall>
    ensures found { IfSome result (λ call. (number_of_call call ≡ number) × (arguments_encoding call ≡ [])
        × IsCanonicalCall call) }
    ensures none { IfNone result (count_of_words number ≢ 0) }
{
    match number {
        MACH_PORT_NAMES => Some(PlainCall::Names),
        SPACE_DESTROY => Some(PlainCall::SpaceDestroy),
        _ => None,
    }
}

/// Returns the call with this number and this one argument.
fn call_of_one(number: u32, a: u32) -> Option<PlainCall>
    ensures found { IfSome result (λ call. (number_of_call call ≡ number) × (arguments_encoding call ≡ word a)
        × IsCanonicalCall call) }
    ensures none { IfNone result (count_of_words number ≢ 1) }
{
    match number {
        ATTACH => Some(PlainCall::Attach { space: a }),
        MACH_PORT_TYPE => Some(PlainCall::Type { name: a }),
        MACH_PORT_ALLOCATE => Some(PlainCall::Allocate { right: a }),
        MACH_PORT_DESTROY => Some(PlainCall::Destroy { name: a }),
        MACH_PORT_DEALLOCATE => Some(PlainCall::Deallocate { name: a }),
        MACH_PORT_GET_RECEIVE_STATUS => Some(PlainCall::GetReceiveStatus { name: a }),
        MACH_PORT_GET_SET_STATUS => Some(PlainCall::GetSetStatus { name: a }),
        _ => None,
    }
}

/// Returns the call with this number and these two arguments.
fn call_of_two(number: u32, a: u32, b: u32) -> Option<PlainCall>
    ensures found { IfSome result (λ call. (number_of_call call ≡ number) × (arguments_encoding call ≡ word a ++ word b)
        × IsCanonicalCall call) }
    ensures none { IfNone result (count_of_words number ≢ 2) }
{
    match number {
        MACH_PORT_RENAME => Some(PlainCall::Rename { from: a, to: b }),
        MACH_PORT_ALLOCATE_NAME => Some(PlainCall::AllocateName { right: a, name: b }),
        MACH_PORT_GET_REFS => Some(PlainCall::GetRefs { name: a, right: b }),
        MACH_PORT_SET_QLIMIT => Some(PlainCall::SetQlimit { name: a, limit: b }),
        MACH_PORT_SET_MSCOUNT => Some(PlainCall::SetMscount { name: a, count: b }),
        MACH_PORT_SET_SEQNO => Some(PlainCall::SetSeqno { name: a, seqno: b }),
        MACH_PORT_MOVE_MEMBER => Some(PlainCall::MoveMember {
            member: a,
            after: b,
        }),
        MACH_PORT_EXTRACT_RIGHT => Some(PlainCall::ExtractRight {
            name: a,
            disposition: b,
        }),
        SPACE_CREATE => Some(PlainCall::SpaceCreate {
            name: a,
            disposition: b,
        }),
        _ => None,
    }
}

/// Returns the call with this number and these three arguments.
fn call_of_three(number: u32, a: u32, b: u32, c: u32) -> Option<PlainCall>
    ensures found { IfSome result (λ call. (number_of_call call ≡ number)
        × (arguments_encoding call ≡ word a ++ (word b ++ word c)) × IsCanonicalCall call) }
    ensures none { IfNone result (count_of_words number ≢ 3) }
{
    match number {
        MACH_PORT_MOD_REFS => Some(PlainCall::ModRefs {
            name: a,
            right: b,
            delta: c,
        }),
        MACH_PORT_INSERT_RIGHT => Some(PlainCall::InsertRight {
            name: a,
            right_name: b,
            disposition: c,
        }),
        _ => None,
    }
}

/// Returns the call with this number and these arguments. The number isn't that of `mach_msg`.
pub(crate) fn read_arguments(number: u32, arguments: &[u8]) -> Option<PlainCall>
    requires { number ≢ MACH_MSG }
    ensures found { IfSome result (λ call. (number_of_call call ≡ number) × (arguments.now ≡ arguments_encoding call)
        × IsCanonicalCall call) }
    ensures only { (call : PlainCall) → FitsCall call → number_of_call call ≡ number
        → arguments.now ≡ arguments_encoding call → result ≡ Some call }
{
    match arguments.len() {
        0 => call_of_none(number),
        4 => {
            let a = one_word(arguments)?;
            call_of_one(number, a)
        }
        8 => {
            let (a, b) = two_words(arguments)?;
            call_of_two(number, a, b)
        }
        12 => {
            let (a, b, c) = three_words(arguments)?;
            call_of_three(number, a, b, c)
        }
        20 if number == MACH_PORT_REQUEST_NOTIFICATION => {
            let (name, variant, sync, notify, disposition) = five_words(arguments)?;
            Some(PlainCall::RequestNotification {
                name,
                variant,
                sync,
                notify,
                disposition,
            })
        }
        _ => None,
    }
}
