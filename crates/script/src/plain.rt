ghost use Rattle.std.specs.Prelude.{◌≡◌};
ghost use Rattle.script.specs.vocabulary.Spaced.{words_of};
ghost use Rattle.script.specs.Plain.{three_kinds, kinds_of, short_call, pair_call, long_call, plain_call, arguments_at, plain_at};
ghost use Rattle.script.specs.Reading.{Gives};

use crate::fault::{Expected, Fault};
use crate::values::read_value;
use crate::vocabulary::{Kind, Verb};
use ipc_model::PlainCall;

/// The kinds of a call's arguments, with `Absent` after the last.
#[derive(Clone, Copy)]
pub(crate) struct Kinds {
    pub(crate) first: Kind,
    pub(crate) second: Kind,
    pub(crate) third: Kind,
    pub(crate) fourth: Kind,
    pub(crate) fifth: Kind,
}

/// The arguments of a call, with 0 after the last.
#[derive(Clone, Copy)]
pub(crate) struct Arguments {
    pub(crate) first: u32,
    pub(crate) second: u32,
    pub(crate) third: u32,
    pub(crate) fourth: u32,
    pub(crate) fifth: u32,
}

fn three_kinds(first: Kind, second: Kind, third: Kind) -> Kinds
    ensures { result ≡ three_kinds first second third }
{
    Kinds {
        first,
        second,
        third,
        fourth: Kind::Absent,
        fifth: Kind::Absent,
    }
}

fn kinds_of_notification() -> Kinds
    ensures { result ≡ kinds_of Verb.RequestNotification }
{
    Kinds {
        first: Kind::Hexadecimal,
        second: Kind::Notification,
        third: Kind::Decimal,
        fourth: Kind::Hexadecimal,
        fifth: Kind::Disposition,
    }
}

/// Returns the kinds of a call's arguments, for every call except `mach_msg`.
fn kinds_of(verb: Verb) -> Kinds
    ensures { result ≡ kinds_of verb }
{
    let (first, second, third) = match verb {
        Verb::RequestNotification => return kinds_of_notification(),
        Verb::Attach => (Kind::Decimal, Kind::Absent, Kind::Absent),
        Verb::Allocate => (Kind::Right, Kind::Absent, Kind::Absent),
        Verb::Type
        | Verb::Destroy
        | Verb::Deallocate
        | Verb::GetReceiveStatus
        | Verb::GetSetStatus => (Kind::Hexadecimal, Kind::Absent, Kind::Absent),
        Verb::Rename | Verb::MoveMember => (Kind::Hexadecimal, Kind::Hexadecimal, Kind::Absent),
        Verb::AllocateName => (Kind::Right, Kind::Hexadecimal, Kind::Absent),
        Verb::GetRefs => (Kind::Hexadecimal, Kind::Right, Kind::Absent),
        Verb::ModRefs => (Kind::Hexadecimal, Kind::Right, Kind::Signed),
        Verb::SetQlimit | Verb::SetMscount | Verb::SetSeqno => {
            (Kind::Hexadecimal, Kind::Decimal, Kind::Absent)
        }
        Verb::InsertRight => (Kind::Hexadecimal, Kind::Hexadecimal, Kind::Disposition),
        Verb::ExtractRight | Verb::SpaceCreate => {
            (Kind::Hexadecimal, Kind::Disposition, Kind::Absent)
        }
        Verb::Names | Verb::SpaceDestroy | Verb::Send | Verb::Receive => {
            (Kind::Absent, Kind::Absent, Kind::Absent)
        }
    };
    three_kinds(first, second, third)
}

#[tactic(auto, unfolding(crate::specs::Plain::arguments_at))]
fn read_arguments(kinds: Kinds, text: &[u8]) -> Result<(Arguments, &[u8]), Fault>
    ensures { Gives (λ r. (r.0, words_of r.1.now)) result (arguments_at kinds (words_of text.now)) }
{
    let (first, rest) = read_value(kinds.first, text)?;
    let (second, rest) = read_value(kinds.second, rest)?;
    let (third, rest) = read_value(kinds.third, rest)?;
    let (fourth, rest) = read_value(kinds.fourth, rest)?;
    let (fifth, rest) = read_value(kinds.fifth, rest)?;
    let arguments = Arguments {
        first,
        second,
        third,
        fourth,
        fifth,
    };
    Ok((arguments, rest))
}

/// Returns the call with at most one argument.
fn short_call(verb: Verb, first: u32) -> Option<PlainCall>
    ensures { result ≡ short_call verb first }
{
    Some(match verb {
        Verb::Attach => PlainCall::Attach { space: first },
        Verb::Names => PlainCall::Names,
        Verb::Type => PlainCall::Type { name: first },
        Verb::Allocate => PlainCall::Allocate { right: first },
        Verb::Destroy => PlainCall::Destroy { name: first },
        Verb::Deallocate => PlainCall::Deallocate { name: first },
        Verb::GetReceiveStatus => PlainCall::GetReceiveStatus { name: first },
        Verb::GetSetStatus => PlainCall::GetSetStatus { name: first },
        Verb::SpaceDestroy => PlainCall::SpaceDestroy,
        _ => return None,
    })
}

/// Returns the call with two arguments. In all but one call the first one is a name.
fn pair_call(verb: Verb, name: u32, second: u32) -> Option<PlainCall>
    ensures { result ≡ pair_call verb name second }
{
    let disposition = second;
    Some(match verb {
        Verb::Rename => PlainCall::Rename {
            from: name,
            to: second,
        },
        Verb::AllocateName => PlainCall::AllocateName {
            right: name,
            name: second,
        },
        Verb::GetRefs => PlainCall::GetRefs {
            name,
            right: second,
        },
        Verb::SetQlimit => PlainCall::SetQlimit {
            name,
            limit: second,
        },
        Verb::SetMscount => PlainCall::SetMscount {
            name,
            count: second,
        },
        Verb::SetSeqno => PlainCall::SetSeqno {
            name,
            seqno: second,
        },
        Verb::MoveMember => PlainCall::MoveMember {
            member: name,
            after: second,
        },
        Verb::ExtractRight => PlainCall::ExtractRight { name, disposition },
        Verb::SpaceCreate => PlainCall::SpaceCreate { name, disposition },
        _ => return None,
    })
}

/// Returns the call with more than two arguments.
fn long_call(verb: Verb, arguments: Arguments) -> Option<PlainCall>
    ensures { result ≡ long_call verb arguments }
{
    let name = arguments.first;
    Some(match verb {
        Verb::ModRefs => PlainCall::ModRefs {
            name,
            right: arguments.second,
            delta: arguments.third,
        },
        Verb::RequestNotification => PlainCall::RequestNotification {
            name,
            variant: arguments.second,
            sync: arguments.third,
            notify: arguments.fourth,
            disposition: arguments.fifth,
        },
        Verb::InsertRight => PlainCall::InsertRight {
            name,
            right_name: arguments.second,
            disposition: arguments.third,
        },
        _ => return None,
    })
}

/// Returns the call of a verb with these arguments, for every call except `mach_msg`.
fn plain_call(verb: Verb, arguments: Arguments) -> Option<PlainCall>
    ensures { result ≡ plain_call verb arguments }
{
    if let Some(call) = short_call(verb, arguments.first) {
        return Some(call);
    }
    if let Some(call) = pair_call(verb, arguments.first, arguments.second) {
        return Some(call);
    }
    long_call(verb, arguments)
}

/// Reads the arguments of a verb's call, for every call except `mach_msg`.
#[tactic(auto, unfolding(crate::specs::Plain::plain_at))]
pub(crate) fn read_plain(verb: Verb, text: &[u8]) -> Result<(PlainCall, &[u8]), Fault>
    ensures { Gives (λ r. (r.0, words_of r.1.now)) result (plain_at verb (words_of text.now)) }
{
    let (arguments, rest) = read_arguments(kinds_of(verb), text)?;
    match plain_call(verb, arguments) {
        Some(call) => Ok((call, rest)),
        None => Err(Fault::expected(Expected::CallName, text)),
    }
}
