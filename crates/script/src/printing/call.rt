ghost use Rattle.std.specs.Prelude.{◌≡◌, ◌++◌, ◌∷◌, [], OnOk, codes};
ghost use Rattle.ipc_model.specs.declared.plain_call.PlainCall.TheVariants as call_variants;
ghost use Rattle.script.specs.vocabulary.Kinds.{value_word};
ghost use Rattle.script.specs.vocabulary.Spaced.{spaced};
ghost use Rattle.script.specs.vocabulary.Verbs.{verb_word};
ghost use Rattle.script.specs.printing.Calls.{argument_words, count_word, first_word, further_words, pair_words, receive_words, verb_of};

use crate::printing::message::{push_flag, push_labelled, push_message};
use crate::printing::values::{push_three, push_two};
use crate::vocabulary::{Kind, Verb, large_word, push_spaced, push_value};
use ipc_model::{Call, PlainCall};
use std::alloc::AllocError;

/// Returns the verb of a call.
fn verb_of(call: &PlainCall) -> Verb
    ensures { result ≡ verb_of call.now }
{
    match call {
        PlainCall::Attach { .. } => Verb::Attach,
        PlainCall::Names => Verb::Names,
        PlainCall::Type { .. } => Verb::Type,
        PlainCall::Rename { .. } => Verb::Rename,
        PlainCall::AllocateName { .. } => Verb::AllocateName,
        PlainCall::Allocate { .. } => Verb::Allocate,
        PlainCall::Destroy { .. } => Verb::Destroy,
        PlainCall::Deallocate { .. } => Verb::Deallocate,
        PlainCall::GetRefs { .. } => Verb::GetRefs,
        PlainCall::ModRefs { .. } => Verb::ModRefs,
        PlainCall::SetQlimit { .. } => Verb::SetQlimit,
        PlainCall::SetMscount { .. } => Verb::SetMscount,
        PlainCall::SetSeqno { .. } => Verb::SetSeqno,
        PlainCall::GetReceiveStatus { .. } => Verb::GetReceiveStatus,
        PlainCall::GetSetStatus { .. } => Verb::GetSetStatus,
        PlainCall::MoveMember { .. } => Verb::MoveMember,
        PlainCall::RequestNotification { .. } => Verb::RequestNotification,
        PlainCall::InsertRight { .. } => Verb::InsertRight,
        PlainCall::ExtractRight { .. } => Verb::ExtractRight,
        PlainCall::Send { .. } => Verb::Send,
        PlainCall::Receive { .. } => Verb::Receive,
        PlainCall::SpaceCreate { .. } => Verb::SpaceCreate,
        PlainCall::SpaceDestroy => Verb::SpaceDestroy,
    }
}

/// Appends the words of a receive's arguments.
#[tactic(auto, using(crate::proofs::vocabulary::WordsOf::spaced_laws))]
fn push_receive(
    line: &mut Vec<u8>,
    limit: u32,
    large: bool,
    name: u32,
    waited: bool,
) -> Result<(), AllocError>
    ensures { OnOk result (line.new.items ≡ line.old.items ++ spaced (receive_words limit large name waited)) }
{
    push_value(line, Kind::Hexadecimal, name)?;
    push_labelled(line, b"limit", Kind::Decimal, limit)?;
    push_flag(line, large_word(), large)?;
    push_flag(line, b"waited", waited)
}

/// Appends the words of the arguments of a notification request.
#[tactic(auto, using(crate::proofs::vocabulary::WordsOf::spaced_laws))]
fn push_notification(
    line: &mut Vec<u8>,
    name: u32,
    variant: u32,
    sync: u32,
    notify: u32,
    disposition: u32,
) -> Result<(), AllocError>
    ensures { OnOk result (line.new.items ≡ line.old.items
        ++ spaced (argument_words (call_variants.RequestNotification name variant sync notify disposition))) }
{
    push_three(
        line,
        (Kind::Hexadecimal, name),
        (Kind::Notification, variant),
        (Kind::Decimal, sync),
    )?;
    push_two(
        line,
        (Kind::Hexadecimal, notify),
        (Kind::Disposition, disposition),
    )
}

/// Appends a name and another number.
fn push_name_and(line: &mut Vec<u8>, name: u32, kind: Kind, number: u32) -> Result<(), AllocError>
    ensures { OnOk result (line.new.items ≡ line.old.items
        ++ spaced (value_word Kind.Hexadecimal name ∷ value_word kind number ∷ [])) }
{
    push_two(line, (Kind::Hexadecimal, name), (kind, number))
}

/// Appends the words of two arguments, of which the first is a name.
#[tactic(auto, using(crate::proofs::vocabulary::WordsOf::spaced_laws))]
fn push_pair(line: &mut Vec<u8>, call: &PlainCall) -> Result<(), AllocError>
    ensures { OnOk result (line.new.items ≡ line.old.items ++ spaced (pair_words call.now)) }
{
    match call {
        PlainCall::Rename { from, to } => push_name_and(line, *from, Kind::Hexadecimal, *to),
        PlainCall::GetRefs { name, right } => push_name_and(line, *name, Kind::Right, *right),
        PlainCall::SetQlimit { name, limit } => push_name_and(line, *name, Kind::Decimal, *limit),
        PlainCall::SetMscount { name, count } => push_name_and(line, *name, Kind::Decimal, *count),
        PlainCall::SetSeqno { name, seqno } => push_name_and(line, *name, Kind::Decimal, *seqno),
        PlainCall::MoveMember { member, after } => {
            push_name_and(line, *member, Kind::Hexadecimal, *after)
        }
        PlainCall::ExtractRight { name, disposition }
        | PlainCall::SpaceCreate { name, disposition } => {
            push_name_and(line, *name, Kind::Disposition, *disposition)
        }
        _ => Ok(()),
    }
}

/// Appends the words of the arguments of an insertion of a right.
#[tactic(auto, using(crate::proofs::vocabulary::WordsOf::spaced_laws))]
fn push_insertion(
    line: &mut Vec<u8>,
    name: u32,
    right_name: u32,
    disposition: u32,
) -> Result<(), AllocError>
    ensures { OnOk result (line.new.items ≡ line.old.items
        ++ spaced (argument_words (call_variants.InsertRight name right_name disposition))) }
{
    push_name_and(line, name, Kind::Hexadecimal, right_name)?;
    push_value(line, Kind::Disposition, disposition)
}

/// Appends the words of a call's arguments.
#[tactic(auto, using(crate::proofs::vocabulary::WordsOf::spaced_laws))]
fn push_arguments(line: &mut Vec<u8>, call: &PlainCall) -> Result<(), AllocError>
    ensures { OnOk result (line.new.items ≡ line.old.items ++ spaced (argument_words call.now)) }
{
    match call {
        PlainCall::Names | PlainCall::SpaceDestroy => Ok(()),
        PlainCall::Attach { space } => push_value(line, Kind::Decimal, *space),
        PlainCall::Allocate { right } => push_value(line, Kind::Right, *right),
        PlainCall::Type { name }
        | PlainCall::Destroy { name }
        | PlainCall::Deallocate { name }
        | PlainCall::GetReceiveStatus { name }
        | PlainCall::GetSetStatus { name } => push_value(line, Kind::Hexadecimal, *name),
        PlainCall::AllocateName { right, name } => {
            push_two(line, (Kind::Right, *right), (Kind::Hexadecimal, *name))
        }
        PlainCall::ModRefs { name, right, delta } => {
            push_name_and(line, *name, Kind::Right, *right)?;
            push_value(line, Kind::Signed, *delta)
        }
        PlainCall::RequestNotification {
            name,
            variant,
            sync,
            notify,
            disposition,
        } => push_notification(line, *name, *variant, *sync, *notify, *disposition),
        PlainCall::InsertRight {
            name,
            right_name,
            disposition,
        } => push_insertion(line, *name, *right_name, *disposition),
        PlainCall::Send { message } => push_message(line, message.as_slice()),
        PlainCall::Receive {
            limit,
            large,
            name,
            waited,
        } => push_receive(line, *limit, *large, *name, *waited),
        _ => push_pair(line, call),
    }
}

/// Appends the words of a call that isn't numbered. The first word has no space before it.
#[tactic(auto, using(crate::proofs::vocabulary::WordsOf::spaced_laws))]
fn push_plain(line: &mut Vec<u8>, call: &PlainCall) -> Result<(), AllocError>
    ensures { OnOk result (line.new.items ≡ (line.old.items ++ verb_word (verb_of call.now))
        ++ spaced (argument_words call.now)) }
{
    line.extend_from_slice(verb_of(call).word())?;
    push_arguments(line, call)
}

/// Appends the words of a numbered call. The first word has no space before it.
#[tactic(auto, using(crate::proofs::vocabulary::WordsOf::spaced_laws))]
fn push_numbered(line: &mut Vec<u8>, request: u32, call: &PlainCall) -> Result<(), AllocError>
    ensures { OnOk result (line.new.items ≡ (line.old.items ++ codes "numbered")
        ++ spaced (count_word request ∷ verb_word (verb_of call.now) ∷ argument_words call.now)) }
{
    line.extend_from_slice(b"numbered")?;
    push_value(line, Kind::Decimal, request)?;
    push_spaced(line, verb_of(call).word())?;
    push_arguments(line, call)
}

/// Appends the words of a call. The first word has no space before it.
#[tactic(auto, using(crate::proofs::vocabulary::WordsOf::spaced_laws))]
pub(crate) fn push_call_words(line: &mut Vec<u8>, call: &Call) -> Result<(), AllocError>
    ensures { OnOk result (line.new.items ≡ (line.old.items ++ first_word call.now)
        ++ spaced (further_words call.now)) }
{
    match call {
        Call::Plain(call) => push_plain(line, call),
        Call::Numbered(numbered) => push_numbered(line, numbered.request, &numbered.call),
        Call::Unnumberable => line.extend_from_slice(b"numbered"),
    }
}
