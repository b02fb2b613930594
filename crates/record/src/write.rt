ghost use Rattle.std.specs.Prelude.{◌≡◌, ◌<◌, ◌≤◌, ◌+◌, ◌^◌, ◌++◌, OnOk, OnErr, length};
ghost use Rattle.std.specs.Vec.{vec_len, vec_capacity};
ghost use Rattle.ipc_model.specs.encodings.Encodings.{call_encoding, reply_encoding, canonical_call, record_encoding};
ghost use Rattle.words.specs.Words.{frame_encoding};

use crate::frame::set_length;
use calls::{push_canonical_call, push_reply};
use ipc_model::{Call, Record, Reply};
use std::alloc::AllocError;
use words::{push_long_word, push_word};

/// Appends the frame of a call in canonical form. If an allocation fails, part of it may have been appended. It
/// allocates nothing if there is room.
fn push_call_frame(out: &mut Vec<u8>, call: &Call) -> Result<(), AllocError>
    requires { length (call_encoding call.now) < 2 ^ 32 }
    ensures ok { OnOk result (out.new.items ≡ out.old.items ++ frame_encoding (call_encoding (canonical_call call.now))) }
    ensures full { OnErr result (vec_capacity out.old < vec_len out.old + (4 + length (call_encoding call.now))) }
    ensures room { vec_capacity out.old ≤ vec_capacity out.new }
{
    let at = out.len();
    push_word(out, 0)?;
    push_canonical_call(out, call)?;
    set_length(out, at);
    Ok(())
}

/// Appends the frame of a reply. If an allocation fails, part of it may have been appended. It allocates nothing if
/// there is room.
fn push_reply_frame(out: &mut Vec<u8>, reply: &Reply) -> Result<(), AllocError>
    requires { length (reply_encoding reply.now) < 2 ^ 32 }
    ensures ok { OnOk result (out.new.items ≡ out.old.items ++ frame_encoding (reply_encoding reply.now)) }
    ensures full { OnErr result (vec_capacity out.old < vec_len out.old + (4 + length (reply_encoding reply.now))) }
    ensures room { vec_capacity out.old ≤ vec_capacity out.new }
{
    let at = out.len();
    push_word(out, 0)?;
    push_reply(out, reply)?;
    set_length(out, at);
    Ok(())
}

/// Appends a record: its number, the space of the task, the call in canonical form and the reply. If an allocation
/// fails, part of it may have been appended. It allocates nothing if there is room.
#[tactic(auto, unfolding(ipc_model::specs::encodings::Encodings::record_encoding))]
pub fn push_exchange(
    out: &mut Vec<u8>,
    number: u64,
    space: u32,
    call: &Call,
    reply: &Reply,
) -> Result<(), AllocError>
    requires call { length (call_encoding call.now) < 2 ^ 32 }
    requires reply { length (reply_encoding reply.now) < 2 ^ 32 }
    ensures ok { OnOk result (out.new.items ≡ out.old.items
        ++ record_encoding number (record { space = space; call = call.now; reply = reply.now })) }
    ensures full { OnErr result (vec_capacity out.old < vec_len out.old
        + length (record_encoding number (record { space = space; call = call.now; reply = reply.now }))) }
    ensures room { vec_capacity out.old ≤ vec_capacity out.new }
{
    push_long_word(out, number)?;
    push_word(out, space)?;
    push_call_frame(out, call)?;
    push_reply_frame(out, reply)
}

/// Appends a record with this number, and its call in canonical form. If an allocation fails, part of it may have been
/// appended. It allocates nothing if there is room.
pub fn push_record(out: &mut Vec<u8>, number: u64, record: &Record) -> Result<(), AllocError>
    requires call { length (call_encoding «record».now.call) < 2 ^ 32 }
    requires reply { length (reply_encoding «record».now.reply) < 2 ^ 32 }
    ensures ok { OnOk result (out.new.items ≡ out.old.items ++ record_encoding number «record».now) }
    ensures full { OnErr result (vec_capacity out.old < vec_len out.old + length (record_encoding number «record».now)) }
    ensures room { vec_capacity out.old ≤ vec_capacity out.new }
{
    push_exchange(out, number, record.space, &record.call, &record.reply)
}
