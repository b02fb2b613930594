//! Updates the kept reply of a space, before or after the call's record is written.
ghost use Rattle.std.specs.Prelude.{◌≡◌, true, false, Some, None, IsSome, IfOk, OnOk, OnErr, MatchOption};
ghost use Rattle.std.specs.FinMap as map;
ghost use Rattle.ipc_model.specs.calls.Step.{has_record};
ghost use Rattle.ipc_laws.specs.RecordedSteps.{IsAnsweredWhole};
ghost use Rattle.kernel.specs.Keeping.{kept_by, put_back};

use crate::answering::Keeping;
use crate::recording::Recorder;
use ipc_model::{Call, NumberedReply, Reply};
use number_table::NumberTable;
use std::alloc::AllocError;

/// Updates the kept reply of a space after a call. If an allocation fails, nothing changed.
pub fn keep(
    kept: &mut NumberTable<NumberedReply>,
    space: u32,
    keeping: Keeping,
) -> Result<(), AllocError>
    ensures ok { OnOk result (kept.new ≡ kept_by keeping kept.old space) }
    ensures err { OnErr result (kept.new ≡ kept.old) }
{
    match keeping {
        Keeping::Same => {}
        Keeping::Nothing => {
            let _ = kept.remove(space);
        }
        Keeping::Answer(given) => {
            let _ = kept.insert(space, given)?;
        }
    }
    Ok(())
}

/// Updates the kept reply of a space after a call, and writes the call's record, if it is recorded. If an allocation
/// fails, nothing changed: an update that may allocate comes before the record, and is undone if the record fails.
pub fn keep_recorded<R: Recorder>(
    kept: &mut NumberTable<NumberedReply>,
    space: u32,
    call: &Call,
    reply: &Reply,
    keeping: Keeping,
    recorder: &mut R,
) -> Result<(), AllocError>
    requires room { R.has_room recorder.old }
    requires whole { has_record call.now reply.now ≡ true → IsAnsweredWhole call.now reply.now }
    ensures ok { OnOk result (kept.new ≡ kept_by keeping kept.old space) }
    ensures written { OnOk result (has_record call.now reply.now ≡ true
        → R.wrote recorder.old space call.now reply.now recorder.new) }
    ensures unwritten { OnOk result (has_record call.now reply.now ≡ false → recorder.new ≡ recorder.old) }
    ensures err { OnErr result ((kept.new ≡ kept.old) × (recorder.new ≡ recorder.old)) }
{
    match keeping {
        Keeping::Same => {
            write_record(space, call, reply, recorder)?;
            Ok(())
        }
        Keeping::Nothing => {
            write_record(space, call, reply, recorder)?;
            let _ = kept.remove(space);
            Ok(())
        }
        Keeping::Answer(given) => {
            let before = kept.insert(space, given)?;
            match write_record(space, call, reply, recorder) {
                Ok(()) => Ok(()),
                Err(error) => {
                    put_back(kept, space, before);
                    Err(error)
                }
            }
        }
    }
}

/// Writes a call's record, if the call is recorded.
fn write_record<R: Recorder>(
    space: u32,
    call: &Call,
    reply: &Reply,
    recorder: &mut R,
) -> Result<(), AllocError>
    requires room { R.has_room recorder.old }
    requires whole { has_record call.now reply.now ≡ true → IsAnsweredWhole call.now reply.now }
    ensures written { OnOk result (has_record call.now reply.now ≡ true
        → R.wrote recorder.old space call.now reply.now recorder.new) }
    ensures unwritten { OnOk result (has_record call.now reply.now ≡ false → recorder.new ≡ recorder.old) }
    ensures err { OnErr result (recorder.new ≡ recorder.old) }
{
    if !call.has_record(reply) {
        return Ok(());
    }
    recorder.write(space, call, reply)?;
    Ok(())
}

/// Restores the reply that a space kept before. It allocates nothing.
fn put_back(kept: &mut NumberTable<NumberedReply>, space: u32, before: Option<NumberedReply>)
    requires { IsSome (map.get kept.old space) }
    ensures { kept.new ≡ put_back kept.old space before }
{
    match before {
        None => {
            let _ = kept.remove(space);
        }
        Some(given) => {
            // The space has a kept reply, so its slot is allocated.
            let _ = kept.insert(space, given);
        }
    }
}
