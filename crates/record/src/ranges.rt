ghost use Rattle.std.specs.Prelude.{◌≡◌, ◌≤◌, IsTrue, length};
ghost use Rattle.codes.specs.declared.limits.TheConstants.{MAX_FRAME_CONTENT};
ghost use Rattle.ipc_model.specs.calls.Step.{number_of_call, has_record};
ghost use Rattle.ipc_model.specs.encodings.Encodings.{call_encoding, reply_encoding, canonical_record, number_of_reply, HasItsResults, IsRecord, IsWholeCall};

use ipc_model::{Call, Reply, call_in_range, reply_in_range};

/// Proves that the numbers of a call and its reply are in the ranges of their types, which contracts can't see behind a
/// reference. So the canonical form of a recorded call, with its results, may be in a segment. It does nothing else.
pub fn in_range(space: u32, call: &Call, reply: &Reply)
    ensures { IsWholeCall call.now → number_of_reply reply.now ≡ number_of_call call.now
        → HasItsResults call.now reply.now → IsTrue (has_record call.now reply.now)
        → length (call_encoding call.now) ≤ MAX_FRAME_CONTENT → length (reply_encoding reply.now) ≤ MAX_FRAME_CONTENT
        → IsRecord (canonical_record (record { space = space; call = call.now; reply = reply.now })) }
{
    call_in_range(call);
    reply_in_range(call, reply);
}
