ghost use Rattle.std.specs.Prelude.{◌≡◌, ◌≤◌, ◌++◌, length, take, drop, IfOk};
ghost use Rattle.std.specs.Vec.{vec_capacity};
ghost use Rattle.ipc_model.specs.messages.Kept.{canonical_message};

use std::alloc::{AllocError, Global};

/// The bits of a message's first bytes that a send uses. In the word of bits (`msgh_bits`) these are the dispositions
/// and the complex bit. The words of size and sequence number have none; both words of names have all.
const USED_BITS: [u8; 20] = [
    0xff, 0xff, 0, 0x80, 0, 0, 0, 0, 0xff, 0xff, 0xff, 0xff, 0xff, 0xff, 0xff, 0xff, 0, 0, 0, 0,
];

/// Makes a message canonical: sets each bit that a send ignores to 0.
#[tactic(auto, unfolding(ipc_model::specs::messages::Kept::canonical_message))]
fn clear_ignored(message: &mut [u8])
    ensures { message.new ≡ canonical_message message.old }
{
    for i in 0..message.len().min(USED_BITS.len()) {
        message[i] &= USED_BITS[i];
    }
}

/// Makes the message from offset `at` to the end canonical. It allocates nothing.
pub(crate) fn make_canonical(out: &mut Vec<u8>, at: usize)
    requires { at ≤ length out.old.items }
    ensures message { out.new.items ≡ take at out.old.items ++ canonical_message (drop at out.old.items) }
    ensures room { vec_capacity out.new ≡ vec_capacity out.old }
{
    let (_, message) = out.as_mut_slice().split_at_mut(at);
    clear_ignored(message);
}

/// Returns a canonical copy of the message.
pub(crate) fn canonical_message_of(alloc: Global, message: &[u8]) -> Result<Vec<u8>, AllocError>
    ensures { IfOk result (λ kept. kept.items ≡ canonical_message message.now) }
{
    let mut kept = Vec::from_slice(alloc, message)?;
    clear_ignored(kept.as_mut_slice());
    Ok(kept)
}
