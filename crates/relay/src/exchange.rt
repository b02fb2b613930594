ghost use Rattle.std.specs.Prelude.{◌≡◌, [], IfErr, IfOk, MatchOption, OnErr, OnOk};
ghost use Rattle.std.specs.Io.Buffered.{writer_buffer, writer_contents};
ghost use Rattle.std.specs.Io.KnownBytes.{Appends};
ghost use Rattle.relay.specs.Relaying.{Ends, IsTaken, IsUnread, IsUnanswered, TakesAll, side};
ghost use Rattle.wire.specs.Writing.{AppendsPart};
ghost use Rattle.words.specs.Words.{frame_encoding};

use std::alloc::Global;
use std::io::{BufWriter, Read, Write};
use wire::{Frame, WireFault, read_frame, write_frame};

/// Sends each frame of the input to a peer, and writes the peer's reply to the output before it reads the next frame.
///
/// `Short`: the peer ended before a reply, or a stream ended within a frame. The other faults are those of reading or
/// writing the first frame that couldn't be read or written.
pub fn relay<I: Read, O: Write + Drop, P: Read, S: Write + Drop>(
    alloc: Global,
    input: &mut I,
    output: &mut BufWriter<O>,
    replies: &mut P,
    requests: &mut BufWriter<S>,
) -> Result<(), WireFault>
    // The bytes read and written on both sides, by the outcome.
    ensures ended { Ends (side (I.remaining input.old) (writer_contents O.contents output.old)
        (writer_buffer output.old))
        (side (P.remaining replies.old) (writer_contents S.contents requests.old) (writer_buffer requests.old))
        (side (I.remaining input.new) (writer_contents O.contents output.new) (writer_buffer output.new))
        (side (P.remaining replies.new) (writer_contents S.contents requests.new) (writer_buffer requests.new)) result }
{
    for _ in 0..u64::MAX {
        let Some(request) = next_request(alloc, input)? else {
            return Ok(());
        };
        send(requests, &request)?;
        let reply = next_reply(alloc, replies)?;
        send(output, &reply)?;
    }
    Err(WireFault::Device)
}

/// Returns the next frame of the input, or `None` at its end.
fn next_request<I: Read>(alloc: Global, input: &mut I) -> Result<Option<Frame>, WireFault>
    ensures found { IfOk result (λ found. MatchOption found (TakesAll (I.remaining input.old) (I.remaining input.new))
        (λ frame. IsTaken (I.remaining input.old) frame.content (I.remaining input.new))) }
    ensures unread { IfErr result (λ fault. IsUnread (I.remaining input.old) fault (I.remaining input.new)) }
{
    read_frame(alloc, input)
}

/// Returns the peer's next frame. `Short`: the peer ended before it.
pub fn next_reply<P: Read>(alloc: Global, replies: &mut P) -> Result<Frame, WireFault>
    ensures found { IfOk result (λ frame. IsTaken (P.remaining replies.old) frame.content (P.remaining replies.new)) }
    ensures unanswered { IfErr result
        (λ fault. IsUnanswered (P.remaining replies.old) fault (P.remaining replies.new)) }
{
    match next_request(alloc, replies) {
        Ok(Some(reply)) => Ok(reply),
        Ok(None) => Err(WireFault::Short),
        Err(fault) => Err(fault),
    }
}

/// Writes a frame, and flushes it.
pub fn send<W: Write + Drop>(writer: &mut BufWriter<W>, frame: &Frame) -> Result<(), WireFault>
    ensures ok { OnOk result (Appends (writer_contents W.contents writer.old) (writer_contents W.contents writer.new)
        (frame_encoding frame.now.content)) }
    ensures flushed { OnOk result (writer_buffer writer.new ≡ []) }
    ensures part { OnErr result (AppendsPart (writer_contents W.contents writer.old)
        (writer_contents W.contents writer.new) (frame_encoding frame.now.content)) }
    ensures err { IfErr result (λ fault. fault ≡ WireFault.Device) }
{
    write_frame(writer, frame)?;
    if writer.flush().is_err() {
        return Err(WireFault::Device);
    }
    Ok(())
}
