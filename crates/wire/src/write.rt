ghost use Rattle.std.specs.Prelude.{◌≡◌, length, take, IfOk, IfErr, OnOk, OnErr};
ghost use Rattle.std.specs.Io.{WritesAtMost};
ghost use Rattle.std.specs.Io.KnownBytes.{Appends, Keeps};
ghost use Rattle.words.specs.Words.{frame_encoding};
ghost use Rattle.wire.specs.Writing.{AppendsPart};

use crate::fault::WireFault;
use crate::frame::Frame;
use std::io::{ErrorKind, Write};

// Makes one write, which is retried if a signal interrupts it.
fn write_some<W: Write>(writer: &mut W, bytes: &[u8]) -> Result<usize, WireFault>
    ensures bound { WritesAtMost result bytes.now }
    ensures ok { IfOk result
        (λ n. Appends (W.contents writer.old) (W.contents writer.new) (take n bytes.now)) }
    ensures kept { OnErr result (Keeps (W.contents writer.old) (W.contents writer.new)) }
    ensures err { IfErr result (λ fault. fault ≡ WireFault.Device) }
{
    for _ in 0..u64::MAX {
        match writer.write(bytes) {
            Ok(count) => return Ok(count),
            Err(e) => {
                if e.kind() != ErrorKind::Interrupted {
                    return Err(WireFault::Device);
                }
            }
        }
    }
    Err(WireFault::Device)
}

/// Writes bytes without a flush. `Device`: the writer failed, or accepts no more bytes. It wrote some prefix of the
/// bytes, and nothing else.
pub fn write_bytes<W: Write>(writer: &mut W, bytes: &[u8]) -> Result<(), WireFault>
    ensures ok { OnOk result (Appends (W.contents writer.old) (W.contents writer.new) bytes.now) }
    ensures part { OnErr result
        (AppendsPart (W.contents writer.old) (W.contents writer.new) bytes.now) }
    ensures err { IfErr result (λ fault. fault ≡ WireFault.Device) }
{
    let mut rest = bytes;
    while !rest.is_empty() {
        let count = write_some(writer, rest)?;
        if count == 0 {
            return Err(WireFault::Device);
        }
        rest = &rest[count..];
    }
    Ok(())
}

/// Writes a frame without a flush. `Device`: the writer failed, or accepts no more bytes. It wrote some prefix of the
/// frame, and nothing else.
pub fn write_frame<W: Write>(writer: &mut W, frame: &Frame) -> Result<(), WireFault>
    ensures ok { OnOk result
        (Appends (W.contents writer.old) (W.contents writer.new) (frame_encoding frame.now.content)) }
    ensures part { OnErr result (AppendsPart (W.contents writer.old) (W.contents writer.new)
        (frame_encoding frame.now.content)) }
    ensures err { IfErr result (λ fault. fault ≡ WireFault.Device) }
{
    let content = frame.content();
    let length = content.len() as u32;
    write_bytes(writer, &length.to_le_bytes())?;
    write_bytes(writer, content)
}
