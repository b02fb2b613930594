ghost use Rattle.std.specs.Prelude.{◌≡◌, ◌<◌, ◌≤◌, ◌++◌, ℕ, List, Some, length, take, IfSome, IfOk, IfErr, OnErr};
ghost use Rattle.std.specs.Io.{ReadsAtMost};
ghost use Rattle.std.specs.Io.KnownBytes.{Consumes, IsAtEnd, Keeps};
ghost use Rattle.byteorder.specs.Endian.{little_number};
ghost use Rattle.words.specs.Words.{word, frame_encoding};
ghost use Rattle.wire.specs.Frame.{IsContentLength, IsReadOf, IsFrameRead};
ghost use Rattle.wire.specs.Reading.{ConsumesPart, IsLengthOf, IsContentOf};

use crate::fault::WireFault;
use crate::frame::Frame;
use codes::{MAX_FRAME_CONTENT, MIN_FRAME_CONTENT};
use std::alloc::Global;
use std::io::{ErrorKind, Read};

// Makes one read, which is retried if a signal interrupts it.
fn read_some<R: Read>(reader: &mut R, buffer: &mut [u8]) -> Result<usize, WireFault>
    ensures bound { ReadsAtMost result buffer.new }
    ensures bytes { IfOk result
        (λ n. Consumes (R.remaining reader.old) (R.remaining reader.new) (take n buffer.new)) }
    ensures end { IfOk result
        (λ n. n ≡ 0 → 0 < length buffer.old → IsAtEnd (R.remaining reader.new)) }
    ensures kept { OnErr result (Keeps (R.remaining reader.old) (R.remaining reader.new)) }
    ensures err { IfErr result (λ fault. fault ≡ WireFault.Device) }
{
    for _ in 0..u64::MAX {
        match reader.read(buffer) {
            Ok(count) => return Ok(count),
            Err(e) => {
                if e.kind() != ErrorKind::Interrupted {
                    return Err(WireFault::Device);
                }
            }
        }
    }
    Err(WireFault::Device)
}

// Reads until the buffer is full or the input ends, and returns how many bytes were read.
fn fill<R: Read>(reader: &mut R, buffer: &mut [u8]) -> Result<usize, WireFault>
    ensures bound { IfOk result (λ n. n ≤ length buffer.new) }
    ensures bytes { IfOk result
        (λ n. Consumes (R.remaining reader.old) (R.remaining reader.new) (take n buffer.new)) }
    ensures end { IfOk result
        (λ n. n < length buffer.new → IsAtEnd (R.remaining reader.new)) }
    ensures part { OnErr result
        (ConsumesPart (R.remaining reader.old) (R.remaining reader.new) (length buffer.new)) }
    ensures err { IfErr result (λ fault. fault ≡ WireFault.Device) }
{
    let mut filled = 0;
    while filled < buffer.len() {
        let count = read_some(reader, &mut buffer[filled..])?;
        if count == 0 {
            return Ok(filled);
        }
        filled += count;
    }
    Ok(filled)
}

// Returns the number in a length word.
fn number_of(bytes: [u8; 4]) -> u32
    ensures value { result ≡ little_number 4 bytes }
    ensures encoded { word result ≡ bytes }
{
    u32::from_le_bytes(bytes)
}

// Reads a frame's length word. Returns `None` if the input ends before it.
fn read_length<R: Read>(reader: &mut R) -> Result<Option<u32>, WireFault>
    ensures exact { IfSome (R.remaining reader.old)
        (λ input. IsLengthOf input result (R.remaining reader.new)) }
    ensures limits { IfOk result (λ r. IfSome r (λ n. IsContentLength n)) }
{
    let mut bytes = [0u8; 4];
    let filled = fill(reader, &mut bytes)?;
    if filled == 0 {
        return Ok(None);
    }
    if filled < 4 {
        return Err(WireFault::Short);
    }
    let length = number_of(bytes);
    if length < MIN_FRAME_CONTENT {
        return Err(WireFault::Short);
    }
    if length > MAX_FRAME_CONTENT {
        return Err(WireFault::TooLong);
    }
    Ok(Some(length))
}

// Reads the content after a length word.
fn read_content<R: Read>(alloc: Global, reader: &mut R, length: u32) -> Result<Frame, WireFault>
    requires { IsContentLength length }
    ensures { IfSome (R.remaining reader.old)
        (λ input. IsContentOf length input result (R.remaining reader.new)) }
{
    let mut content = vec![in alloc; 0u8; length as usize]?;
    let filled = fill(reader, &mut content)?;
    if filled < content.len() {
        return Err(WireFault::Short);
    }
    Ok(Frame::from_vec(content))
}

// Reads a frame in two steps: its length word and its content.
fn read_parts<R: Read>(alloc: Global, reader: &mut R) -> Result<Option<Frame>, WireFault>
    ensures exact { IfSome (R.remaining reader.old)
        (λ input. IsReadOf input result (R.remaining reader.new)) }
    ensures found { IfSome (R.remaining reader.old)
        (λ input. IfOk result (λ r. IfSome r (λ frame. (rest : List ℕ)
        × (input ≡ frame_encoding frame.content ++ rest) × (R.remaining reader.new ≡ Some rest)))) }
{
    match read_length(reader)? {
        None => Ok(None),
        Some(length) => Ok(Some(read_content(alloc, reader, length)?)),
    }
}

/// Reads the next frame, or returns `None` at the end of the input. It reads no byte after the frame, and none after an
/// invalid length.
///
/// `Short`: the input ends within the frame, and all of it was read, or the length is below 4. `TooLong`: the length is
/// above 65,532. `NoMemory`: only the four bytes of the length were read. `Device`: the reader failed within the frame,
/// which is lost.
pub fn read_frame<R: Read>(alloc: Global, reader: &mut R) -> Result<Option<Frame>, WireFault>
    // The result, and the input that is left.
    ensures exact { IfSome (R.remaining reader.old)
        (λ input. IsReadOf input result (R.remaining reader.new)) }
    // A frame that is returned was at the front of the input.
    ensures found { IfSome (R.remaining reader.old)
        (λ input. IfOk result (λ r. IfSome r (λ frame. (rest : List ℕ)
        × (input ≡ frame_encoding frame.content ++ rest) × (R.remaining reader.new ≡ Some rest)))) }
    // A frame at the front of the input is the only one that is returned.
    ensures only { IfSome (R.remaining reader.old)
        (λ input. (content rest : List ℕ) → IsContentLength (length content)
        → input ≡ frame_encoding content ++ rest → IsFrameRead content result) }
{
    read_parts(alloc, reader)
}
