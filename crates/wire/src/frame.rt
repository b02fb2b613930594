ghost use Rattle.std.specs.Prelude.{◌≡◌, ◌+◌, ◌≤◌, ◌++◌, length, drop, IfOk};
ghost use Rattle.byteorder.specs.Endian.{little_number};
ghost use Rattle.words.specs.Words.{word};
ghost use Rattle.wire.specs.Frame.{IsContentLength};

use byteorder::{ByteOrder, LittleEndian};
use bytes::BytesMut;
use codes::MAX_FRAME_CONTENT;
use std::alloc::{AllocError, Global};
use std::marker::Model;

/// A frame: a call's number and its arguments. Its room is the length, in bytes, up to which its content grows without
/// an allocation.
#[derive(Drop)]
pub struct Frame {
    bytes: BytesMut,
}

impl Model for Frame {
    ghost use Rattle.std.specs.Prelude.{◌+◌, length};
    ghost use Rattle.wire.specs.Frame.{FrameValue, frame_code, IsContentLength};

    ghost Value = { FrameValue };

    ghost coded = { frame_code };

    ghost view = { λ f. record { content = f.bytes.items; room = length f.bytes.items + f.bytes.spare } };

    ghost invariant = { λ f. IsContentLength (length f.bytes.items) };
}

impl Frame {
    /// Creates a frame with the number 0, no arguments and room for at least `room` bytes. It fails only if out of
    /// memory.
    pub fn with_room(alloc: Global, room: usize) -> Result<Frame, AllocError>
        requires { 4 ≤ room }
        ensures content { IfOk result (λ frame. frame.content ≡ word 0) }
        ensures room { IfOk result (λ frame. room ≤ frame.room) }
    {
        let mut bytes = BytesMut::with_capacity(alloc, room)?;
        bytes.extend_reserved(&0u32.to_le_bytes());
        Ok(Frame { bytes })
    }

    /// Creates a frame with this content. It fails only if out of memory.
    pub fn from_content(alloc: Global, content: &[u8]) -> Result<Frame, AllocError>
        requires { IsContentLength (length content.now) }
        ensures { IfOk result (λ frame. frame.content ≡ content.now) }
    {
        let bytes = BytesMut::copy_from_slice(alloc, content)?;
        Ok(Frame { bytes })
    }

    // Creates a frame from its content without copying.
    pub(crate) fn from_vec(content: Vec<u8>) -> Frame
        requires { IsContentLength (length content.items) }
        ensures { result.content ≡ content.items }
    {
        Frame {
            bytes: BytesMut::from_vec(content),
        }
    }

    /// Replaces the content by this number without arguments. The room doesn't shrink.
    pub fn start(&mut self, number: u32)
        ensures content { self.new.content ≡ word number }
        ensures room { self.old.room ≤ self.new.room }
    {
        self.bytes.clear();
        self.bytes.extend_reserved(&number.to_le_bytes());
    }

    /// Appends a number to the arguments. It allocates nothing.
    pub fn put_word(&mut self, value: u32)
        requires room { length self.old.content + 4 ≤ self.old.room }
        requires limit { length self.old.content + 4 ≤ MAX_FRAME_CONTENT }
        ensures content { self.new.content ≡ self.old.content ++ word value }
        ensures room { self.new.room ≡ self.old.room }
    {
        self.bytes.extend_reserved(&value.to_le_bytes());
    }

    /// Appends bytes to the arguments. It allocates nothing.
    pub fn put_bytes(&mut self, bytes: &[u8])
        requires room { length self.old.content + length bytes.now ≤ self.old.room }
        requires limit { length self.old.content + length bytes.now ≤ MAX_FRAME_CONTENT }
        ensures content { self.new.content ≡ self.old.content ++ bytes.now }
        ensures room { self.new.room ≡ self.old.room }
    {
        self.bytes.extend_reserved(bytes);
    }

    /// Returns the call's number and its arguments.
    pub fn content(&self) -> &[u8]
        ensures value { result.now ≡ self.now.content }
        ensures limits { IsContentLength (length self.now.content) }
    {
        self.bytes.as_slice()
    }

    /// Returns the call's number.
    pub fn number(&self) -> u32
        ensures { result ≡ little_number 4 self.now.content }
    {
        LittleEndian::read_u32(self.content())
    }

    /// Returns the call's arguments.
    pub fn arguments(&self) -> &[u8]
        ensures { result.now ≡ drop 4 self.now.content }
    {
        &self.content()[4..]
    }

    /// Returns the length in bytes up to which the content grows without an allocation.
    pub fn room(&self) -> usize
        ensures value { result ≡ self.now.room }
        ensures least { length self.now.content ≤ result }
    {
        self.bytes.capacity()
    }
}
