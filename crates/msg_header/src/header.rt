ghost use Rattle.std.specs.Prelude.{◌≡◌, ◌<◌, ◌^◌, ◌++◌, ◌+◌, length, IfOk, IfErr, OnOk, OnErr};
ghost use Rattle.std.specs.Vec.{vec_len, vec_capacity};
ghost use Rattle.ipc_model.specs.messages.Messages.{HasUsedParts, body_of, header_length};
ghost use Rattle.msg_header.specs.Headers.{parts_by, header_bits, header_encoding};

use byteorder::{ByteOrder, LittleEndian};
use codes::{HEADER_LENGTH, KernReturn};
use std::alloc::AllocError;

/// `MACH_MSGH_BITS_COMPLEX`: the body has items that hold ports.
const COMPLEX_BIT: u32 = 0x8000_0000;

/// A message's header (`mach_msg_header_t`).
#[derive(Clone, Copy, Debug, PartialEq, Eq)]
pub struct Header {
    /// Length of the whole message in bytes, header and body.
    pub size: usize,
    /// `MACH_MSGH_BITS_REMOTE`: the disposition of the right to the destination.
    pub remote_disposition: u8,
    /// `MACH_MSGH_BITS_LOCAL`: the disposition of the reply right.
    pub local_disposition: u8,
    /// `MACH_MSGH_BITS_COMPLEX`: true if the body holds ports.
    pub complex: bool,
    /// `msgh_remote_port`: the name of the destination.
    pub remote: u32,
    /// `msgh_local_port`: the name of the reply right.
    pub local: u32,
    /// `msgh_id`: a number that the sender chooses.
    pub id: u32,
}

/// Decodes the header at the front of a message. Its size is the number of bytes: the words of size and sequence number
/// are ignored, and so are bits with other meanings.
///
/// `SendMsgTooSmall`: there are fewer than 24 bytes. It allocates nothing.
pub fn parse(bytes: &[u8]) -> Result<Header, KernReturn>
    ensures found { IfOk result (λ header. HasUsedParts bytes.now (parts_by header (body_of bytes.now))) }
    ensures refused { IfErr result (λ code. code ≡ KernReturn.SendMsgTooSmall) }
    ensures short { OnErr result (length bytes.now < header_length) }
{
    if bytes.len() < HEADER_LENGTH {
        return Err(KernReturn::SendMsgTooSmall);
    }
    let bits = LittleEndian::read_u32(bytes);
    Ok(Header {
        size: bytes.len(),
        remote_disposition: (bits % 0x100) as u8,
        local_disposition: (bits / 0x100 % 0x100) as u8,
        complex: bits / COMPLEX_BIT % 2 == 1,
        remote: LittleEndian::read_u32(&bytes[8..]),
        local: LittleEndian::read_u32(&bytes[12..]),
        id: LittleEndian::read_u32(&bytes[20..]),
    })
}

impl Header {
    // Returns the word of bits (`msgh_bits`).
    fn bits(&self) -> u32
        ensures { result ≡ header_bits self.now }
    {
        let dispositions = u32::from(self.remote_disposition)
            + u32::from(self.local_disposition) * 0x100;
        if self.complex {
            dispositions + COMPLEX_BIT
        } else {
            dispositions
        }
    }

    /// Appends the header's 24 bytes with this sequence number (`msgh_seqno`). The size must fit four bytes.
    ///
    /// If an allocation fails, nothing changed. It allocates nothing if there is room for 24 bytes.
    #[tactic(auto, unfolding(crate::specs::Headers::header_encoding))]
    pub fn write_into(&self, sequence_number: u32, out: &mut Vec<u8>) -> Result<(), AllocError>
        requires { self.now.size < 2 ^ 32 }
        ensures ok { OnOk result (out.new.items ≡ out.old.items ++ header_encoding self.now sequence_number) }
        ensures err { OnErr result (out.new.items ≡ out.old.items) }
        ensures full { OnErr result (vec_capacity out.old < vec_len out.old + header_length) }
    {
        let words = [
            self.bits(),
            self.size as u32,
            self.remote,
            self.local,
            sequence_number,
            self.id,
        ];
        let mut encoding = [0; HEADER_LENGTH];
        LittleEndian::write_u32_into(&words, &mut encoding);
        out.extend_from_slice(&encoding)
    }
}
