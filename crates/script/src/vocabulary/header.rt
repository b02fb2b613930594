/// The words of a message's header.
#[derive(Clone, Copy)]
pub struct Header {
    pub bits: u32,
    pub size: u32,
    pub remote: u32,
    pub local: u32,
    pub seqno: u32,
    pub id: u32,
}
