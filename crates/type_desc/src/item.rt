ghost use Rattle.type_desc.specs.Whole.{IsWhole};

/// An item of a body: the fields of its descriptor, and its data.
#[derive(Clone, Copy)]
pub struct Item<'a> {
    /// `msgt_name`: the type of the elements; 16 to 21 (`MACH_MSG_TYPE_MOVE_RECEIVE` to `MACH_MSG_TYPE_MAKE_SEND_ONCE`)
    /// for ports.
    pub type_name: u16,
    /// `msgt_size`: the size of an element in bits.
    pub bits: u16,
    /// `msgt_number`: the number of elements.
    pub number: u32,
    /// `msgt_longform`: true if the descriptor has 12 bytes (`mach_msg_type_long_t`) instead of 4.
    pub is_long: bool,
    /// The elements, padded to a multiple of four bytes: a slice of the body.
    pub content: &'a [u8],
    /// The fields fit the descriptor, a port has 32 bits, and the data has the length that the fields give.
    pub ghost whole: { IsWhole type_name bits number is_long content.now },
}
