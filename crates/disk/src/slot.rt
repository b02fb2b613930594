ghost use Rattle.std.specs.Prelude.{◌≡◌};
ghost use Rattle.disk.specs.Slots.{file_name};

/// One of the four byte sequences of a store. The number is the parity of the epochs that use it.
#[derive(Clone, Copy, PartialEq, Eq)]
pub enum Slot {
    Image0,
    Image1,
    Segment0,
    Segment1,
}

impl Slot {
    /// The name of the file that keeps the slot.
    pub fn file_name(self) -> &'static str
        ensures { result.now ≡ file_name self }
    {
        match self {
            Slot::Image0 => "image0",
            Slot::Image1 => "image1",
            Slot::Segment0 => "segment0",
            Slot::Segment1 => "segment1",
        }
    }
}
