use std::alloc::AllocError;

/// The reason why bytes couldn't be decoded as an image.
#[derive(Clone, Copy, Debug, PartialEq, Eq)]
pub enum ImageFault {
    /// The bytes aren't the canonical encoding of a state.
    NotCanonical = 1,
    /// An allocation failed.
    NoMemory = 2,
}

impl From<AllocError> for ImageFault {
    ghost use Rattle.std.specs.Prelude.{◌≡◌};
    ghost use Rattle.image.specs.declared.fault.ImageFault.TheVariants.{NoMemory};

    ghost from_gives = { λ _ e. e ≡ NoMemory };

    fn from(_: AllocError) -> Self {
        ImageFault::NoMemory
    }
}
