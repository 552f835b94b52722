//! The versions of the format, and where they differ.

ghost use Rattle.std.specs.Prelude.{◌≡◌};
ghost use Rattle.acta_image.specs.Codes.{most_may, version_number};

// All kinds of event, as a set of bits.
const ALL_KINDS: u16 = 511;

// All but permit, which has the highest bit.
const ALL_BUT_PERMIT: u16 = 255;

/// A version of the format. The versions differ only in the kinds of event that a class may be allowed.
#[derive(Clone, Copy, PartialEq, Eq, Debug)]
pub enum ImageVersion {
    /// The first version: it has no images of models with a class that may permit.
    One,
    /// The version that is written: every model has an image.
    Two,
}

impl ImageVersion {
    /// The number of the version, in the byte after the magic.
    pub fn number(self) -> u8
        ensures { result ≡ version_number self }
    {
        match self {
            ImageVersion::One => 1,
            ImageVersion::Two => 2,
        }
    }

    /// The highest value of a class's set of allowed events: all kinds of event of the version.
    pub(crate) fn most_may(self) -> u16
        ensures { result ≡ most_may self }
    {
        match self {
            ImageVersion::One => ALL_BUT_PERMIT,
            ImageVersion::Two => ALL_KINDS,
        }
    }
}
