// The header of an image, which can only be in bounds.
ghost use Rattle.std.specs.Prelude.{◌≡◌, ◌+◌, ◌^◌, ◌<◌, ◌≤◌, true};
ghost use Rattle.cipher.specs.Word.{fits_mode};

use cipher::Mode;

/// What an image says of itself: the mode and tag length of its cipher, the program's version, the first word of its
/// addresses (the byte address divided by 4) and the number of its records.
#[derive(Clone, Copy, PartialEq, Eq, Debug)]
pub struct Header {
    pub(crate) mode: Mode,
    pub(crate) tag_length: u32,
    pub(crate) version: u32,
    pub(crate) base: u32,
    pub(crate) count: u32,
    ghost fits: { fits_mode mode tag_length ≡ true },
    ghost small: { version < 2 ^ 8 },
    ghost some: { 0 < count },
    ghost few: { count < 2 ^ 20 },
    ghost within: { base + count ≤ 2 ^ 30 },
}

impl Header {
    /// The mode of the cipher.
    pub fn mode(&self) -> Mode
        ensures { result ≡ self.now.mode }
    {
        self.mode
    }

    /// The length of the cipher's tag in bits.
    pub fn tag_length(&self) -> u32
        ensures { result ≡ self.now.tag_length }
    {
        self.tag_length
    }

    /// The version of the program.
    pub fn version(&self) -> u32
        ensures { result ≡ self.now.version }
    {
        self.version
    }

    /// The first address, in words.
    pub fn base(&self) -> u32
        ensures { result ≡ self.now.base }
    {
        self.base
    }

    /// The number of records.
    pub fn count(&self) -> u32
        ensures { result ≡ self.now.count }
    {
        self.count
    }
}
