// A draft of an image, open or closed. Neither is ever copied.
ghost use Rattle.std.specs.Prelude.{◌≡◌, ◌≤◌};

use image::header::Header;
use refusal::Refusal;

/// An image that is being made: its header, and how many of its words are put.
#[derive(Drop, Debug)]
pub struct Draft {
    pub(crate) header: Header,
    pub(crate) put: u32,
    ghost few: { put ≤ header.count },
}

/// A draft that a call refused, as it was, and the refusal.
#[derive(Drop, Debug)]
pub struct HandedBack {
    pub draft: Draft,
    pub refusal: Refusal,
}

// Stays: with a header inside in place of its numbers, the length would be a formula in each clause that takes so many bytes.
/// An image that is made: the version, the first address in words, the number of words and the length in bytes.
#[derive(Drop, Debug)]
pub struct ClosedDraft {
    pub(crate) version: u32,
    pub(crate) base: u32,
    pub(crate) count: u32,
    pub(crate) length: u32,
}

impl Draft {
    /// How many words are put.
    pub fn words_put(&self) -> u32
        ensures { result ≡ self.now.put }
    {
        self.put
    }
}

impl From<HandedBack> for Refusal {
    ghost from_gives = { λ back refusal. refusal ≡ back.refusal };

    fn from(back: HandedBack) -> Refusal {
        back.refusal
    }
}

impl ClosedDraft {
    /// The version of the program.
    pub fn version(&self) -> u32
        ensures { result ≡ self.now.version }
    {
        self.version
    }

    /// The first address, in words.
    pub fn base(&self) -> u32
        ensures { result ≡ self.now.base }
    {
        self.base
    }

    /// The number of words.
    pub fn count(&self) -> u32
        ensures { result ≡ self.now.count }
    {
        self.count
    }

    /// The length of the image in bytes.
    pub fn length(&self) -> u32
        ensures { result ≡ self.now.length }
    {
        self.length
    }
}
