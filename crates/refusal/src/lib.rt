// What is not allowed is refused with a number, a place and a layer: one type for all.
#![tactic(auto)]

ghost use Rattle.std.specs.Prelude.{◌≡◌, Some};
ghost use Rattle.refusal.specs.Table.{bit_of, told, note_of, layer_name, refusal_text};

use std::error::Error;
use std::fmt;

/// The part of the product whose check refuses.
#[derive(Clone, Copy, PartialEq, Eq, Debug)]
pub enum Layer {
    Image,
    Cipher,
    Memory,
    Unit,
    Draft,
    Console,
}

/// The field of an image's header that is at fault.
#[derive(Clone, Copy, PartialEq, Eq, Debug)]
pub enum HeaderField {
    Form,
    TagLength,
    Count,
    Base,
}

/// Every refusal, with what its place needs.
#[derive(Clone, Copy, PartialEq, Eq, Debug)]
pub enum Refusal {
    // of images
    /// The image is shorter than a header.
    Stub { length: u32 },
    /// A field of the header is out of bounds.
    BadHeader(HeaderField),
    /// The image has another length than its header says, or a pad bit is set.
    Misfit { right_length: u32 },
    /// A page would go past the last record.
    PastEnd { count: u32 },
    // of ciphers
    /// A cipher was to be made with a tag length that it cannot have.
    BadTagLength,
    /// The mode or the tag length is not the cipher's.
    Foreign,
    /// A record does not decrypt.
    FoulRecord { index: u32 },
    /// The slot of an address does not decrypt.
    Rejected { address: u32 },
    // of memories
    /// There is no such slot.
    NoSlot { slot: u32 },
    /// The number is too wide for a slot.
    TooWide { slot: u32 },
    // of units
    /// The unit is not live.
    NoKey,
    /// The version is 0, or not above the one in force.
    Stale { in_force: Option<u32> },
    /// There are more records than slots.
    TooBig { slots: u32 },
    /// The address is no multiple of 4.
    Odd { address: u32 },
    /// The address is not installed.
    OffMap { address: u32 },
    /// The unit is live.
    KeyInUse,
    // of drafts
    /// The version, the count or the base is out of bounds.
    BadDraft,
    /// The buffer is shorter than the image.
    ShortBuffer { needed: u32 },
    /// All words are put.
    DraftFull { put: u32 },
    /// Words are missing.
    DraftShort { put: u32 },
    // of the console
    /// The line has no allowed form from this byte on.
    Garbled { at: u32 },
}

/// What a refusal tells.
#[derive(Clone, Copy, PartialEq, Eq, Debug)]
pub struct Note {
    pub number: u32,
    pub place: u32,
    pub layer: Layer,
}

impl Note {
    /// A note of these three.
    pub fn new(number: u32, place: u32, layer: Layer) -> Note
        ensures { result ≡ told number place layer }
    {
        Note {
            number,
            place,
            layer,
        }
    }
}

impl HeaderField {
    /// The bit of the header at which the field begins.
    pub fn bit(self) -> u32
        ensures { result ≡ bit_of self }
    {
        match self {
            HeaderField::Form => 0,
            HeaderField::TagLength => 3,
            HeaderField::Count => 46,
            HeaderField::Base => 16,
        }
    }
}

impl Refusal {
    /// The number, the place and the layer of the refusal.
    pub fn note(self) -> Note
        ensures { result ≡ note_of self }
    {
        match self {
            Refusal::Stub { length } => Note::new(2, length, Layer::Image),
            Refusal::BadHeader(field) => Note::new(3, field.bit(), Layer::Image),
            Refusal::Misfit { right_length } => Note::new(4, right_length, Layer::Image),
            Refusal::PastEnd { count } => Note::new(19, count, Layer::Image),
            Refusal::BadTagLength => Note::new(3, 3, Layer::Cipher),
            Refusal::Foreign => Note::new(5, 2, Layer::Cipher),
            Refusal::FoulRecord { index } => Note::new(8, index, Layer::Cipher),
            Refusal::Rejected { address } => Note::new(11, address, Layer::Cipher),
            Refusal::NoSlot { slot } => Note::new(12, slot, Layer::Memory),
            Refusal::TooWide { slot } => Note::new(13, slot, Layer::Memory),
            Refusal::NoKey => Note::new(1, 0, Layer::Unit),
            Refusal::Stale { in_force } => Note::new(6, in_force.unwrap_or(0), Layer::Unit),
            Refusal::TooBig { slots } => Note::new(7, slots, Layer::Unit),
            Refusal::Odd { address } => Note::new(9, address, Layer::Unit),
            Refusal::OffMap { address } => Note::new(10, address, Layer::Unit),
            Refusal::KeyInUse => Note::new(14, 0, Layer::Unit),
            Refusal::BadDraft => Note::new(15, 0, Layer::Draft),
            Refusal::ShortBuffer { needed } => Note::new(16, needed, Layer::Draft),
            Refusal::DraftFull { put } => Note::new(17, put, Layer::Draft),
            Refusal::DraftShort { put } => Note::new(18, put, Layer::Draft),
            Refusal::Garbled { at } => Note::new(20, at, Layer::Console),
        }
    }
}

impl fmt::Display for Layer {
    ghost output = { λ layer. Some (layer_name layer) };

    fn fmt<W: fmt::Write>(&self, f: &mut fmt::Formatter<W>) -> fmt::Result {
        match self {
            Layer::Image => write!(f, "image"),
            Layer::Cipher => write!(f, "cipher"),
            Layer::Memory => write!(f, "memory"),
            Layer::Unit => write!(f, "unit"),
            Layer::Draft => write!(f, "draft"),
            Layer::Console => write!(f, "console"),
        }
    }
}

impl fmt::Display for Refusal {
    ghost output = { λ refusal. Some (refusal_text (note_of refusal)) };

    fn fmt<W: fmt::Write>(&self, f: &mut fmt::Formatter<W>) -> fmt::Result {
        let Note {
            number,
            place,
            layer,
        } = self.note();
        write!(f, "refused {number} at {place} ({layer})")
    }
}

impl Error for Refusal {}
