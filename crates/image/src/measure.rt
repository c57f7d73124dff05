// The widths that follow from a header.
ghost use Rattle.std.specs.Prelude.{◌≡◌, ◌*◌, ◌^◌, ◌<◌, ◌≤◌};
ghost use Rattle.image.specs.Layout.{record_bits, end_of, image_length};
ghost use Rattle.image.specs.Reading.{head_of};

use crate::header::Header;

impl Header {
    /// The width of a record in bits.
    pub fn record_bits(&self) -> u32
        ensures is { result ≡ record_bits (head_of self.now) }
        ensures most { result ≤ 48 }
    {
        32 + self.tag_length
    }

    /// Where the records end, in bits.
    pub fn end(&self) -> u32
        ensures is { result ≡ end_of (head_of self.now) }
        ensures most { result < 2 ^ 26 }
    {
        66 + self.count * self.record_bits()
    }

    /// The length of the image in bytes.
    pub fn image_length(&self) -> u32
        ensures { result ≡ image_length (head_of self.now) }
    {
        self.end().div_ceil(8)
    }
}
