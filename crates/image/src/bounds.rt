// Making a header from its fields.
ghost use Rattle.std.specs.Prelude.{◌≡◌, is_some, IfSome};
ghost use Rattle.image.specs.Laws.{proper_head};
ghost use Rattle.image.specs.Reading.{head_of};

use crate::header::Header;
use cipher::Mode;

impl Header {
    /// A header with these fields, or nothing where one is out of bounds.
    pub fn new(mode: Mode, tag_length: u32, version: u32, base: u32, count: u32) -> Option<Header>
        ensures bounds { is_some result ≡ proper_head (record { mode = mode; tag = tag_length; version = version; base = base; count = count }) }
        ensures fields { IfSome result (λ header. head_of header ≡ record { mode = mode; tag = tag_length; version = version; base = base; count = count }) }
    {
        if !mode.fits(tag_length) || version >= 256 {
            return None;
        }
        if !matches!(count, 1..0x10_0000) || base > 0x4000_0000 - count {
            return None;
        }
        Some(Header {
            mode,
            tag_length,
            version,
            base,
            count,
        })
    }
}
