// Checking an image, and reading its records.
ghost use Rattle.std.specs.Prelude.{◌≡◌, IfOk};
ghost use Rattle.std.specs.Result.{result_err};
ghost use Rattle.image.specs.Laws.{LayoutIsRead, OnlyLayoutIsRead};
ghost use Rattle.image.specs.Reading.{head_in, head_of, record_at, head_refusal, fit_refusal, foreign_refusal, refusal_of};

use crate::header::Header;
use bits::field::read_field;
use cipher::{Mode, WordCipher};
use refusal::{HeaderField, Refusal};

/// The header of an image, or the first refusal that fits it.
pub fn read_header(bytes: &[u8]) -> Result<Header, Refusal>
    ensures refusal { result_err result ≡ head_refusal bytes.now }
    ensures header { IfOk result (λ header. head_of header ≡ head_in bytes.now) }
{
    if bytes.len() < 9 {
        return Err(Refusal::Stub {
            length: bytes.len() as u32,
        });
    }
    if read_field(bytes, 0, 2) != 0 {
        return Err(Refusal::BadHeader(HeaderField::Form));
    }
    let mode = Mode::from(read_field(bytes, 2, 1) != 0);
    let tag_length = read_field(bytes, 3, 5) as u32;
    if !mode.fits(tag_length) {
        return Err(Refusal::BadHeader(HeaderField::TagLength));
    }
    let version = read_field(bytes, 8, 8) as u32;
    let base = read_field(bytes, 16, 30) as u32;
    let count = read_field(bytes, 46, 20) as u32;
    if count == 0 {
        return Err(Refusal::BadHeader(HeaderField::Count));
    }
    if base + count > 0x4000_0000 {
        return Err(Refusal::BadHeader(HeaderField::Base));
    }
    Ok(Header {
        mode,
        tag_length,
        version,
        base,
        count,
    })
}

// Stays: bytes and header are two parameters here and in `read_record` alone, and a method of either reads no plainer.
/// Whether an image has exactly the length that its header says, with all pad bits zero, or the refusal.
pub fn check_fit(bytes: &[u8], header: &Header) -> Result<(), Refusal>
    ensures { result_err result ≡ fit_refusal bytes.now (head_of header.now) }
{
    let right_length = header.image_length();
    let end = header.end();
    let pad = read_field(bytes, end as usize, 8 * right_length - end);
    if bytes.len() != right_length as usize || pad != 0 {
        return Err(Refusal::Misfit { right_length });
    }
    Ok(())
}

/// Whether an image with that header is for the cipher, or the refusal.
pub fn check_cipher<C: WordCipher>(header: &Header, cipher: &C) -> Result<(), Refusal>
    ensures { result_err result ≡ foreign_refusal (C.mode_of cipher.now) (C.tag_of cipher.now) (head_of header.now) }
{
    if cipher.mode() != header.mode() || cipher.tag_length() != header.tag_length() {
        Err(Refusal::Foreign)
    } else {
        Ok(())
    }
}

/// The header of an image that is right in every way but its records, or the first refusal that fits.
pub fn check_image(bytes: &[u8]) -> Result<Header, Refusal>
    ensures refusal { result_err result ≡ refusal_of bytes.now }
    ensures header { IfOk result (λ header. head_of header ≡ head_in bytes.now) }
    ensures laid { LayoutIsRead }
    ensures only { OnlyLayoutIsRead }
{
    checked(bytes)
}

fn checked(bytes: &[u8]) -> Result<Header, Refusal>
    ensures refusal { result_err result ≡ refusal_of bytes.now }
    ensures header { IfOk result (λ header. head_of header ≡ head_in bytes.now) }
{
    let header = read_header(bytes)?;
    check_fit(bytes, &header)?;
    Ok(header)
}

/// Record `index` of an image, or nothing past the last.
pub fn read_record(bytes: &[u8], header: &Header, index: u32) -> Option<u64>
    ensures { result ≡ record_at bytes.now (head_of header.now) index }
{
    if index >= header.count() {
        return None;
    }
    let width = header.record_bits();
    Some(read_field(bytes, 66 + index as usize * width as usize, width))
}
