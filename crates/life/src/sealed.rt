// An image that was read for a cipher, and its records.
ghost use Rattle.std.specs.Prelude.{◌≡◌, ◌-◌, ◌<◌, ◌≤◌, IfOk};
ghost use Rattle.std.specs.Result.{result_err};
ghost use Rattle.image.specs.Reading.{head_in, head_of};

use cipher::{WordCipher, tweak_of};
use image::check::{check_cipher, check_image, read_record};
use image::header::Header;
use refusal::Refusal;
use std::ops::Range;

/// An image that is right in every way but its records, with its header, and the cipher that it is for.
#[derive(Drop)]
pub struct Sealed<'a, C> {
    pub cipher: &'a C,
    pub image: &'a [u8],
    pub header: Header,
    ghost read: { head_of header ≡ head_in image.now },
}

impl<'a, C: WordCipher> Sealed<'a, C> {
    ghost use Rattle.life.specs.Records.{read_refusal, opens};
    ghost use Rattle.life.specs.Checks.{foul_from};

    /// Reads an image for a cipher, or answers the first refusal that fits.
    pub fn read(cipher: &'a C, image: &'a [u8]) -> Result<Sealed<'a, C>, Refusal>
        ensures refusal { result_err result ≡ read_refusal C.WordCipher cipher.now image.now }
        ensures cipher { IfOk result (λ sealed. sealed.cipher.now ≡ cipher.now) }
        ensures image { IfOk result (λ sealed. sealed.image.now ≡ image.now) }
    {
        let header = check_image(image)?;
        check_cipher(&header, cipher)?;
        Ok(Sealed {
            cipher,
            image,
            header,
        })
    }

    /// What a record yields at its address, and nothing past the last.
    pub fn open(&self, index: u32) -> Option<u32>
        ensures { result ≡ opens C.WordCipher self.now index }
    {
        let stored = read_record(self.image, &self.header, index)?;
        let address = 4 * (self.header.base() + index);
        self.cipher
            .decrypt(tweak_of(self.header.version(), address), stored)
    }

    /// Whether each of these records yields an instruction, or the first that is foul.
    pub fn check(&self, records: Range<u32>) -> Result<(), Refusal>
        ensures { result_err result ≡ foul_from (opens C.WordCipher self.now) records.start (records.end - records.start) }
    {
        for index in records {
            if self.open(index).is_none() {
                return Err(Refusal::FoulRecord { index });
            }
        }
        Ok(())
    }
}
