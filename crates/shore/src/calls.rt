// Opening a draft, putting its words, closing it.
ghost use Rattle.std.specs.Prelude.{◌≡◌, ◌+◌, ◌<◌, Some, None, IfOk, IfErr, OnOk};
ghost use Rattle.std.specs.Result.{result_err};
ghost use Rattle.image.specs.Reading.{head_of};
ghost use Rattle.shore.specs.Drafting.{keyed_by, short_refusal, put_refusal, close_refusal, encryption, Opens, Puts, Closes};
ghost use Rattle.shore.specs.Making.{MadeIsImage};

use crate::draft::{ClosedDraft, Draft, HandedBack};
use crate::write::{write_header, write_pad, write_record};
use cipher::{WordCipher, tweak_of};
use image::check::check_cipher;
use image::header::Header;
use refusal::Refusal;

impl Draft {
    /// A draft of an image of so many words, whose header is then in the buffer.
    pub fn open<C: WordCipher>(
        cipher: &C,
        version: u32,
        base: u32,
        count: u32,
        buffer: &mut [u8],
    ) -> Result<Draft, Refusal>
        ensures { Opens (keyed_by C.WordCipher cipher.now) version base count buffer.old buffer.new result }
    {
        if version == 0 {
            return Err(Refusal::BadDraft);
        }
        let mode = cipher.mode();
        let tag_length = cipher.tag_length();
        let header = Header::new(mode, tag_length, version, base, count).ok_or(Refusal::BadDraft)?;
        check_room(&header, buffer)?;
        write_header(&header, buffer);
        Ok(Draft { header, put: 0 })
    }

    /// Puts the next word: its record is then in the buffer.
    pub fn put<C: WordCipher>(
        self,
        cipher: &C,
        instruction: u32,
        buffer: &mut [u8],
    ) -> Result<Draft, HandedBack>
        ensures { Puts (keyed_by C.WordCipher cipher.now) self instruction buffer.old buffer.new result }
    {
        let checked = self.check_put(cipher, buffer);
        let Draft { header, put } = self.or_back(checked)?;
        let address = 4 * (header.base() + put);
        let stored = cipher.encrypt(tweak_of(header.version(), address), instruction);
        write_record(&header, put, stored, buffer);
        Ok(Draft {
            header,
            put: put + 1,
        })
    }

    /// Closes the draft: the pad bits are then zero, and the image is whole.
    pub fn close(self, buffer: &mut [u8]) -> Result<ClosedDraft, HandedBack>
        ensures answer { Closes self buffer.old buffer.new result }
        ensures image { MadeIsImage }
    {
        self.finish(buffer)
    }

    fn finish(self, buffer: &mut [u8]) -> Result<ClosedDraft, HandedBack>
        ensures { Closes self buffer.old buffer.new result }
    {
        let checked = self.check_close(buffer);
        let header = self.or_back(checked)?.header;
        write_pad(&header, buffer);
        Ok(ClosedDraft {
            version: header.version(),
            base: header.base(),
            count: header.count(),
            length: header.image_length(),
        })
    }

    // The draft where the check passed, and else handed back with the refusal.
    fn or_back(self, checked: Result<(), Refusal>) -> Result<Draft, HandedBack>
        ensures passed { IfOk result (λ draft. (result_err checked ≡ None) × (draft ≡ self)) }
        ensures back { IfErr result (λ back. (result_err checked ≡ Some back.refusal) × (back.draft ≡ self)) }
    {
        match checked {
            Ok(()) => Ok(self),
            Err(refusal) => Err(HandedBack {
                draft: self,
                refusal,
            }),
        }
    }

    // Whether the next word can be put, or the first refusal that fits.
    fn check_put<C: WordCipher>(&self, cipher: &C, buffer: &[u8]) -> Result<(), Refusal>
        ensures row { result_err result ≡ put_refusal (keyed_by C.WordCipher cipher.now) self.now buffer.now }
        ensures more { OnOk result (self.now.put < self.now.header.count) }
    {
        let put = self.put;
        if put >= self.header.count() {
            return Err(Refusal::DraftFull { put });
        }
        check_cipher(&self.header, cipher)?;
        check_room(&self.header, buffer)
    }

    // Whether the draft can be closed, or the first refusal that fits.
    fn check_close(&self, buffer: &[u8]) -> Result<(), Refusal>
        ensures { result_err result ≡ close_refusal self.now buffer.now }
    {
        let put = self.put;
        if put < self.header.count() {
            return Err(Refusal::DraftShort { put });
        }
        check_room(&self.header, buffer)
    }
}

// Whether the buffer has room for the image, or the refusal.
fn check_room(header: &Header, buffer: &[u8]) -> Result<(), Refusal>
    ensures { result_err result ≡ short_refusal (head_of header.now) buffer.now }
{
    let needed = header.image_length();
    if buffer.len() < needed as usize {
        Err(Refusal::ShortBuffer { needed })
    } else {
        Ok(())
    }
}
