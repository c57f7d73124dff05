// A page: a guard over lent words, which shows clear instructions and wipes them when it is given up.
ghost use Rattle.std.specs.Prelude.{◌≡◌, length};
ghost use Rattle.shore.specs.Drafting.{keyed_by};
ghost use Rattle.page.specs.Showing.{page_words, Zero, word_or_zero};
ghost use Rattle.page.specs.Laws.{ShowsDecryptions, ShowsWhatWasPutIn};

use crate::fill::{fill, wipe};
use cipher::WordCipher;

/// Clear instructions of an image in lent words.
pub struct Page<'a> {
    words: &'a mut [u32],
}

impl Drop for Page<'_> {
    fn drop(self)
        ensures { Zero self.exit.0.now }
    {
        wipe(self.words);
        let Page { words: _ } = self;
    }
}

impl<'a> Page<'a> {
    /// The instructions of an image from record `first` on, as many as there are words; zeros where the check refuses.
    pub fn new<C: WordCipher>(
        cipher: &C,
        image: &[u8],
        first: u32,
        words: &'a mut [u32],
    ) -> Page<'a>
        ensures words { result.words.now ≡ page_words (keyed_by C.WordCipher cipher.now) image.now first (length words.old) }
        ensures lent { result.words.ghost_name ≡ words.entry.ghost_name }
        ensures opens { ShowsDecryptions (keyed_by C.WordCipher cipher.now) image.now first result.words.now }
        ensures made { ShowsWhatWasPutIn (keyed_by C.WordCipher cipher.now) image.now first result.words.now }
    {
        fill(cipher, image, first, words);
        Page { words }
    }
}

impl Page<'_> {
    /// The number of words.
    pub fn len(&self) -> usize
        ensures { result ≡ length self.now.words.now }
    {
        self.words.len()
    }

    /// Word `index`, and zero past the last.
    pub fn word(&self, index: usize) -> u32
        ensures { result ≡ word_or_zero self.now.words.now index }
    {
        self.words.get(index).copied().unwrap_or(0)
    }
}
