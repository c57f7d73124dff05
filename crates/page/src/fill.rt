// The words of a page, written into lent words.
ghost use Rattle.std.specs.Prelude.{◌≡◌, ◌+◌, ◌<◌, ◌≤◌, length, replicate};
ghost use Rattle.image.specs.Reading.{head_in};
ghost use Rattle.shore.specs.Drafting.{keyed_by};
ghost use Rattle.page.specs.Showing.{word_at, shown_words, page_words};

use crate::check::checked;
use cipher::WordCipher;
use life::sealed::Sealed;

// Makes every word zero.
pub(crate) fn wipe(words: &mut [u32])
    ensures { words.new ≡ replicate (length words.old) 0 }
{
    words.fill(0);
}

// Word `place` of a page from record `first` on.
fn word_at<C: WordCipher>(sealed: &Sealed<'_, C>, first: u32, place: usize) -> u32
    requires { first + place < sealed.now.header.count }
    ensures { result ≡ word_at (keyed_by C.WordCipher sealed.now.cipher.now) sealed.now.image.now (head_in sealed.now.image.now) first place }
{
    sealed.open(first + place as u32).unwrap_or(0)
}

// Puts the instruction of each record from `first` on into its word.
fn decrypt_words<C: WordCipher>(sealed: &Sealed<'_, C>, first: u32, words: &mut [u32])
    requires { first + length words.old ≤ sealed.now.header.count }
    ensures { words.new ≡ shown_words (keyed_by C.WordCipher sealed.now.cipher.now) sealed.now.image.now (head_in sealed.now.image.now) first (length words.old) }
{
    for (place, word) in words.iter_mut().enumerate() {
        *word = word_at(sealed, first, place);
    }
}

// Puts into the words what a page from record `first` on shows.
pub(crate) fn fill<C: WordCipher>(cipher: &C, image: &[u8], first: u32, words: &mut [u32])
    ensures { words.new ≡ page_words (keyed_by C.WordCipher cipher.now) image.now first (length words.old) }
{
    match checked(cipher, image, first, words.len()) {
        Ok(sealed) => decrypt_words(&sealed, first, words),
        Err(_) => wipe(words),
    }
}
