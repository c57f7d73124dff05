// Looking for an instruction in an image, with a page that is gone afterwards.
ghost use Rattle.std.specs.Prelude.{◌≡◌, length, IfOk, MatchResult};
ghost use Rattle.std.specs.Result.{result_err};
ghost use Rattle.shore.specs.Drafting.{keyed_by};
ghost use Rattle.page.specs.Showing.{page_refusal, page_words, Zero, place_of};

use crate::check::check_page;
use crate::page::Page;
use cipher::WordCipher;
use refusal::Refusal;

/// The place of the first word that is `instruction` on a page from record `first` on, which stands in the buffer
/// meanwhile: the buffer is zero afterwards, and untouched where the page is refused.
pub fn find_instruction<C: WordCipher>(
    cipher: &C,
    image: &[u8],
    first: u32,
    instruction: u32,
    buffer: &mut [u32],
) -> Result<Option<usize>, Refusal>
    ensures refusal { result_err result ≡ page_refusal (keyed_by C.WordCipher cipher.now) image.now first (length buffer.old) }
    ensures place { IfOk result (λ place. place ≡ place_of instruction (page_words (keyed_by C.WordCipher cipher.now) image.now first (length buffer.old))) }
    ensures buffer { MatchResult result (λ _. Zero buffer.new) (λ _. buffer.new ≡ buffer.old) }
{
    check_page(cipher, image, first, buffer.len())?;
    let page = Page::new(cipher, image, first, buffer);
    // Stays: the page is asked for each word; with an iterator over its words, what the buffer holds in the end is not proved.
    for place in 0..page.len() {
        if page.word(place) == instruction {
            return Ok(Some(place));
        }
    }
    Ok(None)
}
