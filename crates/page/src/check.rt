// The checks of a page. They change nothing, and strike nobody.
ghost use Rattle.std.specs.Prelude.{◌≡◌, IfOk};
ghost use Rattle.std.specs.Result.{result_err};
ghost use Rattle.shore.specs.Drafting.{keyed_by};
ghost use Rattle.page.specs.Laws.{RefusedOnlyPastEnd};
ghost use Rattle.page.specs.Showing.{past_refusal, sealed_refusal, page_refusal};

use cipher::WordCipher;
use life::sealed::Sealed;
use refusal::Refusal;

// Whether a program of `count` records has `length` of them from `first` on.
fn check_end(count: u32, first: u32, length: usize) -> Result<(), Refusal>
    ensures { result_err result ≡ past_refusal count first length }
{
    if first as u128 + length as u128 > count as u128 {
        return Err(Refusal::PastEnd { count });
    }
    Ok(())
}

// The image, read for the cipher, that a page can show, or the first refusal that fits.
pub(crate) fn checked<'a, C: WordCipher>(
    cipher: &'a C,
    image: &'a [u8],
    first: u32,
    length: usize,
) -> Result<Sealed<'a, C>, Refusal>
    ensures refusal { result_err result ≡ page_refusal (keyed_by C.WordCipher cipher.now) image.now first length }
    ensures cipher { IfOk result (λ sealed. sealed.cipher.now ≡ cipher.now) }
    ensures image { IfOk result (λ sealed. sealed.image.now ≡ image.now) }
{
    let sealed = Sealed::read(cipher, image)?;
    check_shown(&sealed, first, length)?;
    Ok(sealed)
}

// Whether a page can show records of an image that was read, or the first refusal that fits.
fn check_shown<C: WordCipher>(
    sealed: &Sealed<'_, C>,
    first: u32,
    length: usize,
) -> Result<(), Refusal>
    ensures { result_err result ≡ sealed_refusal C.WordCipher sealed.now first length }
{
    check_end(sealed.header.count(), first, length)?;
    sealed.check(first..first + length as u32)
}

/// Whether a page of `length` words can show an image from record `first` on, or the first refusal that fits.
pub fn check_page<C: WordCipher>(
    cipher: &C,
    image: &[u8],
    first: u32,
    length: usize,
) -> Result<(), Refusal>
    ensures answer { result_err result ≡ page_refusal (keyed_by C.WordCipher cipher.now) image.now first length }
    ensures made { RefusedOnlyPastEnd (keyed_by C.WordCipher cipher.now) image.now first length }
{
    checked(cipher, image, first, length).map(|_| ())
}
