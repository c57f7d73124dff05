// The checks of an install, which need no memory.
ghost use Rattle.std.specs.Prelude.{◌≡◌, IfOk};
ghost use Rattle.std.specs.Result.{result_err};
ghost use Rattle.image.specs.Reading.{head_in, head_of};
ghost use Rattle.life.specs.Checks.{stale_refusal, size_refusal};
ghost use Rattle.unit.specs.View.{install_refusal_by, sealed_refusal};

use crate::unit_core::Core;
use cipher::WordCipher;
use image::header::Header;
use life::sealed::Sealed;
use refusal::Refusal;

// Whether a version is above the one in force; 0 never is.
fn check_version(in_force: Option<u32>, version: u32) -> Result<(), Refusal>
    ensures { result_err result ≡ stale_refusal in_force version }
{
    if version <= in_force.unwrap_or(0) {
        return Err(Refusal::Stale { in_force });
    }
    Ok(())
}

// Whether there are as many slots as records.
fn check_size(slots: u32, count: u32) -> Result<(), Refusal>
    ensures { result_err result ≡ size_refusal slots count }
{
    if count > slots {
        return Err(Refusal::TooBig { slots });
    }
    Ok(())
}

impl<C: WordCipher> Core<C> {
    // The header of an image that can be installed under the live key, or the first refusal that fits.
    pub(crate) fn check_install(&self, slots: u32, image: &[u8]) -> Result<Header, Refusal>
        ensures refusal { result_err result ≡ install_refusal_by C.WordCipher self.now slots image.now }
        ensures header { IfOk result (λ header. head_of header ≡ head_in image.now) }
    {
        let sealed = Sealed::read(&self.cipher, image)?;
        self.check_sealed(slots, &sealed)?;
        Ok(sealed.header)
    }

    // Whether an image that was read can be installed.
    fn check_sealed(&self, slots: u32, sealed: &Sealed<'_, C>) -> Result<(), Refusal>
        ensures { result_err result ≡ sealed_refusal C.WordCipher self.now slots sealed.now }
    {
        let header = &sealed.header;
        check_version(self.in_force(), header.version())?;
        check_size(slots, header.count())?;
        sealed.check(0..header.count())
    }
}
