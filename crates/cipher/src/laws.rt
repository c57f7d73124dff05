// The two laws of a word cipher, as calls.
ghost use Rattle.std.specs.Prelude.{◌≡◌, is_some, Some};
ghost use Rattle.cipher.specs.Keyed.{encryption_by};
ghost use Rattle.cipher.specs.Word.{decrypted, LawsFixDecryption};

use crate::WordCipher;

/// What becomes of an instruction that is encrypted and decrypted again: it comes back.
pub fn round_trip<C: WordCipher>(cipher: &C, tweak: u64, instruction: u32) -> Option<u32>
    ensures back { result ≡ Some instruction }
    ensures decrypts { result ≡ decrypted (encryption_by C.WordCipher cipher.now tweak) (encryption_by C.WordCipher cipher.now tweak instruction) }
{
    cipher.decrypt(tweak, cipher.encrypt(tweak, instruction))
}

/// Whether a stored number is the encryption of what it decrypts to: it is, unless it is rejected.
pub fn genuine<C: WordCipher>(cipher: &C, tweak: u64, stored: u64) -> bool
    ensures decrypts { result ≡ is_some (decrypted (encryption_by C.WordCipher cipher.now tweak) stored) }
    ensures fixed { LawsFixDecryption }
{
    cipher
        .decrypt(tweak, stored)
        .is_some_and(|instruction| cipher.encrypt(tweak, instruction) == stored)
}
