// A third cipher, which shows that what is generic is generic, and tests of all three.
#![tactic(auto)]

ghost use Rattle.std.specs.Prelude.{◌≡◌, ◌^◌, ◌<◌, refl};
ghost use Rattle.cipher.specs.declared.Mode.TheVariants.{Tagged};
ghost use Rattle.cipher_tests.specs.Bare.{bare, bare_opened};
ghost use Rattle.cipher.proofs.Fixed.{laws_derived};
ghost use Rattle.cipher_tests.specs.Lawful.{bare_laws};

use cipher::{Mode, WordCipher};

/// Bare words with a zero tag of eight bits.
#[derive(Drop)]
pub struct Bare {
    key: u128,
    ghost small: { key < 2 ^ 128 },
}

impl Bare {
    /// A bare cipher with that key, which it does not use.
    pub fn new(key: u128) -> Bare
        ensures { result.key ≡ key }
    {
        Bare { key }
    }
}

fn opened(stored: u64) -> Option<u32>
    ensures { result ≡ bare_opened stored }
{
    if stored < 0x100_0000_0000 && stored % 256 == 0 {
        Some((stored / 256) as u32)
    } else {
        None
    }
}

impl WordCipher for Bare {
    ghost key_of = { λ c. c.key };

    ghost mode_of = { λ _. Tagged };

    ghost tag_of = { λ _. 8 };

    ghost rule = { λ _. bare };

    ghost keyed = { λ c. c.small };

    ghost fitting = { λ _. refl };

    ghost lawful = { λ c k t _ _. laws_derived (bare k Tagged 8 t) bare_opened 8 (bare_laws k t) };

    fn mode(&self) -> Mode {
        Mode::Tagged
    }

    fn tag_length(&self) -> u32 {
        8
    }

    fn load(&mut self, key: u128) {
        self.key = key;
    }

    fn encrypt(&self, tweak: u64, instruction: u32) -> u64 {
        u64::from(instruction) * 256
    }

    fn decrypt(&self, tweak: u64, stored: u64) -> Option<u32> {
        opened(stored)
    }
}

#[cfg(test)]
mod tests {
    use super::*;
    use chilow::word_cipher::ChiLow;
    use cipher::{genuine, round_trip};
    use refusal::{Layer, Note, Refusal};
    use std::process::Abort;
    use std::test::Fail;

    const KEY: u128 = 0xFEDC_BA98_7654_3210_7766_5544_3322_1100;

    const TWEAK: u64 = 0x0011_2233_4455_6677;

    // What every word cipher does with any words.
    fn keeps_words<C: WordCipher>(rt: &impl Abort, cipher: &C) {
        for word in [0, 1, 0x2E75_D127, 0x9054_5706, 0xFFFF_FFFF] {
            let stored = cipher.encrypt(TWEAK, word);
            assert_eq!(rt; round_trip(cipher, TWEAK, word), Some(word));
            assert!(rt; genuine(cipher, TWEAK, stored));
            assert!(rt; !genuine(cipher, TWEAK, stored | 0x8000_0000_0000_0000));
        }
    }

    fn made(mode: Mode, tag_length: u32) -> Result<ChiLow, Refusal> {
        let mut cipher = ChiLow::new(mode, tag_length)?;
        cipher.load(KEY);
        Ok(cipher)
    }

    #[test]
    fn published_words(rt: HostRuntime) -> Result<(), Fail> {
        for tag_length in 8..=16 {
            let cipher = made(Mode::Tagged, tag_length)?;
            let tag = 0x0FBC_7E64 % (1u64 << tag_length);
            let stored = 0x0123_4567u64 * (1u64 << tag_length) + tag;
            assert_eq!(rt; cipher.encrypt(TWEAK, 0x2E75_D127), stored);
            assert_eq!(rt; cipher.decrypt(TWEAK, stored), Some(0x2E75_D127));
            assert_eq!(rt; cipher.decrypt(TWEAK, stored ^ 1), None);
            assert_eq!(rt;
                cipher.decrypt(TWEAK, stored | (1u64 << (32 + tag_length))),
                None
            );
            keeps_words(&rt, &cipher);
        }
        Ok(())
    }

    #[test]
    fn published_block(rt: HostRuntime) -> Result<(), Fail> {
        let mut cipher = made(Mode::Block, 8)?;
        assert_eq!(rt; cipher.encrypt(TWEAK, 0x9054_5706), 0x31_7C83_E4A7);
        assert_eq!(rt; cipher.decrypt(TWEAK, 0x31_7C83_E4A7), Some(0x9054_5706));
        assert_eq!(rt; cipher.decrypt(TWEAK, 0x131_7C83_E4A7), None);
        keeps_words(&rt, &cipher);
        cipher.load(0);
        assert_eq!(rt; cipher.decrypt(TWEAK, 0x31_7C83_E4A7), None);
        Ok(())
    }

    #[test]
    fn bare_words(rt: HostRuntime) {
        let cipher = Bare::new(KEY);
        assert_eq!(rt; cipher.encrypt(TWEAK, 7), 0x700);
        keeps_words(&rt, &cipher);
    }

    #[test]
    fn tag_lengths(rt: HostRuntime) -> Result<(), Fail> {
        for (mode, tag_length) in [
            (Mode::Tagged, 7),
            (Mode::Tagged, 17),
            (Mode::Block, 7),
            (Mode::Block, 9),
            (Mode::Block, 16),
        ] {
            let refusal = ChiLow::new(mode, tag_length)
                .err()
                .ok_or("a tag length that does not fit is taken")?;
            assert_eq!(rt; refusal.note(), Note::new(3, 3, Layer::Cipher));
        }
        Ok(())
    }
}
