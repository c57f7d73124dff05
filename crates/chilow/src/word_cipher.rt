// ChiLow as a word cipher, in both modes.
ghost use Rattle.std.specs.Prelude.{◌≡◌, ℕ, ◌^◌, ◌<◌, true, false, Some, MatchResult};
ghost use Rattle.cipher.specs.Word.{fits_mode};
ghost use Rattle.refusal.specs.declared.Refusal.TheVariants.{BadTagLength};
ghost use Rattle.schedule.specs.Schedule.{key_schedule};
ghost use Rattle.paths.specs.Data.{schedules};
ghost use Rattle.chilow.specs.Words.{chilow, opened};
ghost use Rattle.chilow.specs.Sealing.{chilow-lawful};

use crate::word::Tweaked;
use cipher::{Mode, WordCipher};
use paths::schedules::Schedules;
use refusal::Refusal;
use schedule::key::{KeySchedule, key_schedule};

/// ChiLow-(32+τ) in the tagged mode, ChiLow-40 in the block mode, with a key and the words of its schedule.
#[derive(Drop)]
pub struct ChiLow {
    mode: Mode,
    tag_bits: u32,
    key: u128,
    keys: KeySchedule,
    ghost fits: { fits_mode mode tag_bits ≡ true },
    ghost small: { key < 2 ^ 128 },
    ghost scheduled: { keys ≡ key_schedule mode key },
}

impl ChiLow {
    /// A cipher with the key 0, or a refusal where a tag of that mode cannot have that many bits.
    pub fn new(mode: Mode, tag_length: u32) -> Result<ChiLow, Refusal>
        ensures { MatchResult result (λ c. (c.mode ≡ mode) × (c.tag_bits ≡ tag_length) × (c.key ≡ 0)) (λ e. (e ≡ BadTagLength) × (fits_mode mode tag_length ≡ false)) }
    {
        if !mode.fits(tag_length) {
            return Err(Refusal::BadTagLength);
        }
        Ok(ChiLow {
            mode,
            tag_bits: tag_length,
            key: 0,
            keys: key_schedule(mode, 0),
        })
    }

    /// A cipher with a key, or a refusal where a tag of that mode cannot have that many bits.
    pub fn keyed(mode: Mode, tag_length: u32, key: u128) -> Result<ChiLow, Refusal>
        ensures { MatchResult result (λ c. (c.mode ≡ mode) × (c.tag_bits ≡ tag_length) × (c.key ≡ key)) (λ e. (e ≡ BadTagLength) × (fits_mode mode tag_length ≡ false)) }
    {
        let mut cipher = ChiLow::new(mode, tag_length)?;
        cipher.load(key);
        Ok(cipher)
    }

    /// The instruction of a stored number, by the published decryption, or nothing where it is rejected.
    pub fn open(&self, tweak: u64, stored: u64) -> Option<u32>
        ensures { result ≡ opened self.now.key self.now.mode self.now.tag_bits tweak stored }
    {
        self.under(tweak).open(stored)
    }

    /// The one stored number that opens to the instruction.
    pub fn seal(&self, tweak: u64, instruction: u32) -> u64
        ensures is { result ≡ chilow self.now.key self.now.mode self.now.tag_bits tweak instruction }
        ensures opens { opened self.now.key self.now.mode self.now.tag_bits tweak result ≡ Some instruction }
        ensures only { (s : ℕ) → s < 2 ^ 64 → opened self.now.key self.now.mode self.now.tag_bits tweak s ≡ Some instruction → s ≡ result }
    {
        self.under(tweak).store(instruction)
    }

    fn under(&self, tweak: u64) -> Tweaked
        ensures mode { result.mode ≡ self.now.mode }
        ensures tag { result.tag_bits ≡ self.now.tag_bits }
        ensures schedules { result.schedules ≡ schedules self.now.mode self.now.key tweak }
    {
        Tweaked {
            mode: self.mode,
            tag_bits: self.tag_bits,
            schedules: Schedules::new(&self.keys, tweak),
        }
    }
}

impl WordCipher for ChiLow {
    ghost key_of = { λ c. c.key };

    ghost mode_of = { λ c. c.mode };

    ghost tag_of = { λ c. c.tag_bits };

    ghost rule = { λ _. chilow };

    ghost keyed = { λ c. c.small };

    ghost fitting = { λ c. c.fits };

    ghost lawful = { λ c. chilow-lawful c.mode c.tag_bits c.fits };

    fn mode(&self) -> Mode {
        self.mode
    }

    fn tag_length(&self) -> u32 {
        self.tag_bits
    }

    fn load(&mut self, key: u128) {
        self.keys = key_schedule(self.mode, key);
        self.key = key;
    }

    fn encrypt(&self, tweak: u64, instruction: u32) -> u64 {
        self.seal(tweak, instruction)
    }

    #[tactic(auto, using(crate::specs::Sealing::opened_is))]
    fn decrypt(&self, tweak: u64, stored: u64) -> Option<u32> {
        self.open(tweak, stored)
    }
}
