// Stored words by schedules: the tag beside the ciphertext, or inside the block.
ghost use Rattle.std.specs.Prelude.{◌≡◌, ◌+◌, ◌*◌, ◌/◌, ◌%◌, ◌^◌, ◌<◌, ◌≤◌, ◌==◌, true, Some, None, if◌then◌else◌};
ghost use Rattle.bits.specs.Number.{part};
ghost use Rattle.cipher.specs.Word.{fits_mode};
ghost use Rattle.cipher.specs.declared.Mode.TheVariants.{Tagged, Block};
ghost use Rattle.paths.specs.declared.path.Path.TheVariants.{Data32, Tag32, Data40};
ghost use Rattle.paths.specs.Encryption.{width, source};
ghost use Rattle.paths.specs.Data.{outcome};
ghost use Rattle.chilow.specs.Words.{run, stored_by, opened_by};

use bits::part_of;
use cipher::Mode;
use paths::path::Path;
use paths::schedules::Schedules;

// A cipher under one tweak.
#[derive(Clone, Copy)]
pub(crate) struct Tweaked {
    pub(crate) mode: Mode,
    pub(crate) tag_bits: u32,
    pub(crate) schedules: Schedules,
    ghost fits: { fits_mode mode tag_bits ≡ true },
    ghost short: { tag_bits ≤ 16 },
    ghost narrow: { schedules.keys.«data» < 2 ^ width mode },
}

impl Tweaked {
    // What a stored number opens to.
    pub(crate) fn open(&self, stored: u64) -> Option<u32>
        ensures { result ≡ opened_by (run self.now.schedules) self.now.mode self.now.tag_bits stored }
    {
        if stored >= 1 << (32 + self.tag_bits) {
            return None;
        }
        match self.mode {
            Mode::Tagged => self.open_tagged(stored),
            Mode::Block => self.open_block(stored),
        }
    }

    // The stored number of an instruction.
    pub(crate) fn store(&self, instruction: u32) -> u64
        ensures { result ≡ stored_by (source self.now.mode self.now.schedules) (run self.now.schedules) self.now.mode self.now.tag_bits instruction }
    {
        let block = self.schedules.encrypt(self.mode, u64::from(instruction));
        match self.mode {
            Mode::Tagged => self.with_tag(block),
            Mode::Block => block,
        }
    }

    fn open_tagged(&self, stored: u64) -> Option<u32>
        ensures { stored < 2 ^ (32 + self.now.tag_bits) → result ≡ opened_by (run self.now.schedules) Tagged self.now.tag_bits stored }
    {
        let ciphertext = stored >> self.tag_bits;
        (self.tag_of(ciphertext) == stored % (1 << self.tag_bits)).then(|| self
            .schedules
            .decrypt(Path::Data32, ciphertext) as u32)
    }

    fn open_block(&self, stored: u64) -> Option<u32>
        ensures { stored < 2 ^ (32 + self.now.tag_bits) → result ≡ opened_by (run self.now.schedules) Block self.now.tag_bits stored }
    {
        let block = u128::from(self.schedules.decrypt(Path::Data40, stored));
        (part_of(block, 32, 8) == 0).then_some(part_of(block, 0, 32) as u32)
    }

    // A ciphertext, and its tag beside it.
    fn with_tag(&self, ciphertext: u64) -> u64
        requires { ciphertext < 2 ^ 32 }
        ensures { result ≡ ciphertext * 2 ^ self.now.tag_bits + part (outcome Tag32 self.now.schedules ciphertext) 0 self.now.tag_bits }
    {
        let tag = self.tag_of(ciphertext);
        (ciphertext << self.tag_bits) + tag
    }

    fn tag_of(&self, ciphertext: u64) -> u64
        ensures { result ≡ part (outcome Tag32 self.now.schedules ciphertext) 0 self.now.tag_bits }
    {
        let state = self.schedules.decrypt(Path::Tag32, ciphertext);
        part_of(u128::from(state), 0, self.tag_bits) as u64
    }
}
