// A memory over two chips: one of 32-bit words with the upper bits, one of 16-bit words with the lower.
ghost use Rattle.std.specs.Prelude.{◌≡◌, ℕ, ◌<◌, ◌^◌, slice_index};
ghost use Rattle.chips.specs.Chips.{pair_of, high_word, low_word, paired_count, paired as paired_slots, surplus_high, surplus_low, paired_rest, highs_of, lows_of};
ghost use Rattle.chips.specs.Sounds.{paired-sound};

use memory::Memory;
use memory::bounds::{check_slot, check_write, cut};
use refusal::Refusal;

/// The memory of two lent chips.
// Stays: two slices side by side, since they are the two chips that a caller lends.
#[derive(Drop)]
pub struct Paired<'a> {
    high: &'a mut [u32],
    low: &'a mut [u16],
    // In a contract a word is any number: these have 32 and 16 bits.
    ghost high_in_range: { (i : ℕ) → slice_index high.now i < 2 ^ 32 },
    ghost low_in_range: { (i : ℕ) → slice_index low.now i < 2 ^ 16 },
}

/// How many slots two chips have: the shorter one counts.
fn slots_in(highs: usize, lows: usize) -> u32
    ensures { result ≡ paired_count highs lows }
{
    cut(highs.min(lows))
}

/// The number of a word of each chip.
fn number_of(high: u32, low: u16) -> u64
    ensures { result ≡ pair_of high low }
{
    u64::from(high) << 16 | u64::from(low)
}

/// The word of the high chip.
fn high_word(number: u64) -> u32
    ensures { result ≡ high_word number }
{
    (number >> 16 & 0xffff_ffff) as u32
}

/// The word of the low chip.
fn low_word(number: u64) -> u16
    ensures { result ≡ low_word number }
{
    (number & 0xffff) as u16
}

#[tactic(auto, using(crate::proofs::Pairs::pairs))]
impl Memory for Paired<'_> {
    ghost held = { λ m. paired_slots m.high.now m.low.now };

    ghost rest = { λ m. paired_rest m.high.ghost_name m.low.ghost_name m.high.now m.low.now };

    ghost sound = { λ m. paired-sound m.high.now m.low.now };

    fn slots(&self) -> u32 {
        slots_in(self.high.len(), self.low.len())
    }

    fn read(&self, slot: u32) -> Result<u64, Refusal> {
        check_slot(self.slots(), slot)?;
        let word = slot as usize;
        Ok(number_of(self.high[word], self.low[word]))
    }

    fn write(&mut self, slot: u32, number: u64) -> Result<(), Refusal> {
        check_write(self.slots(), slot, number)?;
        let word = slot as usize;
        self.high[word] = high_word(number);
        self.low[word] = low_word(number);
        Ok(())
    }
}

impl<'a> Paired<'a> {
    /// Takes two chips on loan.
    pub fn new(high: &'a mut [u32], low: &'a mut [u16]) -> Paired<'a>
        ensures same_high { result.high.now ≡ high.old }
        ensures same_low { result.low.now ≡ low.old }
        ensures lent_high { result.high.ghost_name ≡ high.entry.ghost_name }
        ensures lent_low { result.low.ghost_name ≡ low.entry.ghost_name }
    {
        Paired { high, low }
    }

    /// Gives the chips back, with what was written.
    pub fn into_chips(self) -> (&'a mut [u32], &'a mut [u16])
        ensures same_high { result.0.now ≡ self.entry.high.now }
        ensures same_low { result.1.now ≡ self.entry.low.now }
        ensures lent_high { result.0.ghost_name ≡ self.entry.high.ghost_name }
        ensures lent_low { result.1.ghost_name ≡ self.entry.low.ghost_name }
        ensures whole_high { result.0.now ≡ highs_of (paired_slots self.entry.high.now self.entry.low.now) (surplus_high self.entry.high.now self.entry.low.now) }
        ensures whole_low { result.1.now ≡ lows_of (paired_slots self.entry.high.now self.entry.low.now) (surplus_low self.entry.high.now self.entry.low.now) }
    {
        let Paired { high, low } = self;
        (high, low)
    }
}
