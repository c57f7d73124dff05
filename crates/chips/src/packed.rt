// A memory over one chip of bytes: six bytes to a slot, most significant first.
ghost use Rattle.std.specs.Prelude.{◌≡◌, ℕ, ◌*◌, ◌<◌, length, slice_index};
ghost use Rattle.chips.specs.Chips.{six_at, six_bytes, packed_count, packed as packed_slots, left_over, packed_rest, bytes_of};
ghost use Rattle.chips.specs.Sounds.{packed-sound};

use memory::Memory;
use memory::bounds::{check_slot, check_write, cut};
use refusal::Refusal;

/// The memory of a lent chip of bytes.
#[derive(Drop)]
pub struct Packed<'a> {
    bytes: &'a mut [u8],
    // In a contract a byte is any number: these are below 256.
    ghost in_range: { (i : ℕ) → slice_index bytes.now i < 256 },
}

/// How many slots a chip of so many bytes has.
fn slots_in(size: usize) -> u32
    ensures { result ≡ packed_count size }
{
    cut(size / 6)
}

/// Where a slot begins.
fn first_byte(slot: u32) -> usize
    ensures { result ≡ 6 * slot }
{
    6 * slot as usize
}

/// The number in six bytes.
fn read_six(six: &[u8]) -> u64
    requires { length six.now ≡ 6 }
    ensures { result ≡ six_at six.now 0 }
{
    u64::from_be_bytes([0, 0, six[0], six[1], six[2], six[3], six[4], six[5]])
}

/// The six bytes of a number.
fn six_bytes(number: u64) -> [u8; 6]
    ensures { result ≡ six_bytes number }
{
    let [_, _, a, b, c, d, e, f] = number.to_be_bytes();
    [a, b, c, d, e, f]
}

/// Puts a number into six bytes.
fn write_six(six: &mut [u8], number: u64)
    requires { length six.old ≡ 6 }
    ensures { six.new ≡ six_bytes number }
{
    six.copy_from_slice(&six_bytes(number));
}

#[tactic(auto, using(crate::proofs::Packs::packs))]
impl Memory for Packed<'_> {
    ghost held = { λ m. packed_slots m.bytes.now };

    ghost rest = { λ m. packed_rest m.bytes.ghost_name m.bytes.now };

    ghost sound = { λ m. packed-sound m.bytes.now };

    fn slots(&self) -> u32 {
        slots_in(self.bytes.len())
    }

    fn read(&self, slot: u32) -> Result<u64, Refusal> {
        check_slot(self.slots(), slot)?;
        let start = first_byte(slot);
        Ok(read_six(&self.bytes[start..start + 6]))
    }

    fn write(&mut self, slot: u32, number: u64) -> Result<(), Refusal> {
        check_write(self.slots(), slot, number)?;
        let start = first_byte(slot);
        write_six(&mut self.bytes[start..start + 6], number);
        Ok(())
    }
}

impl<'a> Packed<'a> {
    /// Takes a chip on loan.
    pub fn new(bytes: &'a mut [u8]) -> Packed<'a>
        ensures same { result.bytes.now ≡ bytes.old }
        ensures lent { result.bytes.ghost_name ≡ bytes.entry.ghost_name }
    {
        Packed { bytes }
    }

    /// Gives the chip back, with what was written.
    pub fn into_chip(self) -> &'a mut [u8]
        ensures same { result.now ≡ self.entry.bytes.now }
        ensures lent { result.ghost_name ≡ self.entry.bytes.ghost_name }
        ensures whole { result.now ≡ bytes_of (packed_slots self.entry.bytes.now) (left_over self.entry.bytes.now) }
    {
        let Packed { bytes } = self;
        bytes
    }
}
