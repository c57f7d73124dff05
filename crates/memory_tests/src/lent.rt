// Chips that are lent to a memory, written by code that knows no more than the trait, and had back.
ghost use Rattle.std.specs.Prelude.{◌≡◌, length};
ghost use Rattle.memory.specs.Slots.{after_write};
ghost use Rattle.chips.specs.Chips.{packed as packed_slots, left_over, bytes_of, paired as paired_slots, surplus_high, surplus_low, highs_of, lows_of};
ghost use Rattle.parts.specs.Parts.{joined as joined_slots};

use chips::packed::Packed;
use chips::paired::Paired;
use memory::Memory;
use parts::joined::Joined;

/// Takes a memory of any kind, writes to it, and hands it back.
pub fn put<M: Memory>(mut memory: M, slot: u32, number: u64) -> M
    ensures after { M.held result ≡ after_write (M.held memory) slot number }
    ensures kept { M.rest result ≡ M.rest memory }
{
    let _ = memory.write(slot, number);
    memory
}

/// The chip of bytes after a write, to the last byte.
pub fn put_packed<'a>(chip: &'a mut [u8], slot: u32, number: u64) -> &'a mut [u8]
    ensures lent { result.ghost_name ≡ chip.entry.ghost_name }
    ensures bytes { result.now ≡ bytes_of (after_write (packed_slots chip.old) slot number) (left_over chip.old) }
{
    put(Packed::new(chip), slot, number).into_chip()
}

/// The same of the caller's own buffer, once nothing is lent any more.
// Stays: this and the other `_after` are calls of their own; what a lent buffer holds is known after one call takes it.
pub fn packed_after(buffer: &mut [u8], slot: u32, number: u64)
    ensures { buffer.new ≡ bytes_of (after_write (packed_slots buffer.old) slot number) (left_over buffer.old) }
{
    let _chip = put_packed(buffer, slot, number);
}

/// Both chips of a pair after a write, to the last word.
pub fn put_paired<'a>(
    high: &'a mut [u32],
    low: &'a mut [u16],
    slot: u32,
    number: u64,
) -> (&'a mut [u32], &'a mut [u16])
    ensures lent_high { result.0.ghost_name ≡ high.entry.ghost_name }
    ensures lent_low { result.1.ghost_name ≡ low.entry.ghost_name }
    ensures highs { result.0.now ≡ highs_of (after_write (paired_slots high.old low.old) slot number) (surplus_high high.old low.old) }
    ensures lows { result.1.now ≡ lows_of (after_write (paired_slots high.old low.old) slot number) (surplus_low high.old low.old) }
{
    put(Paired::new(high, low), slot, number).into_chips()
}

/// The same of the caller's own buffers, once nothing is lent any more.
pub fn paired_after(high: &mut [u32], low: &mut [u16], slot: u32, number: u64)
    ensures highs { high.new ≡ highs_of (after_write (paired_slots high.old low.old) slot number) (surplus_high high.old low.old) }
    ensures lows { low.new ≡ lows_of (after_write (paired_slots high.old low.old) slot number) (surplus_low high.old low.old) }
{
    let _chips = put_paired(high, low, slot, number);
}

/// Two chips after a write to their joined memory: which they are, how long, their slots and left-over bytes.
pub fn put_joined<'a, 'b>(
    first: &'a mut [u8],
    second: &'b mut [u8],
    slot: u32,
    number: u64,
) -> (&'a mut [u8], &'b mut [u8])
    ensures lent_first { result.0.ghost_name ≡ first.entry.ghost_name }
    ensures lent_second { result.1.ghost_name ≡ second.entry.ghost_name }
    ensures size_first { length result.0.now ≡ length first.old }
    ensures size_second { length result.1.now ≡ length second.old }
    ensures slots { joined_slots (packed_slots result.0.now) (packed_slots result.1.now) ≡ after_write (joined_slots (packed_slots first.old) (packed_slots second.old)) slot number }
    ensures left_first { left_over result.0.now ≡ left_over first.old }
    ensures left_second { left_over result.1.now ≡ left_over second.old }
{
    let memory = Joined::new(Packed::new(first), Packed::new(second));
    let memory = put(memory, slot, number);
    let (one, two) = memory.into_parts();
    (one.into_chip(), two.into_chip())
}

/// The same of the caller's own two buffers, once nothing is lent any more.
pub fn joined_after(first: &mut [u8], second: &mut [u8], slot: u32, number: u64)
    ensures slots { joined_slots (packed_slots first.new) (packed_slots second.new) ≡ after_write (joined_slots (packed_slots first.old) (packed_slots second.old)) slot number }
    ensures left_first { left_over first.new ≡ left_over first.old }
    ensures left_second { left_over second.new ≡ left_over second.old }
{
    let _chips = put_joined(first, second, slot, number);
}

/// The chips of a board.
#[derive(Drop)]
pub struct Board<'a> {
    bytes: &'a mut [u8],
    high: &'a mut [u32],
    low: &'a mut [u16],
}

/// A board's chips after a write to their joined memory.
// Stays: what the buffers hold is known after one call that takes them, not after one on a `Board` of them (tried: by
// value, in one expression, by `&mut`).
fn put_board<'a>(
    bytes: &'a mut [u8],
    high: &'a mut [u32],
    low: &'a mut [u16],
    slot: u32,
    number: u64,
) -> Board<'a>
    ensures lent_bytes { result.bytes.ghost_name ≡ bytes.entry.ghost_name }
    ensures lent_high { result.high.ghost_name ≡ high.entry.ghost_name }
    ensures lent_low { result.low.ghost_name ≡ low.entry.ghost_name }
    ensures slots { joined_slots (packed_slots result.bytes.now) (paired_slots result.high.now result.low.now) ≡ after_write (joined_slots (packed_slots bytes.old) (paired_slots high.old low.old)) slot number }
    ensures left { left_over result.bytes.now ≡ left_over bytes.old }
    ensures highs { surplus_high result.high.now result.low.now ≡ surplus_high high.old low.old }
    ensures lows { surplus_low result.high.now result.low.now ≡ surplus_low high.old low.old }
{
    let memory = Joined::new(Packed::new(bytes), Paired::new(high, low));
    let memory = put(memory, slot, number);
    let (one, two) = memory.into_parts();
    let bytes = one.into_chip();
    let (high, low) = two.into_chips();
    Board { bytes, high, low }
}

/// The same of the caller's own three buffers, once nothing is lent any more.
pub fn board_after(bytes: &mut [u8], high: &mut [u32], low: &mut [u16], slot: u32, number: u64)
    ensures slots { joined_slots (packed_slots bytes.new) (paired_slots high.new low.new) ≡ after_write (joined_slots (packed_slots bytes.old) (paired_slots high.old low.old)) slot number }
    ensures left { left_over bytes.new ≡ left_over bytes.old }
    ensures highs { surplus_high high.new low.new ≡ surplus_high high.old low.old }
    ensures lows { surplus_low high.new low.new ≡ surplus_low high.old low.old }
{
    let _board = put_board(bytes, high, low, slot, number);
}
