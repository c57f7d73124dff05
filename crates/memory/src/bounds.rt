// The bounds of every memory, and their checks in order.
ghost use Rattle.std.specs.Prelude.{◌≡◌, min};
ghost use Rattle.memory.specs.Slots.{most, slot_check, write_check};

use refusal::Refusal;

/// The most slots that a memory has.
pub const MOST_SLOTS: u32 = 1_048_575;

/// The first number that is too wide for a slot: 2^48.
pub const TOO_WIDE: u64 = 1 << 48;

/// As many slots as there are, up to the most.
pub fn cut(count: usize) -> u32
    ensures { result ≡ min most count }
{
    count.min(MOST_SLOTS as usize) as u32
}

/// The check of a read.
pub fn check_slot(slots: u32, slot: u32) -> Result<(), Refusal>
    ensures { result ≡ slot_check slots slot }
{
    if slot >= slots {
        return Err(Refusal::NoSlot { slot });
    }
    Ok(())
}

/// The checks of a write: the slot first, then the number.
pub fn check_write(slots: u32, slot: u32, number: u64) -> Result<(), Refusal>
    ensures { result ≡ write_check slots slot number }
{
    check_slot(slots, slot)?;
    if number >= TOO_WIDE {
        return Err(Refusal::TooWide { slot });
    }
    Ok(())
}
