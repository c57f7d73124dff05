// The chips of a ship, lent to a memory for the lives of two units.
ghost use Rattle.std.specs.Prelude.{◌≡◌};
ghost use Rattle.chips.specs.Chips.{left_over, surplus_high, surplus_low};

use crate::ashore::Cargo;
use crate::listed::tell_list;
use crate::show::print_slots;
use crate::story::tell;
use chilow::word_cipher::ChiLow;
use chips::packed::Packed;
use chips::paired::Paired;
use memory::Memory;
use parts::joined::Joined;
use unit::unit::Unit;

/// The chips of a board.
#[derive(Drop)]
pub struct Board<'a> {
    bytes: &'a mut [u8],
    high: &'a mut [u32],
    low: &'a mut [u16],
}

/// Both lives over the chips, which come back whatever is told: the very loans, with their left-over bytes and surplus
/// words.
// Stays: the chips go in one by one. With a Board that goes in by value this call is proved, but of its caller's buffers
// nothing is known any more once the loans are over. So too with what is told in a pair with the Board.
fn lend<'a>(
    rt: &HostRuntime,
    cipher: ChiLow,
    cargo: &Cargo<'_>,
    bytes: &'a mut [u8],
    high: &'a mut [u32],
    low: &'a mut [u16],
    told: &mut anyhow::Result<()>,
) -> Board<'a>
    ensures lent_bytes { result.bytes.ghost_name ≡ bytes.entry.ghost_name }
    ensures lent_high { result.high.ghost_name ≡ high.entry.ghost_name }
    ensures lent_low { result.low.ghost_name ≡ low.entry.ghost_name }
    ensures left { left_over result.bytes.now ≡ left_over bytes.old }
    ensures highs { surplus_high result.high.now result.low.now ≡ surplus_high high.old low.old }
    ensures lows { surplus_low result.high.now result.low.now ≡ surplus_low high.old low.old }
{
    let memory = Joined::new(Packed::new(bytes), Paired::new(high, low));
    let (memory, result) = both_lives(rt, cipher, memory, cargo);
    *told = result;
    let (one, two) = memory.into_parts();
    let bytes = one.into_chip();
    let (high, low) = two.into_chips();
    Board { bytes, high, low }
}

/// A unit's life call by call, then another's by a list, over one memory.
fn both_lives<M: Memory>(
    rt: &HostRuntime,
    cipher: ChiLow,
    memory: M,
    cargo: &Cargo<'_>,
) -> (M, anyhow::Result<()>)
    ensures { M.rest result.0 ≡ M.rest memory }
{
    let mut unit = Unit::new(cipher, memory);
    let told = tell(rt, &mut unit, cargo);
    let (cipher, memory) = unit.into_parts();
    match told.and_then(|()| between(rt, &memory)) {
        Ok(()) => tell_list(rt, cipher, memory, cargo),
        Err(error) => (memory, Err(error)),
    }
}

fn between<M: Memory>(rt: &HostRuntime, memory: &M) -> anyhow::Result<()> {
    println!(rt; "the memory, once the first unit is gone")?;
    print_slots(rt, memory)
}

/// The same of the caller's own three buffers, once nothing is lent any more.
pub(crate) fn sail(
    rt: &HostRuntime,
    cipher: ChiLow,
    cargo: &Cargo<'_>,
    bytes: &mut [u8],
    high: &mut [u32],
    low: &mut [u16],
) -> anyhow::Result<()>
    ensures left { left_over bytes.new ≡ left_over bytes.old }
    ensures highs { surplus_high high.new low.new ≡ surplus_high high.old low.old }
    ensures lows { surplus_low high.new low.new ≡ surplus_low high.old low.old }
{
    let mut told = Ok(());
    let _board = lend(rt, cipher, cargo, bytes, high, low, &mut told);
    told
}
