// Where a slot of two memories lies, and reading and writing there.
ghost use Rattle.std.specs.Prelude.{◌≡◌};
ghost use Rattle.parts.specs.Places.{read_at, first_after, second_after};

use memory::Memory;
use refusal::Refusal;

/// A slot of one of two memories.
#[derive(Clone, Copy)]
pub enum Place {
    First(u32),
    Second(u32),
}

/// Reads at a place.
pub(crate) fn read_at<F: Memory, S: Memory>(
    first: &F,
    second: &S,
    place: Place,
) -> Result<u64, Refusal>
    ensures { result ≡ read_at (F.held first.now) (S.held second.now) place }
{
    match place {
        Place::First(slot) => first.read(slot),
        Place::Second(slot) => second.read(slot),
    }
}

/// Writes at a place: only one of the two memories changes, and only its slots.
pub(crate) fn write_at<F: Memory, S: Memory>(
    first: &mut F,
    second: &mut S,
    place: Place,
    number: u64,
)
    ensures first { F.held first.new ≡ first_after (F.held first.old) place number }
    ensures second { S.held second.new ≡ second_after (S.held second.old) place number }
    ensures kept_first { F.rest first.new ≡ F.rest first.old }
    ensures kept_second { S.rest second.new ≡ S.rest second.old }
{
    match place {
        Place::First(slot) => {
            let _ = first.write(slot, number);
        }
        Place::Second(slot) => {
            let _ = second.write(slot, number);
        }
    }
}
